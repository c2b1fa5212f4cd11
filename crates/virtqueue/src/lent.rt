// The guest's memory as the reading half of a step sees it.
ghost use Rattle.std.specs.Prelude.{◌≡◌, ◌≤◌, true, length};
ghost use Rattle.map_records.specs.Words.{view_of};
ghost use Rattle.guest_view.specs.Guest.{all_reach};
ghost use Rattle.guest_view.specs.Promises.{Backed, InMemory, number_in, reach_in};
ghost use Rattle.virtqueue.specs.Queue.{queue_ok};

use crate::queue::SplitQueue;
use guest_view::reach::Guest;
use map_records::map::GuestAddress;

// The guest's view and blocks (no block is shorter than eight bytes), the memory, a queue that keeps 27's rules, and a range
// in which it is likely to lie; any number will do.
#[derive(Drop)]
pub struct Lent<'v, 'd, 'm> {
    pub guest: Guest<'v, 'd>,
    pub mem: &'m [u8],
    pub queue: SplitQueue,
    pub hint: usize,
    pub ghost backed: { Backed (view_of guest.view) (length mem.now) },
    pub ghost large: { 8 ≤ guest.blocks.size },
    pub ghost kept: { queue_ok queue ≡ true },
}

impl Lent<'_, '_, '_> {
    // Is each byte from an address on reachable?
    pub fn reaches(&self, addr: GuestAddress, count: u64) -> bool
        ensures { result ≡ all_reach (reach_in self.now.guest.view self.now.guest.blocks.size self.now.guest.blocks.plugged.now) addr.0 count }
    {
        self.guest.reaches(self.hint, addr, count)
    }

    // The little-endian number of two bytes.
    pub fn number(&self, addr: GuestAddress) -> u16
        requires { InMemory (view_of self.now.guest.view) addr.0 2 }
        ensures { result ≡ number_in self.now.guest.view self.now.mem.now addr.0 2 }
    {
        self.guest.view.read_number(self.mem, self.hint, addr, 2) as u16
    }
}
