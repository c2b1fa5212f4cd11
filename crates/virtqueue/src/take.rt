// The reading half of a step, in document 01's order.
ghost use Rattle.std.specs.Prelude.{◌≡◌, ◌<◌, true};
ghost use Rattle.virtqueue.specs.Step.{used_reached};
ghost use Rattle.virtqueue.specs.Promises.{guest_of, nothing_yet, notices_of, head_of, TakesIn, TakesAll};

use crate::chain::Gathered;
use crate::lent::Lent;
use crate::queue::QueueStop;
use crate::ring::{ring_entry, used_entry, used_idx};
use map_records::map::GuestAddress;

// A chain that is ready: its head, and whether to notify the guest.
#[derive(Clone, Copy)]
pub struct Taken {
    pub head: u16,
    pub notify: bool,
}

// Available flags and idx, and the distance: whether to notify, or none where nothing is offered.
fn notices(lent: &Lent) -> Result<Option<bool>, QueueStop>
    ensures { result ≡ notices_of (guest_of lent.now) lent.now.mem.now lent.now.queue }
{
    let queue = lent.queue;
    let ring = queue.available;
    if !lent.reaches(ring, 4) {
        return Err(QueueStop::Ring);
    }
    let flags = lent.number(ring);
    let idx = lent.number(GuestAddress(ring.0 + 2));
    if idx == queue.next_available {
        return Ok(None);
    }
    let distance = idx.wrapping_sub(queue.next_available);
    if queue.size < distance {
        return Err(QueueStop::Ahead);
    }
    Ok(Some(flags % 2 == 0))
}

// The ring entry at seen mod n.
fn head(lent: &Lent) -> Result<u16, QueueStop>
    ensures { result ≡ head_of (guest_of lent.now) lent.now.mem.now lent.now.queue }
{
    let queue = lent.queue;
    let entry = ring_entry(queue.available, queue.next_available, queue.size);
    if !lent.reaches(entry, 2) {
        return Err(QueueStop::Ring);
    }
    let number = lent.number(entry);
    if number < queue.size {
        return Ok(number);
    }
    Err(QueueStop::Head)
}

// Are the used element and the used idx reachable?
fn used_reached(lent: &Lent) -> bool
    ensures { result ≡ used_reached (guest_of lent.now) lent.now.queue }
{
    let queue = lent.queue;
    let entry = used_entry(queue.used, queue.next_used, queue.size);
    let idx = used_idx(queue.used);
    lent.reaches(entry, 8) & lent.reaches(idx, 2)
}

// The chain from a head on, its shape, and the used ring.
fn take_chain(lent: &Lent, head: u16, chain: &mut Gathered) -> Result<(), QueueStop>
    requires head_lt_size { head < lent.now.queue.size }
    requires begun { chain.old ≡ nothing_yet }
    ensures { TakesIn lent.now head result chain.new }
{
    chain.gather(lent, lent.queue.descriptors, lent.queue.size, head)?;
    if chain.is_short() {
        return Err(QueueStop::Shape);
    }
    if !used_reached(lent) {
        return Err(QueueStop::Ring);
    }
    Ok(())
}

// All that a step reads; none where nothing is offered.
pub fn take(lent: &Lent, chain: &mut Gathered) -> Result<Option<Taken>, QueueStop>
    requires begun { chain.old ≡ nothing_yet }
    ensures { TakesAll lent.now result chain.new }
{
    if let Some(stop) = lent.queue.stopped() {
        return Err(stop);
    }
    let Some(notify) = notices(lent)? else {
        return Ok(None);
    };
    let head = head(lent)?;
    take_chain(lent, head, chain)?;
    Ok(Some(Taken { head, notify }))
}
