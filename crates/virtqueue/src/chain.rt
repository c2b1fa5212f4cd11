// A chain of descriptors: its rules, and what a step takes from it.
ghost use Rattle.std.specs.Prelude.{◌≡◌, ◌<◌, ◌≤◌, min};
ghost use Rattle.map_records.specs.Words.{view_of};
ghost use Rattle.guest_view.specs.Promises.{InMemory};
ghost use Rattle.virtqueue.specs.Chain.{has_next, is_writable, misplaced, descriptor_at, fetched};
ghost use Rattle.virtqueue.specs.Promises.{guest_of, place_of, entry_by};
ghost use Rattle.virtqueue.specs.Promises.{nothing_yet, Filled, added, is_short, VisitsIn, GathersIn};
ghost use Rattle.map_records.specs.Limits.{limit};

use crate::lent::Lent;
use crate::queue::QueueStop;
use device_words::bytes::{REQUEST_BYTES, RESPONSE_BYTES};
use map_records::map::GuestAddress;

// A descriptor's flags, each a bit, tested by division as the definitions have it.
const NEXT: u16 = 1;

const WRITE: u16 = 2;

const INDIRECT: u16 = 4;

// The bytes of a descriptor.
const DESCRIPTOR_BYTES: usize = 16;

// VIRTIO's descriptor: an element of a chain, with flags and the next entry's number.
#[derive(Clone, Copy)]
pub struct Descriptor {
    pub addr: GuestAddress,
    pub length: u32,
    pub flags: u16,
    pub next: u16,
}

impl Descriptor {
    fn has_next(self) -> bool
        ensures { result ≡ has_next self }
    {
        self.flags / NEXT % 2 == 1
    }

    fn is_writable(self) -> bool
        ensures { result ≡ is_writable self }
    {
        self.flags / WRITE % 2 == 1
    }

    // Is it indirect, or readable after a writable one?
    fn is_misplaced(self, late: bool) -> bool
        ensures { result ≡ misplaced late self }
    {
        (self.flags / INDIRECT % 2 == 1) | (late & !(self.flags / WRITE % 2 == 1))
    }
}

// The descriptor of sixteen bytes.
fn descriptor_of(bytes: [u8; DESCRIPTOR_BYTES]) -> Descriptor
    ensures { result ≡ descriptor_at (λ a. a) bytes 0 }
{
    let [
        a0,
        a1,
        a2,
        a3,
        a4,
        a5,
        a6,
        a7,
        l0,
        l1,
        l2,
        l3,
        f0,
        f1,
        n0,
        n1,
    ] = bytes;
    Descriptor {
        addr: GuestAddress(u64::from_le_bytes([a0, a1, a2, a3, a4, a5, a6, a7])),
        length: u32::from_le_bytes([l0, l1, l2, l3]),
        flags: u16::from_le_bytes([f0, f1]),
        next: u16::from_le_bytes([n0, n1]),
    }
}

// Entry i of a table, where its bytes are reachable.
fn fetch(lent: &Lent, table: GuestAddress, i: u16) -> Option<Descriptor>
    requires { table.0 ≤ limit }
    ensures { entry_by result ≡ fetched (guest_of lent.now) lent.now.mem.now table.0 i }
{
    let at = GuestAddress(table.0 + (DESCRIPTOR_BYTES as u64) * u64::from(i));
    if !lent.reaches(at, DESCRIPTOR_BYTES as u64) {
        return None;
    }
    let mut bytes = [0u8; DESCRIPTOR_BYTES];
    lent.guest
        .view
        .read_bytes(lent.mem, lent.hint, at, &mut bytes);
    Some(descriptor_of(bytes))
}

// How many bytes of an element there is room for.
fn fitting(room: usize, length: u32) -> usize
    ensures { result ≡ min room length }
{
    room.min(length as usize)
}

// What the elements so far gave: bytes of the request and places for the response, how many of each are
// there, and whether a writable element came.
#[derive(Drop)]
pub struct Gathered {
    pub request: [u8; REQUEST_BYTES],
    pub readable: usize,
    pub places: [usize; RESPONSE_BYTES],
    pub writable: usize,
    pub late: bool,
}

impl Gathered {
    // A chain of which nothing is taken yet.
    pub fn begun() -> Gathered
        ensures { result ≡ nothing_yet }
    {
        Gathered {
            request: [0; REQUEST_BYTES],
            readable: 0,
            places: [0; RESPONSE_BYTES],
            writable: 0,
            late: false,
        }
    }

    // Are there fewer bytes than a request or places than a response has?
    pub fn is_short(&self) -> bool
        ensures { result ≡ is_short self.now }
    {
        (self.readable < REQUEST_BYTES) | (self.writable < RESPONSE_BYTES)
    }

    // What an accepted element adds: bytes of the request up to 24, or places for the response up to 10.
    // The hint is the range in which it begins.
    fn add(&mut self, lent: &Lent, hint: usize, d: Descriptor)
        requires in_memory { InMemory (view_of lent.now.guest.view) d.addr.0 d.length }
        requires filled { Filled self.old }
        ensures { self.new ≡ added (place_of lent.now) lent.now.mem.now self.old d }
    {
        if d.is_writable() {
            let from = self.writable;
            let end = from + fitting(RESPONSE_BYTES - from, d.length);
            lent.guest
                .view
                .find_places(hint, d.addr, &mut self.places[from..end]);
            self.writable = end;
            self.late = true;
            return;
        }
        let from = self.readable;
        let end = from + fitting(REQUEST_BYTES - from, d.length);
        lent.guest
            .view
            .read_bytes(lent.mem, hint, d.addr, &mut self.request[from..end]);
        self.readable = end;
        self.late = false;
    }

    // One descriptor: INDIRECT, readable late, 21, and what it adds.
    fn visit(&mut self, lent: &Lent, d: Descriptor) -> Result<(), QueueStop>
        requires { Filled self.old }
        ensures { VisitsIn lent.now d self.old result self.new }
    {
        if d.is_misplaced(self.late) {
            return Err(QueueStop::Chain);
        }
        let there = lent.guest.view.near(lent.hint, d.addr);
        if !lent.guest.reaches(there, d.addr, u64::from(d.length)) {
            return Err(QueueStop::Reach);
        }
        self.add(lent, there, d);
        Ok(())
    }

    // The chain that starts at a head of a table: per descriptor 17, what `visit` says, next or length.
    pub fn gather(
        &mut self,
        lent: &Lent,
        table: GuestAddress,
        size: u16,
        head: u16,
    ) -> Result<(), QueueStop>
        requires begun { self.old ≡ nothing_yet }
        requires table { (table.0 ≤ limit) × (head < size) }
        ensures { GathersIn lent.now table.0 size head result self.new }
    {
        // A loop: each descriptor names the next, and the first that ends the chain leaves it.
        let mut i = head;
        for _passed in 0..size {
            let Some(d) = fetch(lent, table, i) else {
                return Err(QueueStop::Ring);
            };
            self.visit(lent, d)?;
            if !d.has_next() {
                return Ok(());
            }
            if size <= d.next {
                return Err(QueueStop::Chain);
            }
            i = d.next;
        }
        Err(QueueStop::Chain)
    }
}
