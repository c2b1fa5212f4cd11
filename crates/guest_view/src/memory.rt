// Bytes of the guest's memory, through a view. Where they lie side by side, in one range, they are read by one plain loop;
// byte by byte only across an edge.
ghost use Rattle.std.specs.Prelude.{◌≡◌, ℕ, map, ◌+◌, ◌^◌, ◌≤◌, ◌<◌, length};
ghost use Rattle.map_records.specs.Words.{view_of};
ghost use Rattle.guest_view.specs.Guest.{addresses, byte_at, number_at, written};
ghost use Rattle.guest_view.specs.Promises.{Backed, InMemory, Runs, Within, Makes, number_in, place_in, bytes_in, places_in};

use crate::place::{offset_in, place_of};
use crate::view::View;
use device_words::bytes::number_at;
use map_records::map::GuestAddress;

// A byte's memory place, and how many bytes after it follow it there.
#[derive(Clone, Copy)]
struct Stretch {
    place: usize,
    left: u64,
}

// What is made of the places of bytes side by side, one after the other.
fn fill_together<T: Copy, F: Fn(usize) -> T>(place: usize, out: &mut [T], make: F)
    requires room { place + length out.old ≤ 2 ^ 64 }
    requires callable { (i : ℕ) → i < length out.old → F.pre make (place + i) }
    ensures { (g : ℕ → T) → Makes F.pre F.post make g → out.new ≡ map g (addresses place (length out.old)) }
{
    for (i, out) in out.iter_mut().enumerate() {
        *out = make(place + i);
    }
}

// The little-endian number of bytes side by side.
pub fn number_from(mem: &[u8], place: usize, bytes: u64) -> u64
    requires { (place + bytes ≤ length mem.now) × (bytes ≤ 8) }
    ensures { (result ≡ number_at (λ a. a) mem.now place bytes) × (result < 256 ^ bytes) }
{
    number_at(mem, place, bytes as usize)
}

impl View<'_> {
    // From an address on, as far as its range goes. The hint's range is tried first.
    fn stretch_at(&self, hint: usize, a: GuestAddress) -> Stretch
        requires in_memory { InMemory (view_of self.now) a.0 1 }
        ensures { Runs (view_of self.now) a.0 result.place result.left }
    {
        let at = self.near(hint, a);
        let range = self.range(at);
        let offset = offset_in(range, a);
        let place = place_of(range.base, offset);
        Stretch {
            place: place as usize,
            left: range.last.0 - a.0,
        }
    }

    // The same of bytes that may lie apart.
    fn fill_apart<T: Copy, F: Fn(usize) -> T>(&self, addr: GuestAddress, out: &mut [T], make: F)
        requires in_memory { InMemory (view_of self.now) addr.0 (length out.old) }
        requires callable { (i : ℕ) → i < length out.old → F.pre make (place_in (view_of self.now) (addr.0 + i)) }
        ensures { (g : ℕ → T) → Makes F.pre F.post make g
            → out.new ≡ map (λ a. g (place_in (view_of self.now) a)) (addresses addr.0 (length out.old)) }
    {
        // That no address of the memory wraps is known of the view's words.
        let _ = &self.words;
        for (i, out) in out.iter_mut().enumerate() {
            let here = self.stretch_at(0, GuestAddress(addr.0 + i as u64));
            *out = make(here.place);
        }
    }

    // What is made of the memory places of the bytes from an address on, as many as are asked for.
    fn fill<T: Copy, F: Fn(usize) -> T>(
        &self,
        hint: usize,
        addr: GuestAddress,
        out: &mut [T],
        make: F,
    )
        requires in_memory { InMemory (view_of self.now) addr.0 (length out.old) }
        requires callable { (i : ℕ) → i < length out.old → F.pre make (place_in (view_of self.now) (addr.0 + i)) }
        ensures { (g : ℕ → T) → Makes F.pre F.post make g
            → out.new ≡ map (λ a. g (place_in (view_of self.now) a)) (addresses addr.0 (length out.old)) }
    {
        // That no address of the memory wraps is known of the view's words.
        let _ = &self.words;
        let count = out.len();
        if count == 0 {
            return;
        }
        let here = self.stretch_at(hint, addr);
        if (count - 1) as u64 <= here.left {
            fill_together(here.place, out, make);
            return;
        }
        self.fill_apart(addr, out, make);
    }

    // The same of bytes that may lie apart.
    fn number_apart(&self, mem: &[u8], addr: GuestAddress, bytes: u64) -> u64
        requires backed { Backed (view_of self.now) (length mem.now) }
        requires in_memory { InMemory (view_of self.now) addr.0 bytes }
        requires bytes_bound { bytes ≤ 8 }
        ensures { (result ≡ number_in self.now mem.now addr.0 bytes) × (result < 256 ^ bytes) }
    {
        let mut eight = [0u8; 8];
        let apart = &mut eight[..bytes as usize];
        self.fill_apart(addr, apart, |place| mem[place]);
        number_from(apart, 0, bytes)
    }

    // The little-endian number of up to eight bytes, of which there is one at least.
    pub fn read_number(&self, mem: &[u8], hint: usize, addr: GuestAddress, bytes: u64) -> u64
        requires backed { Backed (view_of self.now) (length mem.now) }
        requires in_memory { InMemory (view_of self.now) addr.0 bytes }
        requires bytes_nonzero { (0 < bytes) × (bytes ≤ 8) }
        ensures { (result ≡ number_in self.now mem.now addr.0 bytes) × (result < 256 ^ bytes) }
    {
        let here = self.stretch_at(hint, addr);
        if bytes - 1 <= here.left {
            return number_from(mem, here.place, bytes);
        }
        self.number_apart(mem, addr, bytes)
    }

    // The bytes from an address on, as many as are asked for.
    pub fn read_bytes(&self, mem: &[u8], hint: usize, addr: GuestAddress, out: &mut [u8])
        requires backed { Backed (view_of self.now) (length mem.now) }
        requires in_memory { InMemory (view_of self.now) addr.0 (length out.old) }
        ensures { out.new ≡ bytes_in self.now mem.now addr.0 (length out.old) }
    {
        self.fill(hint, addr, out, |place| mem[place]);
    }

    // The memory places of the bytes from an address on, as many as are asked for.
    pub fn find_places(&self, hint: usize, addr: GuestAddress, out: &mut [usize])
        requires in_memory { InMemory (view_of self.now) addr.0 (length out.old) }
        ensures { out.new ≡ places_in self.now addr.0 (length out.old) }
    {
        self.fill(hint, addr, out, |place| place);
    }
}

// Bytes written at places, one after the other.
pub fn write_bytes(mem: &mut [u8], places: &[usize], bytes: &[u8])
    requires within { Within places.now (length mem.old) }
    requires places_len { length places.now ≡ length bytes.now }
    ensures { mem.new ≡ written mem.old places.now bytes.now }
{
    for (i, place) in places.iter().enumerate() {
        mem[*place] = bytes[i];
    }
}
