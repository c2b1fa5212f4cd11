// Routing of guest accesses, one and many.
ghost use Rattle.std.specs.Prelude.{◌≡◌, true, [], ◌∷◌, option_map, ◌+◌, ◌*◌, ◌≤◌, ◌<◌, length};
ghost use Rattle.std.proofs.lemmas.List.Edits.{sets};
ghost use Rattle.device_words.specs.Table.{all_below};
ghost use Rattle.device_words.specs.Device.{plugged_in};
ghost use Rattle.device_words.specs.Words.{device_of};
ghost use Rattle.map_records.specs.Words.{view_of};
ghost use Rattle.map_records.specs.Limits.{limit};
ghost use Rattle.guest_view.specs.Promises.{Spot};
ghost use Rattle.routing.specs.Route.{width_ok, routed_by, routed_given, all_given, all_number, RoutesAll};
ghost use Rattle.routing.specs.Route.{answer_words, answers_of, answers_fit};
ghost use Rattle.routing.specs.Promises.{is_whole, routed_in, Asked};

use crate::answer::{Route, RouteFault};
use crate::view::NO_REGION;
use device_words::rules::valid;
use device_words::table::TABLE_WORDS;
use device_words::words::{block_size, plugged, region_size};
use guest_view::place::{offset_in, place_of};
use guest_view::reach::{Blocks, Guest};
use guest_view::view::View;
use map_check::answer::{Fault, RecordFault};
use map_records::kind::Kind;
use map_records::map::{GuestAddress, RegionOffset};

// Given no device, no block is plugged: a table of zeros, over blocks of any size.
const ANY_BLOCK_SIZE: u64 = 4096;

fn width_ok(w: u64) -> bool
    ensures { result ≡ width_ok w }
{
    (w == 1) | (w == 2) | (w == 4) | (w == 8)
}

// Is each later byte the same region at the next offset? Byte by byte, for an access across an edge.
fn bytes_follow(view: &View, at: usize, a: GuestAddress, w: u64) -> bool
    requires spot { Spot (view_of view.now) a.0 at }
    requires at_bound { (at < (view_of view.now).count) × (0 < w) × (w ≤ 8) }
    ensures { result ≡ is_whole view.now a.0 w }
{
    let range = view.range(at);
    let offset = offset_in(range, a);
    // At most seven numbers, and the first byte that does not follow ends it.
    for i in 1..w {
        let b = GuestAddress(a.0 + i);
        let here = view.near(at, b);
        if view.count() <= here {
            return false;
        }
        let other = view.range(here);
        let there = offset_in(other, b);
        if !((other.region == range.region) & (there.0 == offset.0 + i)) {
            return false;
        }
    }
    true
}

// In one range it is.
fn is_whole(view: &View, at: usize, a: GuestAddress, w: u64) -> bool
    requires spot { Spot (view_of view.now) a.0 at }
    requires at_bound { (at < (view_of view.now).count) × (0 < w) × (w ≤ 8) }
    ensures { result ≡ is_whole view.now a.0 w }
{
    let range = view.range(at);
    if w - 1 <= range.last.0 - a.0 {
        return true;
    }
    bytes_follow(view, at, a, w)
}

// Are the blocks of an access plugged? They are at most two, since no block is shorter than it.
fn blocks_plugged(blocks: &Blocks, offset: RegionOffset, w: u64) -> bool
    requires le_block { 8 ≤ blocks.now.size }
    requires w_nonzero { (0 < w) × (w ≤ 8) × (offset.0 < limit) }
    ensures { result ≡ all_below (λ i. plugged_in blocks.now.size blocks.now.plugged.now (offset.0 + i)) w }
{
    if !blocks.byte_plugged(offset) {
        return false;
    }
    if w - 1 <= blocks.size - 1 - offset.0 % blocks.size {
        return true;
    }
    let last = RegionOffset(offset.0 + (w - 1));
    blocks.byte_plugged(last)
}

// An access over a view that was judged, with what the search for its first byte gave.
fn route_at(guest: &Guest, at: usize, a: GuestAddress, w: u64) -> Result<Route, RouteFault>
    requires le_block { 8 ≤ guest.now.blocks.size }
    requires spot { Spot (view_of guest.now.view) a.0 at }
    ensures { routed_by result
        ≡ routed_in guest.now.view guest.now.blocks.size guest.now.blocks.plugged.now a.0 w }
{
    if !width_ok(w) {
        return Err(RouteFault::Width);
    }
    if guest.view.count() <= at {
        return Err(RouteFault::Hole);
    }
    if !is_whole(&guest.view, at, a, w) {
        return Err(RouteFault::Split);
    }
    let range = guest.view.range(at);
    let offset = offset_in(range, a);
    if range.has_kind(Kind::Managed) {
        if !blocks_plugged(&guest.blocks, offset, w) {
            return Err(RouteFault::Unplugged);
        }
    }
    if range.has_kind(Kind::Ram) | range.has_kind(Kind::Managed) {
        let place = place_of(range.base, offset);
        return Ok(Route::Memory(place));
    }
    if range.has_kind(Kind::Mmio) {
        return Ok(Route::Port(range.base, offset));
    }
    // 27 has refused a view with any other kind.
    Err(RouteFault::Record)
}

// What to ask, after 27. A slice of another length is no device's record, 27 too. Without a device every block
// counts as unplugged, and 27 judges no region.
fn judged_guest<'v, 'd>(
    view: &'v [u64],
    memory_length: u64,
    device: Option<&'d [u64]>,
) -> Result<Guest<'v, 'd>, RecordFault>
    ensures { Asked view.now memory_length (option_map (λ d. device_of d.now) device.entry) result }
{
    let Some(device) = device else {
        let Some(view) = View::new(view, memory_length, NO_REGION) else {
            return Err(RecordFault);
        };
        let blocks = Blocks {
            size: ANY_BLOCK_SIZE,
            plugged: &[0; TABLE_WORDS],
        };
        return Ok(Guest { view, blocks });
    };
    let Some(device) = valid(device) else {
        return Err(RecordFault);
    };
    let Some(view) = View::new(view, memory_length, region_size(device)) else {
        return Err(RecordFault);
    };
    let blocks = Blocks {
        size: block_size(device),
        plugged: plugged(device),
    };
    Ok(Guest { view, blocks })
}

// An access with a device or without one.
pub fn route(
    view: &[u64],
    memory_length: u64,
    device: Option<&[u64]>,
    address: GuestAddress,
    width: u64,
) -> Result<Route, RouteFault>
    ensures { routed_by result
        ≡ routed_given (view_of view.now) memory_length
        (option_map (λ d. device_of d.now) device.entry) address.0 width }
{
    let guest = judged_guest(view, memory_length, device)?;
    let at = guest.view.near(0, address);
    route_at(&guest, at, address, width)
}

fn put_four(words: &mut [u64], at: usize, a: u64, b: u64, c: u64, d: u64)
    requires { at + 4 ≤ length words.old }
    ensures { words.new ≡ sets words.old at (a ∷ b ∷ c ∷ d ∷ []) }
{
    words[at] = a;
    words[at + 1] = b;
    words[at + 2] = c;
    words[at + 3] = d;
}

// An answer's four words at the place of access i. They are stored one by one: an array that is laid over them by
// `copy_from_slice` adds 17 instructions to an access, and one that is taken apart adds 4.
fn put_answer(answers: &mut [u64], i: usize, answer: Result<Route, RouteFault>)
    requires { 4 * i + 4 ≤ length answers.old }
    ensures { answers.new ≡ sets answers.old (4 * i) (answer_words (routed_by answer)) }
{
    let at = 4 * i;
    match answer {
        Ok(Route::Memory(place)) => put_four(answers, at, 0, 1, place, 0),
        Ok(Route::Port(port, offset)) => put_four(answers, at, 0, 2, port, offset.0),
        Err(fault) => put_four(answers, at, u64::from(fault.refusal().number()), 0, 0, 0),
    }
}

// Each access in turn, over a view that was judged. The range of the one before is tried first.
fn routes_judged(guest: &Guest, accesses: &[u64], answers: &mut [u64])
    requires le_block { 8 ≤ guest.now.blocks.size }
    requires answers_value { answers_fit accesses.now answers.old ≡ true }
    ensures { answers.new
        ≡ answers_of (routed_in guest.now.view guest.now.blocks.size guest.now.blocks.plugged.now) accesses.now }
{
    let (pairs, _) = accesses.as_chunks::<2>();
    let mut at: usize = 0;
    for (i, access) in pairs.iter().enumerate() {
        let a = GuestAddress(access[0]);
        at = guest.view.near(at, a);
        let answer = route_at(guest, at, a, access[1]);
        put_answer(answers, i, answer);
    }
}

// Do the answers have four words for each two of the accesses?
fn answers_fit(accesses: &[u64], answers: &[u64]) -> bool
    ensures { result ≡ answers_fit accesses.now answers.now }
{
    (accesses.len() % 2 == 0) & (answers.len() % 2 == 0) & (answers.len() / 2 == accesses.len())
}

// Many accesses, for which the records are judged once. Words that do not fit are 27.
pub fn route_all(
    view: &[u64],
    memory_length: u64,
    device: Option<&[u64]>,
    accesses: &[u64],
    answers: &mut [u64],
) -> Result<(), RecordFault>
    ensures { RoutesAll
        (all_given (view_of view.now) memory_length
        (option_map (λ d. device_of d.now) device.entry) accesses.now answers.old)
        (all_number result) answers.new }
{
    let guest = judged_guest(view, memory_length, device)?;
    if !answers_fit(accesses, answers) {
        return Err(RecordFault);
    }
    routes_judged(&guest, accesses, answers);
    Ok(())
}
