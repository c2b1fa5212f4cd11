// 27 for a given flat view.
ghost use Rattle.std.specs.Prelude.{◌≡◌, ◌&&◌, ◌<◌};
ghost use Rattle.map_records.specs.View.{range_of, last_offset};
ghost use Rattle.map_records.specs.Words.{view_of};
ghost use Rattle.guest_view.specs.View.{kind_ok, memory_ok, managed_ok, range_ok, pairs_ok, view_ok};
ghost use Rattle.guest_view.specs.Promises.{Owner, Ascends};
ghost use Rattle.map_records.specs.Limits.{limit, most_ranges};

use crate::place::offset_in;
use map_records::kind::Kind;
use map_records::map::REGIONS;
use map_records::numbers::{LIMIT, sum_within};
use map_records::view::{FlatRange, RANGES};
use map_records::words::{ViewWords, count_of, range_at};

// The kind of a range, whose last offset is `there`, and where its bytes lie.
fn backing_ok(range: FlatRange, there: u64, memory: u64, region: u64) -> bool
    requires { (there ≡ last_offset range) × (there < limit) }
    ensures { result ≡ (kind_ok range && (memory_ok memory range && managed_ok region range)) }
{
    if range.has_kind(Kind::Managed) {
        if region <= there {
            return false;
        }
    }
    if range.has_kind(Kind::Ram) | range.has_kind(Kind::Managed) {
        return sum_within(range.base, there + 1, memory);
    }
    range.has_kind(Kind::Mmio)
}

// One range by itself.
fn range_ok(range: FlatRange, memory: u64, region: u64) -> bool
    ensures { result ≡ range_ok memory region range }
{
    if range.last.0 < range.first.0 {
        return false;
    }
    if LIMIT <= range.last.0 {
        return false;
    }
    if LIMIT <= range.offset.0 {
        return false;
    }
    let there = offset_in(range, range.last);
    if LIMIT <= there.0 {
        return false;
    }
    if REGIONS <= range.region {
        return false;
    }
    backing_ok(range, there.0, memory, region)
}

// Range k with those before it, of which the last and the first of its region stand for all: `first` is 1 + that one's
// number, or 0 where there is none.
fn pairs_ok(view: &ViewWords, range: FlatRange, first: usize, k: usize) -> bool
    requires k_lt_most_ranges { (k < most_ranges) × (range ≡ range_of (view_of view.now) k) }
    requires owner { Owner (view_of view.now) k range.region first × Ascends (view_of view.now) k }
    ensures { result ≡ pairs_ok (view_of view.now) k }
{
    if k == 0 {
        return true;
    }
    let before = range_at(view, k - 1);
    if range.first.0 <= before.last.0 {
        return false;
    }
    if first == 0 {
        return true;
    }
    let other = range_at(view, first - 1);
    (other.kind == range.kind) & (other.base == range.base)
}

// Do as many words as a view has keep 27's rules, over a memory and a managed region of these lengths?
pub fn words_ok(view: &ViewWords, memory: u64, region: u64) -> bool
    ensures { result ≡ view_ok (view_of view.now) memory region }
{
    let count = count_of(view);
    if RANGES < count {
        return false;
    }
    // Of each region 1 + the number of its first range, 0 for none: an Option for each would be twice the bytes to clear.
    let mut owner = [0usize; REGIONS];
    // By number, since ranges lie as words.
    for k in 0..count {
        let range = range_at(view, k);
        if !range_ok(range, memory, region) {
            return false;
        }
        let n = range.region;
        let first = owner[n];
        if !pairs_ok(view, range, first, k) {
            return false;
        }
        if first == 0 {
            owner[n] = k + 1;
        }
    }
    true
}

// Does a given view keep 27's rules, over a memory and a managed region of these lengths? Words of another number do not.
pub fn view_ok(view: &[u64], memory: u64, region: u64) -> bool
    ensures { result ≡ view_ok (view_of view.now) memory region }
{
    match view.as_array() {
        Some(words) => words_ok(words, memory, region),
        None => false,
    }
}
