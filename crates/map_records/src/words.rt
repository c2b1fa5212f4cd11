// Maps and views where they lie: the count, and nine words for each of 32 regions; the count, and six for each of 256
// ranges. Nothing is copied but the one record that is read or written.
ghost use Rattle.std.specs.Prelude.{◌≡◌, ◌+◌, ◌*◌, ◌≤◌, ◌<◌, length, set};
ghost use Rattle.std.proofs.lemmas.List.Edits.{sets};
ghost use Rattle.map_records.specs.Map.{region};
ghost use Rattle.map_records.specs.View.{range_of};
ghost use Rattle.map_records.specs.Words.{map_of, view_of, region_at, range_at, region_words, range_words};
ghost use Rattle.map_records.specs.Limits.{map_length, view_length, region_length, range_length, most_regions, most_ranges};

use crate::map::{GuestAddress, Region, RegionOffset};
use crate::view::FlatRange;

// The words of a map, and of a view.
pub const MAP_WORDS: usize = 289;

pub const VIEW_WORDS: usize = 1537;

pub type MapWords = [u64; MAP_WORDS];

pub type ViewWords = [u64; VIEW_WORDS];

// The words of a region, and of a range.
const REGION_WORDS: usize = 9;

const RANGE_WORDS: usize = 6;

// How many regions a map has.
pub fn region_count(map: &MapWords) -> usize
    ensures { result ≡ (map_of map.now).count }
{
    map[0] as usize
}

// The region whose words begin at a place.
fn region_from(map: &[u64], at: usize) -> Region
    requires { at + region_length ≤ length map.now }
    ensures { result ≡ region_at map.now at }
{
    Region {
        kind: map[at],
        parent: map[at + 1] as usize,
        offset: map[at + 2],
        size: map[at + 3],
        priority: map[at + 4],
        memory_start: map[at + 5],
        port: map[at + 6],
        target: map[at + 7] as usize,
        alias_offset: map[at + 8],
    }
}

pub fn region_at(map: &MapWords, n: usize) -> Region
    requires { n < most_regions }
    ensures { result ≡ region (map_of map.now) n }
{
    region_from(map, 1 + REGION_WORDS * n)
}

pub fn put_region_count(map: &mut MapWords, n: usize)
    ensures { map.new ≡ set map.old 0 n }
{
    map[0] = n as u64;
}

pub fn put_region(map: &mut MapWords, n: usize, region: Region)
    requires { n < most_regions }
    ensures { map.new ≡ sets map.old (1 + region_length * n) (region_words region) }
{
    let at = 1 + REGION_WORDS * n;
    map[at] = region.kind;
    map[at + 1] = region.parent as u64;
    map[at + 2] = region.offset;
    map[at + 3] = region.size;
    map[at + 4] = region.priority;
    map[at + 5] = region.memory_start;
    map[at + 6] = region.port;
    map[at + 7] = region.target as u64;
    map[at + 8] = region.alias_offset;
}

// How many ranges a view has.
pub fn count_of(view: &ViewWords) -> usize
    ensures { result ≡ (view_of view.now).count }
{
    view[0] as usize
}

pub fn put_count(view: &mut ViewWords, n: usize)
    ensures { view.new ≡ set view.old 0 n }
{
    view[0] = n as u64;
}

// The range whose words begin at a place.
fn range_from(view: &[u64], at: usize) -> FlatRange
    requires { at + range_length ≤ length view.now }
    ensures { result ≡ range_at view.now at }
{
    FlatRange {
        first: GuestAddress(view[at]),
        last: GuestAddress(view[at + 1]),
        region: view[at + 2] as usize,
        offset: RegionOffset(view[at + 3]),
        kind: view[at + 4],
        base: view[at + 5],
    }
}

pub fn range_at(view: &ViewWords, k: usize) -> FlatRange
    requires { k < most_ranges }
    ensures { result ≡ range_of (view_of view.now) k }
{
    range_from(view, 1 + RANGE_WORDS * k)
}

pub fn put_range(view: &mut ViewWords, k: usize, range: FlatRange)
    requires { k < most_ranges }
    ensures { view.new ≡ sets view.old (1 + range_length * k) (range_words range) }
{
    let at = 1 + RANGE_WORDS * k;
    view[at] = range.first.0;
    view[at + 1] = range.last.0;
    view[at + 2] = range.region as u64;
    view[at + 3] = range.offset.0;
    view[at + 4] = range.kind;
    view[at + 5] = range.base;
}
