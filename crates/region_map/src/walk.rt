// The walk through the tree. Walking a region and trying its remaining children are two functions
// that call each other: the pair of region number and children left falls.
ghost use Rattle.std.specs.Prelude.{◌≡◌, ◌≤◌, ◌<◌};
ghost use Rattle.region_map.specs.Walk.{walk as walk_of, ranks};
ghost use Rattle.map_records.specs.Words.{map_of};
ghost use Rattle.region_map.specs.Promises.{tried_in};

use crate::children::{RANKS, next_child};
use crate::regions::region_in;
use map_check::checked::CheckedMap;
use map_records::kind::Kind;
use map_records::map::{Found, REGIONS, RegionOffset};

// Region n at an offset inside it.
#[cycle(walk_walk_children)]
pub fn walk(map: &CheckedMap, n: usize, at: RegionOffset) -> Option<Found>
    requires { n < (map_of map.now).count }
    ensures { result ≡ walk_of (map_of map.now) n at.0 }
{
    let a = at.0;
    let region = region_in(map, n);
    if region.size <= a {
        return None;
    }
    if region.has_kind(Kind::Alias) {
        return walk(map, region.target, RegionOffset(a + region.alias_offset));
    }
    walk_children(map, n, at, RANKS)
}

// The children of n whose ranks are below `below`, highest first, and then n itself.
#[cycle(walk_walk_children)]
fn walk_children(map: &CheckedMap, n: usize, at: RegionOffset, below: usize) -> Option<Found>
    requires { (n < (map_of map.now).count) × (below ≤ ranks) }
    ensures { result ≡ tried_in (map_of map.now) n below at.0 }
{
    let Some(next) = next_child(map, n, below) else {
        if region_in(map, n).has_kind(Kind::Container) {
            return None;
        }
        return Some(Found {
            region: n,
            offset: at,
        });
    };
    let c = next % REGIONS;
    let a = at.0;
    let child = region_in(map, c);
    if a < child.offset {
        return walk_children(map, n, at, next);
    }
    let answer = walk(map, c, RegionOffset(a - child.offset));
    match answer {
        Some(_) => answer,
        None => walk_children(map, n, at, next),
    }
}
