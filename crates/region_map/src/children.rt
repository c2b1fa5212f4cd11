// The children of a region in the order in which the walk tries them.
ghost use Rattle.std.specs.Prelude.{◌≡◌, ◌≤◌, ◌<◌};
ghost use Rattle.map_records.specs.Words.{map_of};
ghost use Rattle.map_check.specs.Clash.{priority_of};
ghost use Rattle.region_map.specs.Walk.{rank as rank_of, ranks};
ghost use Rattle.region_map.specs.Promises.{NextChild};

use crate::regions::region_in;
use map_check::checked::CheckedMap;
use map_check::priority::priority_of;
use map_records::map::REGIONS;

// More than every rank of a child.
pub const RANKS: usize = 8192;

// The place of region c among its parent's children: by priority, then by number.
fn rank(map: &CheckedMap, c: usize) -> usize
    requires { c < (map_of map.now).count }
    ensures { result ≡ rank_of priority_of (map_of map.now) c }
{
    let region = region_in(map, c);
    (priority_of(region) as usize) * REGIONS + c
}

// The highest rank below `below` of a child of n.
pub fn next_child(map: &CheckedMap, n: usize, below: usize) -> Option<usize>
    requires { (n < (map_of map.now).count) × (below ≤ ranks) }
    ensures { NextChild (map_of map.now) n below result }
{
    // One more than the highest so far: with an Option here a search for the next child took 4 to 8 % more.
    let mut best: usize = 0;
    // By number, since regions lie as words, of which no iterator of std makes regions.
    for c in 0..n {
        if region_in(map, c).parent == n + 1 {
            let r = rank(map, c);
            if r < below && best <= r {
                best = r + 1;
            }
        }
    }
    best.checked_sub(1)
}
