// The searches over regions and over pairs of them.
ghost use Rattle.std.specs.Prelude.{ℕ, Bool, ◌<◌};
ghost use Rattle.map_records.specs.Words.{map_of};
ghost use Rattle.map_records.specs.declared.map.Region.{Region};
ghost use Rattle.map_check.specs.Promises.{Tests, TestsPairs, pairs, LowestIs, FirstIs};

use crate::counted::CountedMap;
use map_records::map::Region;

// The lowest region below the count that is at fault.
pub fn lowest_fault<F: Fn(usize) -> bool>(count: usize, at_fault: F) -> Option<usize>
    requires { (n : ℕ) → n < count → F.pre at_fault n }
    ensures { (rule : ℕ → Bool) → Tests count rule (F.post at_fault) → LowestIs rule count result }
{
    (0..count).find(
        |&n|
            requires { F.pre at_fault n }
        { at_fault(n) },
    )
}

// The first two regions that clash, in ascending order, lower number first. Document 01 names the form of the search: two
// nested loops over region numbers, left together by a label with the pair found.
pub fn first_pair<F: Fn(Region, Region) -> bool>(
    map: &CountedMap,
    clashes: F,
) -> Option<(usize, usize)>
    requires { F.IsAlwaysCallable clashes }
    ensures { (rule : Region → Region → Bool) → TestsPairs rule (F.post clashes) → FirstIs (pairs (map_of map.now) rule) (map_of map.now).count result }
{
    let count = map.count();
    'search: {
        for i in 0..count {
            let region = map.region(i);
            for j in i + 1..count {
                if clashes(region, map.region(j)) {
                    break 'search Some((i, j));
                }
            }
        }
        None
    }
}
