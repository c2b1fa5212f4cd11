// The regions of a map that the check accepted.
ghost use Rattle.std.specs.Prelude.{◌≡◌, ◌<◌};
ghost use Rattle.map_records.specs.Map.{region};
ghost use Rattle.map_records.specs.Words.{map_of};
ghost use Rattle.map_check.specs.Check.{Checked};

use map_check::checked::CheckedMap;
use map_records::map::Region;
use map_records::words::region_at;

// Region n, where it lies.
pub fn region_in(map: &CheckedMap, n: usize) -> Region
    requires { n < (map_of map.now).count }
    ensures region { result ≡ region (map_of map.now) n }
    ensures checked { Checked map.now }
{
    region_at(map.words(), n)
}
