// What a region's priority field stands for.
ghost use Rattle.std.specs.Prelude.{◌≡◌};
ghost use Rattle.map_check.specs.Clash.{priority_of};

use map_records::kind::Kind;
use map_records::map::Region;

// The priority + 128. Field 0 stands for -1 at an MMIO region and for 0 at any other.
pub fn priority_of(r: Region) -> u64
    ensures { result ≡ priority_of r }
{
    if r.priority != 0 {
        return r.priority;
    }
    if r.has_kind(Kind::Mmio) { 127 } else { 128 }
}
