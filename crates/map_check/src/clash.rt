// The rules of document 01 over two regions.
ghost use Rattle.std.specs.Prelude.{◌≡◌};
ghost use Rattle.map_records.specs.Map.{region};
ghost use Rattle.map_records.specs.Words.{map_of};
ghost use Rattle.map_check.specs.Clash.{share as share_of, siblings as siblings_of};
ghost use Rattle.map_check.specs.Clash.{priority_of, memory_clash, managed_clash, port_clash, clash_below};
ghost use Rattle.map_check.specs.Fault.{parent_of};

use crate::counted::CountedMap;
use crate::priority::priority_of;
use map_records::kind::Kind;
use map_records::map::{Region, has_memory};

// Do [a, a + s) and [b, b + t) share a number? No sum is taken, so none wraps.
fn share(a: u64, s: u64, b: u64, t: u64) -> bool
    ensures { result ≡ share_of a s b t }
{
    if a < b {
        return b - a < s && 0 < t;
    }
    0 < s && a - b < t
}

// 8: their bytes in guest memory.
pub fn memory_clash(a: Region, b: Region) -> bool
    ensures { result ≡ memory_clash a b }
{
    has_memory(a.kind)
        && has_memory(b.kind)
        && share(a.memory_start, a.size, b.memory_start, b.size)
}

// 9.
pub fn managed_clash(a: Region, b: Region) -> bool
    ensures { result ≡ managed_clash a b }
{
    a.has_kind(Kind::Managed) && b.has_kind(Kind::Managed)
}

// 10.
pub fn port_clash(a: Region, b: Region) -> bool
    ensures { result ≡ port_clash a b }
{
    a.has_kind(Kind::Mmio) && b.has_kind(Kind::Mmio) && a.port == b.port
}

fn siblings(a: Region, b: Region) -> bool
    ensures { result ≡ siblings_of a b }
{
    a.parent != 0 && a.parent == b.parent
}

// The number of a region's parent; 0 where it has none.
fn parent_of(r: Region) -> usize
    ensures { result ≡ parent_of r }
{
    r.parent.saturating_sub(1)
}

// 11. The lowest address that two children share is the larger of their offsets. Only those below their parent's size
// are ever asked of them.
#[tactic(auto, using(crate::proofs::ClashLaws::clash_offsets))]
pub fn sibling_clash(map: &CountedMap, a: Region, b: Region) -> bool
    ensures { result ≡ clash_below priority_of (region (map_of map.now) (parent_of a)).size a b }
{
    let end = map.size_of(parent_of(a));
    let below = a.offset < end && b.offset < end;
    let shared = share(a.offset, a.size, b.offset, b.size) && below;
    siblings(a, b) && priority_of(a) == priority_of(b) && shared
}
