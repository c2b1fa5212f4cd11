// The rules of document 01 over one region.
ghost use Rattle.std.specs.Prelude.{◌≡◌, ◌<◌, ◌+◌};
ghost use Rattle.map_records.specs.Words.{map_of};
ghost use Rattle.map_check.specs.Fault.{extra as extra_of, kind_fault, field_fault, parent_fault, target_fault, root_fault, link_fault, memory_fault};

use crate::counted::CountedMap;
use map_records::kind::Kind;
use map_records::map::{Field, Region, has, has_memory};
use map_records::numbers::{LIMIT, MOST_IN_BYTE, sum_within};

// 4.
pub fn kind_fault(r: Region) -> bool
    ensures { result ≡ kind_fault r.kind }
{
    Kind::try_from(r.kind).is_err()
}

// Has a region a value in a field that its kind lacks?
fn extra(r: Region, field: Field) -> bool
    ensures { result ≡ extra_of r field }
{
    !has(r.kind, field) && r.value_of(field) != 0
}

// 6.
pub fn field_fault(r: Region) -> bool
    ensures { result ≡ field_fault r }
{
    let large = LIMIT < r.offset || LIMIT < r.alias_offset || LIMIT < r.memory_start;
    let range = r.size == 0 || LIMIT < r.size || MOST_IN_BYTE < r.priority || MOST_IN_BYTE < r.port;
    let more = extra(r, Field::MemoryStart)
        || extra(r, Field::Port)
        || extra(r, Field::Target)
        || extra(r, Field::AliasOffset);
    large || range || more
}

#[tactic(auto, unfolding(crate::specs::Fault::parent_fault))]
fn parent_fault(map: &CountedMap, n: usize) -> bool
    requires { n < (map_of map.now).count }
    ensures { result ≡ parent_fault (map_of map.now) n }
{
    let count = map.count();
    let Some(parent) = map.region(n).parent.checked_sub(1) else {
        return false;
    };
    if parent <= n || count <= parent {
        return true;
    }
    let above = map.region(parent);
    above.has_kind(Kind::Alias) || above.has_kind(Kind::Managed)
}

fn target_fault(r: Region, n: usize) -> bool
    ensures { result ≡ target_fault r n }
{
    r.has_kind(Kind::Alias) && n <= r.target
}

fn root_fault(r: Region) -> bool
    ensures { result ≡ root_fault r }
{
    !r.has_kind(Kind::Container) || r.parent != 0 || r.offset != 0
}

// 7.
#[tactic(auto, unfolding(crate::specs::Fault::link_fault))]
pub fn link_fault(map: &CountedMap, n: usize) -> bool
    requires { n < (map_of map.now).count }
    ensures { result ≡ link_fault (map_of map.now) n }
{
    let count = map.count();
    let last = n + 1 == count;
    let r = map.region(n);
    parent_fault(map, n) || target_fault(r, n) || last && root_fault(r)
}

// 8: its end past the memory.
pub fn memory_fault(memory_length: u64, r: Region) -> bool
    ensures { result ≡ memory_fault memory_length r }
{
    has_memory(r.kind) && !sum_within(r.memory_start, r.size, memory_length)
}
