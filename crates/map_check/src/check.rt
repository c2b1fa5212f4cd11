// The check of a given map.
ghost use Rattle.std.specs.Prelude.{◌≡◌, IfOk, OnOk};
ghost use Rattle.map_records.specs.Words.{map_of};
ghost use Rattle.map_check.specs.Check.{fault_reply, reply, judged, Accepted};
ghost use Rattle.map_check.specs.Promises.{on_regions, on_pairs};

use crate::answer::Fault;
use crate::checked::CheckedMap;
use crate::clash::{managed_clash, memory_clash, port_clash, sibling_clash};
use crate::counted::CountedMap;
use crate::fault::{field_fault, kind_fault, link_fault, memory_fault};
use crate::search::{first_pair, lowest_fault};
use map_records::refusal::Refusal;

// The refusal of document 01 with its nodes: 3, 4 and 6 to 11.
#[derive(Clone, Copy, Debug, PartialEq, Eq)]
pub enum MapFault {
    Count,
    Kind(usize),
    Field(usize),
    Link(usize),
    Memory(usize, usize),
    Managed(usize, usize),
    Port(usize, usize),
    Overlap(usize, usize),
}

impl Fault for MapFault {
    ghost reply = { fault_reply };

    fn refusal(self) -> Refusal {
        match self {
            MapFault::Count => Refusal::Count,
            MapFault::Kind(_) => Refusal::Kind,
            MapFault::Field(_) => Refusal::Field,
            MapFault::Link(_) => Refusal::Link,
            MapFault::Memory(_, _) => Refusal::Memory,
            MapFault::Managed(_, _) => Refusal::Managed,
            MapFault::Port(_, _) => Refusal::Port,
            MapFault::Overlap(_, _) => Refusal::Overlap,
        }
    }
}

// The rules over one region: 4, 6, 7, and 8's ends past the memory.
fn check_regions(map: &CountedMap, memory_length: u64) -> Result<(), MapFault>
    ensures { reply result ≡ on_regions (map_of map.now) memory_length }
{
    let count = map.count();
    if let Some(n) = lowest_fault(count, |n| kind_fault(map.region(n))) {
        return Err(MapFault::Kind(n));
    }
    if let Some(n) = lowest_fault(count, |n| field_fault(map.region(n))) {
        return Err(MapFault::Field(n));
    }
    if let Some(n) = lowest_fault(count, |n| link_fault(map, n)) {
        return Err(MapFault::Link(n));
    }
    if let Some(n) = lowest_fault(count, |n| memory_fault(memory_length, map.region(n))) {
        return Err(MapFault::Memory(n, n));
    }
    Ok(())
}

// The rules over two regions: 8's shared bytes, and 9 to 11.
fn check_pairs(map: &CountedMap) -> Result<(), MapFault>
    ensures { reply result ≡ on_pairs (map_of map.now) }
{
    if let Some((i, j)) = first_pair(map, memory_clash) {
        return Err(MapFault::Memory(i, j));
    }
    if let Some((i, j)) = first_pair(map, managed_clash) {
        return Err(MapFault::Managed(i, j));
    }
    if let Some((i, j)) = first_pair(map, port_clash) {
        return Err(MapFault::Port(i, j));
    }
    if let Some((i, j)) = first_pair(map, |a, b| sibling_clash(map, a, b)) {
        return Err(MapFault::Overlap(i, j));
    }
    Ok(())
}

// Judges a map against the length of guest memory. Words of another number than a map's are a map of no regions.
pub fn check_map(map: &[u64], memory_length: u64) -> Result<(), MapFault>
    ensures reply { reply result ≡ judged (map_of map.now) memory_length }
    ensures accepted { OnOk result (Accepted (map_of map.now) memory_length) }
{
    checked_map(map, memory_length)?;
    Ok(())
}

// The same, for a caller that goes on with the map: an accepted one is lent back as words that the check accepted.
pub fn checked_map<'a>(map: &'a [u64], memory_length: u64) -> Result<CheckedMap<'a>, MapFault>
    ensures reply { reply result ≡ judged (map_of map.now) memory_length }
    ensures same { IfOk result (λ checked. (checked ≡ map.now) × Accepted (map_of map.now) memory_length) }
{
    let Some(counted) = CountedMap::new(map) else {
        return Err(MapFault::Count);
    };
    check_regions(&counted, memory_length)?;
    check_pairs(&counted)?;
    Ok(counted.accepted())
}
