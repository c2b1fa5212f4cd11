// The walk of a given map at a guest address.
ghost use Rattle.std.specs.Prelude.{◌≡◌};
ghost use Rattle.map_records.specs.Words.{map_of};
ghost use Rattle.region_map.specs.Resolve.{resolved, led_by};

use crate::walk::walk;
use map_check::check::{MapFault, checked_map};
use map_records::map::{Found, GuestAddress, RegionOffset};

// A guest address is walked from the root: there it is the offset.
pub fn root_offset(address: GuestAddress) -> RegionOffset
    ensures { result.0 ≡ address.0 }
{
    RegionOffset(address.0)
}

// The region that a guest address leads to, in a map that is judged first; at an address that leads to none, nothing.
pub fn resolve_address(
    map: &[u64],
    memory_length: u64,
    address: GuestAddress,
) -> Result<Option<Found>, MapFault>
    ensures { led_by result ≡ resolved (map_of map.now) memory_length address.0 }
{
    let map = checked_map(map, memory_length)?;
    let root = map.count() - 1;
    Ok(walk(&map, root, root_offset(address)))
}
