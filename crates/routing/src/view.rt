// A given flat view: what its list gives an address.
ghost use Rattle.std.specs.Prelude.{◌≡◌};
ghost use Rattle.map_records.specs.Words.{view_of};
ghost use Rattle.routing.specs.Look.{looked_up, looked_by};

use guest_view::place::offset_in;
use guest_view::view::View;
use map_check::answer::RecordFault;
use map_records::map::{Found, GuestAddress};
use map_records::numbers::LIMIT;
use map_records::view::RANGES;

// Given no device, 27 judges no region: no offset reaches the limit.
pub const NO_REGION: u64 = LIMIT;

// What the view gives an address, by halving: the region and the offset in it, or nothing, or 27.
pub fn look_up(
    view: &[u64],
    memory_length: u64,
    address: GuestAddress,
) -> Result<Option<Found>, RecordFault>
    ensures { looked_by result ≡ looked_up (view_of view.now) memory_length address.0 }
{
    let Some(view) = View::new(view, memory_length, NO_REGION) else {
        return Err(RecordFault);
    };
    let at = view.near(RANGES, address);
    if view.count() <= at {
        return Ok(None);
    }
    let range = view.range(at);
    Ok(Some(Found {
        region: range.region,
        offset: offset_in(range, address),
    }))
}
