// The two conversions from an address: to an offset in a range's region, and from there to a memory place.
ghost use Rattle.std.specs.Prelude.{◌≡◌, ◌^◌, ◌≤◌, ◌<◌};
ghost use Rattle.guest_view.specs.Guest.{place_of};
ghost use Rattle.map_records.specs.View.{offset_in};

use map_records::map::{GuestAddress, RegionOffset};
use map_records::view::FlatRange;

// Document 01: 'the entry's node at offset + a - first'.
pub fn offset_in(range: FlatRange, a: GuestAddress) -> RegionOffset
    requires { (range.first.0 ≤ a.0) × (offset_in range a.0 < 2 ^ 64) }
    ensures { result.0 ≡ offset_in range a.0 }
{
    RegionOffset(range.offset.0 + (a.0 - range.first.0))
}

// Document 01: 'memory place = memory start + offset in node'.
pub fn place_of(base: u64, offset: RegionOffset) -> u64
    requires { place_of base offset.0 < 2 ^ 64 }
    ensures { result ≡ place_of base offset.0 }
{
    base + offset.0
}
