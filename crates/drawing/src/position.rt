// Where guest addresses lie to a region, by the offsets of the regions above it.
ghost use Rattle.std.specs.Prelude.{◌≡◌, ◌<◌};
ghost use Rattle.map_records.specs.Words.{map_of};
ghost use Rattle.drawing.specs.Position.{entered, located};

use crate::map::DrawnMap;
use map_records::map::{GuestAddress, Region, RegionOffset};
use region_map::resolve::root_offset;

// Inside the region from an offset up to another; outside it or a region above it; or the region is
// aside: the root does not stand above it. Three cases, so neither an `Option` nor a `Result`.
#[derive(Clone, Copy, Debug, PartialEq, Eq)]
pub enum Position {
    Aside,
    Outside,
    Inside(RegionOffset, RegionOffset),
}

// A region with the offsets of its parent from `first` up to `end`. What lies before the region counts as its start.
#[tactic(auto, unfolding(crate::specs::Position::entered))]
fn enter(region: Region, first: RegionOffset, end: RegionOffset) -> Position
    ensures { result ≡ entered region first.0 end.0 }
{
    let from = first.0.saturating_sub(region.offset);
    let to = end.0.saturating_sub(region.offset).min(region.size);
    if from < to {
        return Position::Inside(RegionOffset(from), RegionOffset(to));
    }
    Position::Outside
}

// Guest addresses are offsets of the root, and each region above n is entered before n.
pub fn locate(map: &DrawnMap, n: usize, first: GuestAddress, end: GuestAddress) -> Position
    requires { n < (map_of map.now).count }
    ensures { result ≡ located (map_of map.now) n first.0 end.0 }
{
    let region = map.region(n);
    let Some(parent) = region.parent.checked_sub(1) else {
        if n + 1 == map.count() {
            return enter(region, root_offset(first), root_offset(end));
        }
        return Position::Aside;
    };
    match locate(map, parent, first, end) {
        Position::Inside(from, to) => enter(region, from, to),
        position => position,
    }
}
