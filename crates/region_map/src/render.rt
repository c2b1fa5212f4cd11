// Filling the table of pieces from the tree: a region and its remaining children are two functions that
// call each other, as in the walk, over a span of addresses and not one address.
ghost use Rattle.std.specs.Prelude.{◌≤◌, ◌<◌};
ghost use Rattle.region_map.specs.Walk.{walk as walk_of, ranks};
ghost use Rattle.map_records.specs.Words.{map_of};
ghost use Rattle.region_map.specs.Promises.{tried_in};
ghost use Rattle.region_map.specs.Pieces.{seen, SpanFits, Behind};
ghost use Rattle.map_records.specs.Limits.{limit};

use crate::children::{RANKS, next_child};
use crate::pieces::{AddressSpan, PieceTable};
use crate::regions::region_in;
use map_check::checked::CheckedMap;
use map_records::kind::Kind;
use map_records::map::{GuestAddress, REGIONS, RegionOffset};

// Region n in a span.
#[cycle(render_render_children)]
pub fn render(map: &CheckedMap, table: &mut PieceTable, n: usize, at: AddressSpan)
    requires in_map { n < (map_of map.now).count }
    requires span_fits { SpanFits table.old at }
    ensures { Behind table.old (seen (walk_of (map_of map.now) n) at) table.new }
{
    let region = region_in(map, n);
    let size = region.size;
    let first = at.first;
    let offset = at.offset;
    if (at.end.0 <= first.0) | (size <= offset.0) {
        return;
    }
    if table.horizon().0 <= first.0 {
        return;
    }
    let end = GuestAddress(first.0 + (at.end.0 - first.0).min(size - offset.0));
    if region.has_kind(Kind::Alias) {
        let offset = RegionOffset(offset.0 + region.alias_offset);
        render(
            map,
            table,
            region.target,
            AddressSpan { first, end, offset },
        );
    } else {
        render_children(map, table, n, AddressSpan { first, end, offset }, RANKS);
    }
}

// The children of n whose ranks are below `below`, highest first, and then n itself.
#[cycle(render_render_children)]
fn render_children(
    map: &CheckedMap,
    table: &mut PieceTable,
    n: usize,
    at: AddressSpan,
    below: usize,
)
    requires in_map { (n < (map_of map.now).count) × (below ≤ ranks) }
    requires span_fits { SpanFits table.old at × (at.first.0 ≤ at.end.0) × (at.offset.0 ≤ limit) }
    ensures { Behind table.old
        (seen (tried_in (map_of map.now) n below) at) table.new }
{
    let Some(next) = next_child(map, n, below) else {
        if !region_in(map, n).has_kind(Kind::Container) {
            table.fill(n, at);
        }
        return;
    };
    let c = next % REGIONS;
    let child = region_in(map, c);
    let begins = child.offset;
    let end = at.end;
    if begins <= at.offset.0 {
        let first = at.first;
        let offset = RegionOffset(at.offset.0 - begins);
        render(map, table, c, AddressSpan { first, end, offset });
    } else {
        let ahead = begins - at.offset.0;
        if ahead < end.0 - at.first.0 {
            let first = GuestAddress(at.first.0 + ahead);
            let offset = RegionOffset(0);
            render(map, table, c, AddressSpan { first, end, offset });
        }
    }
    render_children(map, table, n, at, next);
}
