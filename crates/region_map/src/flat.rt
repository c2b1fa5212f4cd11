// Making the flat view: the tree is rendered into a table of pieces, and the pieces are put into the view in
// the order of their addresses.
ghost use Rattle.std.specs.Prelude.{◌≡◌, [], ◌-◌, ◌≤◌, ◌<◌};
ghost use Rattle.map_records.specs.View.{entries};
ghost use Rattle.map_records.specs.Words.{map_of, view_of};
ghost use Rattle.region_map.specs.FlatList.{joins, push};
ghost use Rattle.region_map.specs.Flatten.{base_of, backing_of, flat_below, flat_list, view_holding};
ghost use Rattle.map_records.specs.Limits.{most_regions};
ghost use Rattle.region_map.specs.Promises.{Viewed, NoEmptyRange, Grows, Emits};

use crate::pieces::{AddressSpan, PieceTable, nearer};
use crate::regions::region_in;
use crate::render::render;
use crate::resolve::root_offset;
use map_check::checked::CheckedMap;
use map_records::kind::Kind;
use map_records::map::{GuestAddress, Region};
use map_records::view::{FlatRange, RANGES};
use map_records::words::{ViewWords, count_of, put_count, put_range, range_at, region_at};

// What a range carries of its region: the kind, and the memory start or port.
#[derive(Clone, Copy)]
pub struct Backing {
    pub kind: u64,
    pub base: u64,
}

// The view is full: there are more than 256 ranges.
#[derive(Clone, Copy, Debug, PartialEq, Eq)]
pub struct TooManyRanges;

// Does r go on where x ends: the next address, the same region, the next offset?
fn goes_on(x: FlatRange, r: FlatRange) -> bool
    requires { x.first.0 ≤ x.last.0 }
    ensures { result ≡ joins x r }
{
    if r.first.0 <= x.last.0 {
        return false;
    }
    if r.first.0 - x.last.0 != 1 {
        return false;
    }
    if r.region != x.region {
        return false;
    }
    if r.offset.0 < x.offset.0 {
        return false;
    }
    r.offset.0 - x.offset.0 == r.first.0 - x.first.0
}

// One range more in the view, or the last one grown.
fn push_range(view: &mut ViewWords, r: FlatRange) -> Result<(), TooManyRanges>
    requires { Viewed view.old × NoEmptyRange (view_of view.old) }
    ensures { Grows (push (entries (view_of view.old)) r) view.old result view.new }
{
    let n = count_of(view);
    if 0 < n {
        let k = n - 1;
        let x = range_at(view, k);
        if goes_on(x, r) {
            let grown = FlatRange { last: r.last, ..x };
            put_range(view, k, grown);
            return Ok(());
        }
    }
    if n == RANGES {
        return Err(TooManyRanges);
    }
    put_range(view, n, r);
    put_count(view, n + 1);
    Ok(())
}

// A region's memory start or port; 0 where its kind has neither.
fn base_of(r: Region) -> u64
    ensures { result ≡ base_of r }
{
    match Kind::try_from(r.kind) {
        Ok(Kind::Ram | Kind::Managed) => r.memory_start,
        Ok(Kind::Mmio) => r.port,
        _ => 0,
    }
}

fn backing_of(map: &CheckedMap, n: usize) -> Backing
    requires { n < most_regions }
    ensures { result ≡ backing_of (map_of map.now) n }
{
    let region = region_at(map.words(), n);
    Backing {
        kind: region.kind,
        base: base_of(region),
    }
}

// The last of the addresses up to `end`, which is not one of them.
fn last_before(end: GuestAddress) -> GuestAddress
    requires { 0 < end.0 }
    ensures { result.0 ≡ end.0 - 1 }
{
    GuestAddress(end.0 - 1)
}

// The pieces of a table, which is whole from where the view ends up to its horizon, put into the view.
fn emit(map: &CheckedMap, view: &mut ViewWords, table: &PieceTable) -> Result<(), TooManyRanges>
    requires { Emits map.now view.old table.now }
    ensures { Grows (flat_below (map_of map.now) table.now.horizon.0)
        view.old result view.new }
{
    for piece in table.pieces() {
        let stop = nearer(piece.end, table.horizon());
        let backing = backing_of(map, piece.region);
        let range = FlatRange {
            first: piece.first,
            last: last_before(stop),
            region: piece.region,
            offset: piece.offset,
            kind: backing.kind,
            base: backing.base,
        };
        push_range(view, range)?;
    }
    Ok(())
}

// The addresses that the root has end at its size: they are its offsets.
fn root_end(size: u64) -> GuestAddress
    ensures { result.0 ≡ size }
{
    GuestAddress(size)
}

// The ranges of all addresses of the root, laid into an empty view.
pub fn sweep(map: &CheckedMap, view: &mut ViewWords) -> Result<(), TooManyRanges>
    requires { view_of view.old ≡ view_holding [] }
    ensures { Grows (flat_list (map_of map.now)) view.old result view.new }
{
    let root = map.count() - 1;
    let region = region_in(map, root);
    let end = root_end(region.size);
    let mut table = PieceTable::new();
    let mut at = GuestAddress(0);
    // A table after a table: up to where one is whole is known when it is filled.
    while at.0 < end.0 {
        table.begin(at, end);
        let offset = root_offset(at);
        render(
            map,
            &mut table,
            root,
            AddressSpan {
                first: at,
                end,
                offset,
            },
        );
        emit(map, view, &table)?;
        at = table.horizon();
    }
    Ok(())
}
