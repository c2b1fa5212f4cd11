// The cells of the rows: what a row shows in a column.
ghost use Rattle.std.specs.Prelude.{◌≡◌, ◌≤◌, ◌<◌, ◌^◌};
ghost use Rattle.map_records.specs.Words.{map_of};
ghost use Rattle.region_map.specs.Walk.{walk_root};
ghost use Rattle.drawing.specs.Position.{located};
ghost use Rattle.drawing.specs.Drawing.{column_address, address_cell, ruler_cell, fill as fill_of};
ghost use Rattle.drawing.specs.Drawing.{later_cell, region_cell, answer_cell, cell as cell_of, RowIn};
ghost use Rattle.map_records.specs.Limits.{limit};

use crate::label::{digit, letter};
use crate::map::DrawnMap;
use crate::position::{Position, locate};
use crate::row::Row;
use map_records::kind::Kind;
use map_records::map::GuestAddress;

// The guest address that column c stands for in a root of so many bytes.
fn column_address(size: u64, c: usize) -> GuestAddress
    requires { (size ≤ limit) × (c ≤ 64) }
    ensures { result.0 ≡ column_address size c }
{
    GuestAddress(size * (c as u64) / 64)
}

// The address line has an address at every sixteenth column.
fn address_cell(size: u64, c: usize) -> u8
    requires { (size ≤ limit) × (c < 64) }
    ensures { result ≡ address_cell size c }
{
    let address = column_address(size, c / 16 * 16);
    let mut digits = [0u8; 16];
    let k = io::hex(address.0, 1, &mut digits);
    letter(&digits[..k], c % 16)
}

fn ruler_cell(c: usize) -> u8
    ensures { result ≡ ruler_cell c }
{
    if c % 16 == 0 { b'|' } else { b'-' }
}

// What a region's row is filled with.
#[tactic(auto, unfolding(crate::specs::Drawing::fill))]
fn fill(map: &DrawnMap, n: usize) -> u8
    requires { n < (map_of map.now).count }
    ensures { result ≡ fill_of (map_of map.now) n }
{
    match Kind::try_from(map.region(n).kind) {
        Ok(Kind::Container) => b'-',
        Ok(Kind::Alias) => b'=',
        Ok(Kind::Ram | Kind::Mmio | Kind::Managed) => digit(n),
        Err(_) => b'?',
    }
}

// A column whose own address lies outside the region.
fn later_cell(map: &DrawnMap, n: usize, first: GuestAddress, next: GuestAddress) -> u8
    requires { n < (map_of map.now).count }
    ensures { result ≡ later_cell (located (map_of map.now) n first.0 next.0) }
{
    match locate(map, n, first, next) {
        Position::Inside(_, _) => b'+',
        Position::Outside | Position::Aside => b' ',
    }
}

fn region_cell(map: &DrawnMap, n: usize, first: GuestAddress, next: GuestAddress, c: usize) -> u8
    requires { (n < (map_of map.now).count) × (first.0 ≤ limit) }
    ensures { result ≡ region_cell (map_of map.now) n first.0 next.0 c }
{
    match locate(map, n, first, GuestAddress(first.0 + 1)) {
        Position::Inside(_, _) => fill(map, n),
        Position::Outside => later_cell(map, n, first, next),
        Position::Aside => letter(b"not under the root", c),
    }
}

// The region that an address leads to.
fn answer_cell(map: &DrawnMap, address: GuestAddress) -> u8
    ensures { result ≡ answer_cell (walk_root (map_of map.now) address.0) }
{
    match map.found(address) {
        Some(found) => digit(found.region),
        None => b'.',
    }
}

// Column c of a row.
pub fn cell(map: &DrawnMap, row: Row, c: usize) -> u8
    requires { RowIn (map_of map.now) row × (c < 64) }
    ensures { result ≡ cell_of (map_of map.now) row c }
{
    let size = map.region(map.count() - 1).size;
    let address = column_address(size, c);
    let next = column_address(size, c + 1);
    match row {
        Row::Addresses => address_cell(size, c),
        Row::Ruler => ruler_cell(c),
        Row::Region(n) => region_cell(map, n, address, next, c),
        Row::FlatView => answer_cell(map, address),
    }
}
