// The drawing of a sheet's map: the text that `draw` prints.
ghost use Rattle.std.specs.Prelude.{◌≡◌, ◌++◌, [], ◌+◌, ◌≤◌, ◌<◌};
ghost use Rattle.arrayvec.specs.ArrayVec.{array_vec_len};
ghost use Rattle.listing.specs.Text.{Fills};
ghost use Rattle.map_records.specs.Words.{map_of};
ghost use Rattle.drawing.specs.Drawing.{character as character_of, row_text, map_drawing, drawing_text, RowIn};

use crate::cell::cell;
use crate::label::label;
use crate::map::DrawnMap;
use crate::row::{Row, row_at};
use arrayvec::ArrayVec;
use listing::listing::{fill, refuse};
use map_check::answer::Fault;
use map_records::words::MAP_WORDS;
use sheet::reading::read_sheet;

// The bytes that a drawing may take: 35 rows of 79 characters.
const DRAWING: usize = 2765;

// Character k of a row: its label, its 64 cells, a bar where the root ends, and the end of the line.
#[tactic(auto, unfolding(crate::specs::Drawing::character))]
fn character(map: &DrawnMap, row: Row, k: usize) -> u8
    requires { RowIn (map_of map.now) row × (k < 79) }
    ensures { result ≡ character_of (map_of map.now) row k }
{
    match k {
        0..=12 => label(map, row, k),
        13..=76 => cell(map, row, k - 13),
        77 => b'|',
        _ => b'\n',
    }
}

// A row, at the end of the text.
#[tactic(auto, using(crate::proofs::DrawLaws::character_more), unfolding(crate::specs::Drawing::row_text, crate::specs::Drawing::characters))]
fn push_row(map: &DrawnMap, row: Row, text: &mut ArrayVec<u8, DRAWING>)
    requires { RowIn (map_of map.now) row × (array_vec_len text.old + 79 ≤ 2765) }
    ensures bytes { text.new.items ≡ text.old.items ++ row_text (map_of map.now) row }
    ensures size { array_vec_len text.new ≡ array_vec_len text.old + 79 }
{
    for k in 0..79 {
        text.push(character(map, row, k));
    }
}

// All rows of an accepted map.
#[tactic(auto, using(crate::proofs::DrawLaws::row_more), unfolding(crate::specs::Drawing::rows_text))]
fn push_rows(map: &DrawnMap, text: &mut ArrayVec<u8, DRAWING>)
    requires { text.old.items ≡ [] }
    ensures { text.new.items ≡ map_drawing (map_of map.now) }
{
    let count = map.count();
    for w in 0..count + 3 {
        push_row(map, row_at(count, w), text);
    }
}

// The drawing of a sheet's map over a guest memory of so many bytes, or its refusal, laid into the lent buffer as a
// whole or not at all. Its length is returned; a buffer of 2,765 bytes has room for every drawing.
pub fn draw_sheet(sheet: &[u8], memory_length: u64, out: &mut [u8]) -> usize
    ensures fills { Fills (drawing_text sheet.now memory_length) out.old result out.new }
    ensures upper_bound { result ≤ 2765 }
{
    let mut map = [0u64; MAP_WORDS];
    if let Err(fault) = read_sheet(sheet, memory_length, &mut map) {
        return refuse(u64::from(fault.refusal().number()), out);
    }
    let mut text = ArrayVec::new();
    push_rows(&DrawnMap::new(&map, memory_length), &mut text);
    fill(&text, out)
}
