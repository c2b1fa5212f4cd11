// The labels of the rows.
ghost use Rattle.std.specs.Prelude.{◌≡◌, ◌<◌};
ghost use Rattle.map_records.specs.Map.{kind_number};
ghost use Rattle.map_records.specs.Words.{map_of};
ghost use Rattle.drawing.specs.Drawing.{digit_of, letter_of, kind_text, region_label, label as label_of, RowIn};

use crate::map::DrawnMap;
use crate::row::Row;
use map_records::kind::Kind;

// A region's number as one character.
pub fn digit(n: usize) -> u8
    ensures { result ≡ digit_of n }
{
    match n {
        0..=9 => b'0' + n as u8,
        10..=35 => b'a' + (n - 10) as u8,
        _ => b'?',
    }
}

// Letter i of a word, and a space past its end.
pub fn letter(word: &[u8], i: usize) -> u8
    ensures { result ≡ letter_of word.now i }
{
    word.get(i).copied().unwrap_or(b' ')
}

// The name of a kind.
#[tactic(auto, unfolding(crate::specs::Drawing::kind_text))]
fn name(kind: Kind) -> &'static [u8]
    ensures { result.now ≡ kind_text (kind_number kind) }
{
    match kind {
        Kind::Container => b"container",
        Kind::Ram => b"ram",
        Kind::Mmio => b"mmio",
        Kind::Alias => b"alias",
        Kind::Managed => b"managed",
    }
}

// Letter i of the name of a kind, by its number.
#[tactic(auto, unfolding(crate::specs::Drawing::kind_text))]
fn kind_letter(kind: u64, i: usize) -> u8
    ensures { result ≡ letter_of (kind_text kind) i }
{
    match Kind::try_from(kind) {
        Ok(kind) => letter(name(kind), i),
        Err(_) => b' ',
    }
}

// Character k of the label of region n: its number, then its kind.
#[tactic(auto, unfolding(crate::specs::Drawing::region_label))]
fn region_label(map: &DrawnMap, n: usize, k: usize) -> u8
    requires { n < (map_of map.now).count }
    ensures { result ≡ region_label (map_of map.now) n k }
{
    match k {
        1 => digit(n),
        0..=2 => b' ',
        _ => kind_letter(map.region(n).kind, k - 3),
    }
}

// Character k of a row's label.
pub fn label(map: &DrawnMap, row: Row, k: usize) -> u8
    requires { RowIn (map_of map.now) row }
    ensures { result ≡ label_of (map_of map.now) row k }
{
    match row {
        Row::Addresses => letter(b" address", k),
        Row::Ruler => b' ',
        Row::Region(n) => region_label(map, n, k),
        Row::FlatView => letter(b" flat view", k),
    }
}
