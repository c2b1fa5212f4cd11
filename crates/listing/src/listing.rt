// The text that `flatten` prints for a sheet. A text goes into a lent buffer as a whole or not at all, and its length
// is returned, so that a caller whose buffer was too small knows how many bytes are needed.
ghost use Rattle.std.specs.Prelude.{◌≡◌, ◌++◌, [], ◌+◌, ◌≤◌, length};
ghost use Rattle.arrayvec.specs.ArrayVec.{array_vec_len};
ghost use Rattle.map_records.specs.View.{entries};
ghost use Rattle.map_records.specs.Words.{map_of, view_of};
ghost use Rattle.listing.specs.Text.{refusal_text, Fills};
ghost use Rattle.listing.specs.Listing.{range_text, ranges_text, map_text, listing_text};
ghost use Rattle.map_records.specs.Limits.{view_length, most_ranges};

use crate::text::{push_decimal, push_hex};
use arrayvec::ArrayVec;
use map_check::answer::Fault;
use map_records::view::FlatRange;
use map_records::words::{MAP_WORDS, VIEW_WORDS, ViewWords, count_of, range_at};
use region_map::view::flatten;
use sheet::reading::read_sheet;

// The bytes that a refusal's line and a flat list's lines may take.
const REFUSAL: usize = 29;

const LISTING: usize = 20480;

// A text into a buffer.
pub fn fill(text: &[u8], out: &mut [u8]) -> usize
    ensures { Fills text.now out.old result out.new }
{
    let n = text.len();
    if n <= out.len() {
        out[..n].copy_from_slice(text);
    }
    n
}

// The line of a refusal: the word and the number.
pub fn refuse(number: u64, out: &mut [u8]) -> usize
    ensures fills { Fills (refusal_text number) out.old result out.new }
    ensures upper_bound { result ≤ 29 }
{
    let mut text = ArrayVec::<u8, REFUSAL>::new();
    text.try_extend_from_slice(b"refused ").unwrap();
    push_decimal(&mut text, number, b'\n');
    fill(text.as_slice(), out)
}

// The line of a range: first, last, region and offset.
fn push_range(text: &mut ArrayVec<u8, LISTING>, range: FlatRange)
    requires { array_vec_len text.old + 80 ≤ 20480 }
    ensures bytes { text.new.items ≡ text.old.items ++ range_text range }
    ensures upper_bound { array_vec_len text.new ≤ array_vec_len text.old + 80 }
{
    push_hex(text, range.first.0, b' ');
    push_hex(text, range.last.0, b' ');
    push_decimal(text, range.region as u64, b' ');
    push_hex(text, range.offset.0, b'\n');
}

// The lines of a view's ranges.
fn push_ranges(view: &ViewWords, text: &mut ArrayVec<u8, LISTING>)
    requires { ((view_of view.now).count ≤ most_ranges) × (text.old.items ≡ []) }
    ensures { text.new.items ≡ ranges_text (entries (view_of view.now)) }
{
    // By number, since only `map_records` knows how ranges lie in a view's words.
    for k in 0..count_of(view) {
        push_range(text, range_at(view, k));
    }
}

// The flat view of a map that is judged first, or its refusal.
fn list_map(map: &[u64], memory_length: u64, out: &mut [u8]) -> usize
    ensures fills { Fills (map_text memory_length (map_of map.now)) out.old result out.new }
    ensures upper_bound { result ≤ 20480 }
{
    let mut flat = [0u64; VIEW_WORDS];
    if let Err(fault) = flatten(map, memory_length, &mut flat) {
        return refuse(u64::from(fault.refusal().number()), out);
    }
    let mut text = ArrayVec::<u8, LISTING>::new();
    push_ranges(&flat, &mut text);
    fill(text.as_slice(), out)
}

// The flat view of a sheet's map over a guest memory of so many bytes, one line a range, or its refusal. A buffer of
// 20,480 bytes has room for every such text.
pub fn list_sheet(sheet: &[u8], memory_length: u64, out: &mut [u8]) -> usize
    ensures fills { Fills (listing_text sheet.now memory_length) out.old result out.new }
    ensures upper_bound { result ≤ 20480 }
{
    let mut map = [0u64; MAP_WORDS];
    if let Err(fault) = read_sheet(sheet, memory_length, &mut map) {
        return refuse(u64::from(fault.refusal().number()), out);
    }
    list_map(&map, memory_length, out)
}
