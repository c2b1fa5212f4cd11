// Sheets, the check, the walk and the flat view.
ghost use Rattle.std.specs.Prelude.{◌≡◌};
ghost use Rattle.region_map.specs.Flatten.{flat_fault_reply};
ghost use Rattle.sheet.specs.Answer.{sheet_fault_reply};
ghost use Rattle.wicktumble.specs.Result.{Returns, places};
ghost use Rattle.wicktumble.specs.Maps.{ReturnsRecord, read_call, check_call, walk_call, flatten_call};

use crate::result::{RESULT_WORDS, Told, refused, tell};
use map_check::check::check_map;
use map_records::map::GuestAddress;
use map_records::refusal::Refusal;
use map_records::words::{MAP_WORDS, VIEW_WORDS};
use region_map::resolve::resolve_address;
use region_map::view::{FlatFault, flatten};
use sheet::answer::SheetFault;
use sheet::reading::read_sheet;

// The place in the sheet, or the regions that the check of the map names.
impl Told for SheetFault {
    ghost told = { λ f. places (sheet_fault_reply f) };

    fn words(self) -> [u64; RESULT_WORDS] {
        match self {
            SheetFault::Short(place)
            | SheetFault::Number(place)
            | SheetFault::Count(place)
            | SheetFault::Kind(place)
            | SheetFault::Tail(place) => [place as u64, 0, 0],
            SheetFault::Record => [0; RESULT_WORDS],
            SheetFault::Map(fault) => fault.words(),
        }
    }
}

// The call reads and checks a sheet, into the map. It refuses with 1 to 5 (the result has a place in
// the sheet), 6 to 11 (the result has the two regions) and 27.
pub fn wt_read_sheet(sheet: &[u8], memory_length: u64, map: &mut [u64], res: &mut [u64]) -> u64
    ensures { ReturnsRecord (read_call sheet.now memory_length map.old res.old)
        result map.new res.new }
{
    let Some(map) = map.as_mut_array::<MAP_WORDS>() else {
        return refused(Refusal::Record);
    };
    let Some(res) = res.as_mut_array() else {
        return refused(Refusal::Record);
    };
    tell(res, read_sheet(sheet, memory_length, map))
}

// The call checks a map. It refuses with 3, 4, 6 to 11 (the result has the two regions) and 27.
pub fn wt_check_map(map: &[u64], memory_length: u64, res: &mut [u64]) -> u64
    ensures { Returns (check_call map.now memory_length res.old) result res.new }
{
    let Some(map) = map.as_array::<MAP_WORDS>() else {
        return refused(Refusal::Record);
    };
    let Some(res) = res.as_mut_array() else {
        return refused(Refusal::Record);
    };
    tell(res, check_map(map, memory_length))
}

// The call walks through the tree to an address. The result has 1, the region that the address leads to
// and the offset in it, or zeros where nothing is there. The call refuses with 3, 4, 6 to 11 (the result
// has the two regions) and 27.
pub fn wt_walk(map: &[u64], memory_length: u64, address: u64, res: &mut [u64]) -> u64
    ensures { Returns (walk_call map.now memory_length address res.old) result res.new }
{
    let Some(map) = map.as_array::<MAP_WORDS>() else {
        return refused(Refusal::Record);
    };
    let Some(res) = res.as_mut_array() else {
        return refused(Refusal::Record);
    };
    tell(
        res,
        resolve_address(map, memory_length, GuestAddress(address)),
    )
}

// The regions that the check of the map names.
impl Told for FlatFault {
    ghost told = { λ f. places (flat_fault_reply f) };

    fn words(self) -> [u64; RESULT_WORDS] {
        match self {
            FlatFault::Map(fault) => fault.words(),
            FlatFault::TooMany | FlatFault::Record => [0; RESULT_WORDS],
        }
    }
}

// The call makes the flat view of a map. It refuses with 3, 4, 6 to 11 (the result has the two regions),
// 12 and 27.
pub fn wt_flatten(map: &[u64], memory_length: u64, view: &mut [u64], res: &mut [u64]) -> u64
    ensures { ReturnsRecord (flatten_call map.now memory_length view.old res.old)
        result view.new res.new }
{
    let Some(map) = map.as_array::<MAP_WORDS>() else {
        return refused(Refusal::Record);
    };
    let Some(view) = view.as_mut_array::<VIEW_WORDS>() else {
        return refused(Refusal::Record);
    };
    let Some(res) = res.as_mut_array() else {
        return refused(Refusal::Record);
    };
    tell(res, flatten(map, memory_length, view))
}
