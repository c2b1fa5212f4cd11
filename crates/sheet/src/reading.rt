// The whole sheet.
ghost use Rattle.std.specs.Prelude.{◌≡◌, length};
ghost use Rattle.map_records.specs.Map.{blank_map};
ghost use Rattle.map_records.specs.Words.{map_of};
ghost use Rattle.sheet.specs.Answer.{sheet_reply};
ghost use Rattle.sheet.specs.Sheet.{read_sheet, read_into};
ghost use Rattle.sheet.specs.Promises.{ReadsMap};
ghost use Rattle.map_records.specs.Limits.{map_length};

use crate::answer::{Cursor, SheetFault};
use crate::number::read_number;
use crate::regions::read_regions;
use map_check::check::check_map;
use map_records::map::REGIONS;
use map_records::words::{MAP_WORDS, MapWords, put_region_count};

// The sheet's map, laid into words that are all zero: accepted, or the refusal.
fn read_map(sheet: &[u8], memory_length: u64, map: &mut MapWords) -> Result<(), SheetFault>
    requires { map_of map.old ≡ blank_map 0 }
    ensures { ReadsMap (read_sheet sheet.now memory_length) result map.new }
{
    let (count, next) = read_number(sheet, Cursor { at: 0 })?;
    if count == 0 || count > REGIONS as u64 {
        return Err(SheetFault::Count(0));
    }
    put_region_count(map, count as usize);
    let end = read_regions(sheet, next, count as usize, map)?;
    if end.at < sheet.len() {
        return Err(SheetFault::Tail(end.at));
    }
    check_map(map, memory_length)?;
    Ok(())
}

// Reads a sheet for a guest memory of so many bytes. The map is laid into the lent words; on a refusal they stay
// as they are.
pub fn read_sheet(sheet: &[u8], memory_length: u64, map: &mut [u64]) -> Result<(), SheetFault>
    ensures { (sheet_reply result ≡ (read_into sheet.now memory_length map.old).reply)
        × (map.new ≡ (read_into sheet.now memory_length map.old).words) }
{
    if map.len() != MAP_WORDS {
        return Err(SheetFault::Record);
    }
    let mut read = [0u64; MAP_WORDS];
    read_map(sheet, memory_length, &mut read)?;
    map.copy_from_slice(&read);
    Ok(())
}
