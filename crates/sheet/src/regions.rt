// The regions of a sheet, one after the other.
ghost use Rattle.std.specs.Prelude.{◌≡◌, ◌≤◌, length};
ghost use Rattle.map_records.specs.Words.{map_of};
ghost use Rattle.sheet.specs.Sheet.{regions_from};
ghost use Rattle.map_records.specs.Map.{blank_map};
ghost use Rattle.sheet.specs.Promises.{progress_of};
ghost use Rattle.map_records.specs.Limits.{map_length, most_regions};

use crate::answer::{Cursor, SheetFault};
use crate::fields::read_region;
use map_records::words::{MapWords, put_region};

// `count` regions from a cursor on, laid into a blank map; the cursor past them.
pub fn read_regions(
    sheet: &[u8],
    from: Cursor,
    count: usize,
    map: &mut MapWords,
) -> Result<Cursor, SheetFault>
    requires count_le_most_regions { count ≤ most_regions }
    requires blank { map_of map.old ≡ blank_map count }
    ensures { progress_of result (map_of map.new) ≡ regions_from sheet.now count 0 (blank_map count) from.at }
{
    let mut at = from;
    // By number, since only `map_records` knows where a region's words lie.
    for n in 0..count {
        let (region, next) = read_region(sheet, at)?;
        put_region(map, n, region);
        at = next;
    }
    Ok(at)
}
