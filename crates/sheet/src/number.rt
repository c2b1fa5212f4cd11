// One number of a sheet, in groups of seven bits.
ghost use Rattle.std.specs.Prelude.{◌≡◌};
ghost use Rattle.sheet.specs.Number.{sheet_number as number_at};
ghost use Rattle.sheet.specs.Answer.{read_by};

use crate::answer::{Cursor, SheetFault};

// No group may follow this one.
const LAST_GROUP: usize = 7;

// The number at a cursor, and the cursor past it.
pub fn read_number(sheet: &[u8], from: Cursor) -> Result<(u64, Cursor), SheetFault>
    ensures { read_by result ≡ number_at sheet.now from.at }
{
    let Some(rest) = sheet.get(from.at..) else {
        return Err(SheetFault::Short(sheet.len()));
    };
    let mut value: u64 = 0;
    let mut scale: u64 = 1;
    for (i, byte) in rest.iter().enumerate() {
        let group = u64::from(*byte);
        if group < 128 {
            if i > 0 && group == 0 {
                return Err(SheetFault::Number(from.at + i));
            }
            let whole = value + group * scale;
            let next = Cursor {
                at: from.at + i + 1,
            };
            return Ok((whole, next));
        }
        if i == LAST_GROUP {
            return Err(SheetFault::Number(from.at + i));
        }
        value += (group - 128) * scale;
        scale *= 128;
    }
    Err(SheetFault::Short(sheet.len()))
}
