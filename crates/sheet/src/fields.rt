// One region of a sheet.
ghost use Rattle.std.specs.Prelude.{◌≡◌};
ghost use Rattle.sheet.specs.Answer.{read_by};
ghost use Rattle.sheet.specs.Region.{sheet_fields, field_at, fields_from, sheet_region};

use crate::answer::{Cursor, SheetFault};
use crate::number::read_number;
use map_records::kind::Kind;
use map_records::map::{Field, Region, has};

// The fields after the kind, in the order of the sheet.
const FIELDS: [Field; 8] = [
    Field::Parent,
    Field::Offset,
    Field::Size,
    Field::Priority,
    Field::MemoryStart,
    Field::Port,
    Field::Target,
    Field::AliasOffset,
];

// One field, where the region's kind has it.
fn read_field(
    sheet: &[u8],
    from: Cursor,
    region: Region,
    field: Field,
) -> Result<(Region, Cursor), SheetFault>
    ensures { read_by result ≡ field_at sheet.now field region from.at }
{
    if !has(region.kind, field) {
        return Ok((region, from));
    }
    let (value, next) = read_number(sheet, from)?;
    Ok((region.with_value(field, value), next))
}

// The fields after the kind.
fn read_fields(sheet: &[u8], from: Cursor, start: Region) -> Result<(Region, Cursor), SheetFault>
    ensures { read_by result ≡ fields_from sheet.now sheet_fields start from.at }
{
    let mut region = start;
    let mut at = from;
    for field in FIELDS {
        (region, at) = read_field(sheet, at, region, field)?;
    }
    Ok((region, at))
}

// The region at a cursor, and the cursor past it.
pub fn read_region(sheet: &[u8], from: Cursor) -> Result<(Region, Cursor), SheetFault>
    ensures { read_by result ≡ sheet_region sheet.now from.at }
{
    let (number, next) = read_number(sheet, from)?;
    let Ok(kind) = Kind::try_from(number) else {
        return Err(SheetFault::Kind(from.at));
    };
    let start = Region {
        kind: kind.number(),
        parent: 0,
        offset: 0,
        size: 0,
        priority: 0,
        memory_start: 0,
        port: 0,
        target: 0,
        alias_offset: 0,
    };
    read_fields(sheet, next, start)
}
