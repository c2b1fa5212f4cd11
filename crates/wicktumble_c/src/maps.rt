// Sheets, the check, the walk and the flat view.
ghost use Rattle.wicktumble.specs.Result.{Returns};
ghost use Rattle.wicktumble.specs.Maps.{ReturnsRecord, read_call, check_call, walk_call, flatten_call};

// The call reads and checks a sheet, into the map. It refuses with 1 to 5 (the result has a place in
// the sheet), 6 to 11 (the result has the two regions) and 27.
#[unsafe(no_mangle)]
pub extern "C" fn wt_read_sheet(
    sheet: &[u8],
    memory_length: u64,
    map: &mut [u64],
    res: &mut [u64],
) -> u64
    ensures { ReturnsRecord (read_call sheet.now memory_length map.old res.old)
        result map.new res.new }
{
    wicktumble::maps::wt_read_sheet(sheet, memory_length, map, res)
}

// The call checks a map. It refuses with 3, 4, 6 to 11 (the result has the two regions) and 27.
#[unsafe(no_mangle)]
pub extern "C" fn wt_check_map(map: &[u64], memory_length: u64, res: &mut [u64]) -> u64
    ensures { Returns (check_call map.now memory_length res.old) result res.new }
{
    wicktumble::maps::wt_check_map(map, memory_length, res)
}

// The call walks through the tree to an address. The result has 1, the region that the address leads to
// and the offset in it, or zeros where nothing is there. The call refuses with 3, 4, 6 to 11 (the result
// has the two regions) and 27.
#[unsafe(no_mangle)]
pub extern "C" fn wt_walk(map: &[u64], memory_length: u64, address: u64, res: &mut [u64]) -> u64
    ensures { Returns (walk_call map.now memory_length address res.old) result res.new }
{
    wicktumble::maps::wt_walk(map, memory_length, address, res)
}

// The call makes the flat view of a map. It refuses with 3, 4, 6 to 11 (the result has the two regions),
// 12 and 27.
#[unsafe(no_mangle)]
pub extern "C" fn wt_flatten(
    map: &[u64],
    memory_length: u64,
    view: &mut [u64],
    res: &mut [u64],
) -> u64
    ensures { ReturnsRecord (flatten_call map.now memory_length view.old res.old)
        result view.new res.new }
{
    wicktumble::maps::wt_flatten(map, memory_length, view, res)
}
