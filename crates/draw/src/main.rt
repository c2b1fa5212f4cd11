// Reads a sheet on standard input and prints a drawing of its map over a memory of 65,536 bytes: the
// address line, a row for each region from the root down, and the flat view below; or `refused N`.
#![tactic(auto)]

use drawing::drawing::draw_sheet;
use listing::input::read_full;
use std::io;

const MEMORY: u64 = 65536;

// A sheet has at most 64 KiB. One byte more is read, so that a longer input is refused as the sheet
// that it is.
fn main(rt: HostRuntime) -> io::Result<()> {
    let mut sheet = [0u8; 65537];
    let n = read_full(&mut rt.stdin(), &mut sheet)?;
    let mut text = [0u8; 2765];
    let length = draw_sheet(&sheet[..n], MEMORY, &mut text);
    rt.stdout().write_all(&text[..length])
}
