// Reads a sheet on standard input and prints the flat view of its map over a memory of 65,536 bytes:
// a line for each range, or `refused N`.
#![tactic(auto)]

use listing::input::read_full;
use listing::listing::list_sheet;
use std::io;

const MEMORY: u64 = 65536;

// A sheet has at most 64 KiB. One byte more is read, so that a longer input is refused as the sheet
// that it is: its first fault, and 5 where the map was read and bytes remain.
fn main(rt: HostRuntime) -> io::Result<()> {
    let mut sheet = [0u8; 65537];
    let n = read_full(&mut rt.stdin(), &mut sheet)?;
    let mut text = [0u8; 20480];
    let length = list_sheet(&sheet[..n], MEMORY, &mut text);
    rt.stdout().write_all(&text[..length])
}
