// Block numbers, and the three rules that make one.
ghost use Rattle.std.specs.Prelude.{◌≡◌, ◌-◌, ◌/◌, ◌≤◌, ◌<◌, min};

use map_records::map::{GuestAddress, RegionOffset};

// Document 01's block number.
#[derive(Clone, Copy, Debug, PartialEq, Eq)]
pub struct BlockNumber(pub u16);

// 'Block of a byte = its offset in the managed node divided by the block size.'
pub fn block_of(block_size: u64, offset: RegionOffset) -> BlockNumber
    requires { (0 < block_size) × (offset.0 / block_size < 65536) }
    ensures { result.0 ≡ offset.0 / block_size }
{
    let block = offset.0 / block_size;
    BlockNumber(block as u16)
}

// 'Block of a request's address = (address - addr) divided by the block size.'
pub fn block_of_request(block_size: u64, addr: GuestAddress, address: GuestAddress) -> BlockNumber
    requires { (0 < block_size) × (addr.0 ≤ address.0) × ((address.0 - addr.0) / block_size < 65536) }
    ensures { result.0 ≡ (address.0 - addr.0) / block_size }
{
    block_of(block_size, RegionOffset(address.0 - addr.0))
}

// The largest block number that can be written: no region has it.
const LAST: u64 = 65535;

// A host's number as a block number. One that is wider than 16 bits becomes the last, which is outside every region too.
pub fn block_of_host(number: u64) -> BlockNumber
    ensures { result.0 ≡ min number 65535 }
{
    let block = number.min(LAST);
    BlockNumber(block as u16)
}
