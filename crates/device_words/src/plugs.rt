// The plugged blocks of a device: how many a size has, whether one is plugged, and the plugged size.
ghost use Rattle.std.specs.Prelude.{◌≡◌, ◌*◌, ◌/◌, ◌≤◌, ◌<◌, length};
ghost use Rattle.device_words.specs.Table.{bit_at, most_blocks, table_length};
ghost use Rattle.device_words.specs.Device.{largest_block, size_in};
ghost use Rattle.device_words.specs.Words.{device_at, device_length};

use crate::block::BlockNumber;
use crate::table::{TableWords, is_in, total};
use crate::words::{BLOCK_SIZE, DeviceWords, plug_table};

// How many blocks a size has.
pub fn blocks_in(device: &DeviceWords, size: u64) -> usize
    requires { 0 < (device_at device.now).block_size }
    ensures { result ≡ size / (device_at device.now).block_size }
{
    (size / device[BLOCK_SIZE]) as usize
}

// Is a block plugged? None is from 1,024 on.
pub fn is_plugged(device: &DeviceWords, b: BlockNumber) -> bool
    ensures { result ≡ bit_at (device_at device.now).plugged b.0 }
{
    is_in(plug_table(device), b)
}

// Block size times the blocks plugged.
pub fn plugged_size(block: u64, plugged: &TableWords) -> u64
    requires { block ≤ largest_block }
    ensures { (result ≡ size_in block plugged.now) × (result ≤ largest_block * most_blocks) }
{
    let count = total(plugged);
    block * count
}
