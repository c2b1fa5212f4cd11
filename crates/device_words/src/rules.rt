// SETUP's rules, and 27's for a device record.
ghost use Rattle.std.specs.Prelude.{◌≡◌, ◌≤◌, ◌<◌, true, false, ◌&&◌, MatchOption};
ghost use Rattle.device_words.specs.Device.{largest_block, block_ok, region_ok, addr_ok, sizes_ok, setup_ok, setup_kept, tables_ok, device_ok};
ghost use Rattle.device_words.specs.Words.{is_device, device_at, device_of};

use crate::pins::pins_plugged;
use crate::plugs::blocks_in;
use crate::table::{BLOCKS, only_below};
use crate::words::{
    ADDR, BLOCK_SIZE, DeviceWords, REGION_SIZE, REQUESTED_SIZE, USABLE_SIZE, plug_table,
};
use map_records::map::GuestAddress;
use map_records::numbers::{LIMIT, sum_within};

const SMALLEST_BLOCK: u64 = 4096;

const LARGEST_BLOCK: u64 = 1073741824;

// Is the block size a power of two from 4,096 to 2^30?
fn block_ok(block: u64) -> bool
    ensures { result ≡ block_ok block }
{
    (SMALLEST_BLOCK <= block) & (block <= LARGEST_BLOCK) & block.is_power_of_two()
}

fn region_ok(block: u64, region: u64) -> bool
    requires { (0 < block) × (block ≤ largest_block) }
    ensures { result ≡ region_ok block region }
{
    !(region == 0) & (region % block == 0) & (region <= (BLOCKS as u64) * block)
}

fn addr_ok(block: u64, addr: GuestAddress, region: u64) -> bool
    requires { 0 < block }
    ensures { result ≡ addr_ok block addr.0 region }
{
    (addr.0 % block == 0) & sum_within(addr.0, region, LIMIT)
}

fn sizes_ok(block: u64, region: u64, usable: u64, requested: u64) -> bool
    requires { 0 < block }
    ensures { result ≡ sizes_ok block region usable requested }
{
    (requested <= usable) & (usable <= region) & (usable % block == 0) & (requested % block == 0)
}

// SETUP's rules.
pub fn setup_ok(block: u64, addr: GuestAddress, region: u64, usable: u64, requested: u64) -> bool
    ensures { result ≡ setup_ok block addr.0 region usable requested }
{
    block_ok(block)
        && region_ok(block, region)
            & (addr_ok(block, addr, region) & sizes_ok(block, region, usable, requested))
}

// 27's rules over the two tables: what is plugged lies in the usable part, and what is pinned is
// plugged. That both lie in the region follows.
fn tables_ok(device: &DeviceWords) -> bool
    requires { setup_kept (device_at device.now) ≡ true }
    ensures { result ≡ tables_ok (device_at device.now) }
{
    let blocks = blocks_in(device, device[USABLE_SIZE]);
    only_below(plug_table(device), blocks) & pins_plugged(device)
}

// Do as many words as a device has keep their rules?
pub fn words_ok(device: &DeviceWords) -> bool
    ensures { result ≡ device_ok (device_of device.now) }
{
    setup_ok(
        device[BLOCK_SIZE],
        GuestAddress(device[ADDR]),
        device[REGION_SIZE],
        device[USABLE_SIZE],
        device[REQUESTED_SIZE],
    ) && tables_ok(device)
}

// Do the words of a device keep their rules? Those of another number do not.
pub fn device_ok(device: &[u64]) -> bool
    ensures { result ≡ (is_device device.now && device_ok (device_of device.now)) }
{
    match device.as_array() {
        Some(words) => words_ok(words),
        None => false,
    }
}

// The words of a device that keeps its rules. Words of another number are a record of zeros, which breaks them.
pub fn valid(words: &[u64]) -> Option<&DeviceWords>
    ensures { MatchOption result (device_ok (device_of words.now) ≡ false)
        (λ device. (device.now ≡ words.now) × (device_ok (device_of words.now) ≡ true)) }
{
    let Some(device) = words.as_array() else {
        return None;
    };
    if !words_ok(device) {
        return None;
    }
    Some(device)
}
