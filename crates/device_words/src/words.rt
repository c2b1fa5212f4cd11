// Where each part of a device lies among its words.
ghost use Rattle.std.specs.Prelude.{◌≡◌, length};
ghost use Rattle.device_words.specs.Words.{device_at, device_of, device_length};
ghost use Rattle.device_words.specs.Device.{sizes_of};

use crate::table::TableWords;
use map_records::map::GuestAddress;

pub const BLOCK_SIZE: usize = 0;

pub const ADDR: usize = 1;

pub const REGION_SIZE: usize = 2;

pub const USABLE_SIZE: usize = 3;

pub const REQUESTED_SIZE: usize = 4;

// The plug table is the words from 5 to 20, and the pins are those from 21 to 36.
pub const PLUGGED: usize = 5;

pub const PINNED: usize = 21;

pub const DEVICE_WORDS: usize = 37;

pub type DeviceWords = [u64; DEVICE_WORDS];

// The sizes and the address by which requests are answered.
#[derive(Clone, Copy, Debug, PartialEq, Eq)]
pub struct Sizes {
    pub block_size: u64,
    pub addr: GuestAddress,
    pub usable_size: u64,
    pub requested_size: u64,
}

pub fn sizes_of(device: &DeviceWords) -> Sizes
    ensures { result ≡ sizes_of (device_at device.now) }
{
    Sizes {
        block_size: device[BLOCK_SIZE],
        addr: GuestAddress(device[ADDR]),
        usable_size: device[USABLE_SIZE],
        requested_size: device[REQUESTED_SIZE],
    }
}

pub fn block_size(device: &DeviceWords) -> u64
    ensures { result ≡ (device_of device.now).block_size }
{
    device[BLOCK_SIZE]
}

pub fn region_size(device: &DeviceWords) -> u64
    ensures { result ≡ (device_of device.now).region_size }
{
    device[REGION_SIZE]
}

// The words of the plug table, and of the pins.
pub fn plug_table(device: &DeviceWords) -> &TableWords
    ensures { result.now ≡ (device_at device.now).plugged }
{
    device[PLUGGED..PINNED].as_array().unwrap()
}

pub fn pin_table(device: &DeviceWords) -> &TableWords
    ensures { result.now ≡ (device_at device.now).pinned }
{
    device[PINNED..DEVICE_WORDS].as_array().unwrap()
}

pub fn plugged(device: &DeviceWords) -> &TableWords
    ensures { result.now ≡ (device_of device.now).plugged }
{
    plug_table(device)
}
