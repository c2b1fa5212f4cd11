// What the host's calls ask of the words of a valid device, and what they change.
ghost use Rattle.std.specs.Prelude.{◌≡◌, true, not, ◌<◌, length};
ghost use Rattle.device_words.specs.Device.{fresh};
ghost use Rattle.device_words.specs.Promises.{Valid};
ghost use Rattle.device_words.specs.Words.{device_at, device_words};
ghost use Rattle.memory_device.specs.Host.{size_fault, with_requested, turn_fault, configuration_of};
ghost use Rattle.device_words.specs.Bytes.{configuration_length};
ghost use Rattle.device_words.specs.Table.{most_blocks};

use device_words::block::BlockNumber;
use device_words::bytes::put_configuration;
use device_words::pins::is_pinned;
use device_words::plugs::{blocks_in, is_plugged, plugged_size};
use device_words::table::clear;
use device_words::words::{
    ADDR, BLOCK_SIZE, DEVICE_WORDS, DeviceWords, PINNED, PLUGGED, REGION_SIZE, REQUESTED_SIZE,
    USABLE_SIZE, plug_table,
};
use map_records::map::GuestAddress;

// Is a requested size refused?
pub fn size_fault(device: &DeviceWords, size: u64) -> bool
    requires { Valid (device_at device.now) }
    ensures { result ≡ size_fault (device_at device.now) size }
{
    size % device[BLOCK_SIZE] != 0 || device[REGION_SIZE] < size
}

// Another requested size, and the usable size at least that.
pub fn set_requested(device: &mut DeviceWords, size: u64)
    ensures { device.new ≡ device_words (with_requested (device_at device.old) size) }
{
    device[USABLE_SIZE] = device[USABLE_SIZE].max(size);
    device[REQUESTED_SIZE] = size;
}

// Nothing is plugged or pinned any longer.
pub fn clear_tables(device: &mut DeviceWords)
    ensures { device.new ≡ device_words (fresh (device_at device.old)) }
{
    clear(&mut device[PLUGGED..PINNED]);
    clear(&mut device[PINNED..DEVICE_WORDS]);
}

// May a block be pinned, or let go? It is in the region, plugged, and not so yet. A pinned one is both, so that no more is
// asked of one that is let go.
pub fn can_turn(device: &DeviceWords, b: BlockNumber, on: bool) -> bool
    requires { Valid (device_at device.now) }
    ensures value { result ≡ not (turn_fault (device_at device.now) b.0 on) }
    ensures room { result ≡ true → b.0 < most_blocks }
{
    if !on {
        return is_pinned(device, b);
    }
    let blocks = blocks_in(device, device[REGION_SIZE]);
    usize::from(b.0) < blocks && is_plugged(device, b) && !is_pinned(device, b)
}

// The configuration's bytes.
pub fn put_values(device: &DeviceWords, out: &mut [u8])
    requires { Valid (device_at device.now) × (length out.old ≡ configuration_length) }
    ensures { out.new ≡ configuration_of (device_at device.now) }
{
    let addr = GuestAddress(device[ADDR]);
    let size = plugged_size(device[BLOCK_SIZE], plug_table(device));
    put_configuration(
        out,
        device[BLOCK_SIZE],
        addr,
        device[REGION_SIZE],
        device[USABLE_SIZE],
        size,
        device[REQUESTED_SIZE],
    );
}
