// The pins of a device: asked for a run of blocks, set or cleared for one, and held against the plug table.
ghost use Rattle.std.specs.Prelude.{◌≡◌, true, ◌<◌, length};
ghost use Rattle.device_words.specs.Table.{bit_at, implies, most_blocks};
ghost use Rattle.device_words.specs.Device.{is_pinned, any_pinned};
ghost use Rattle.device_words.specs.Words.{device_at, device_length};
ghost use Rattle.device_words.specs.Promises.{pin_words};

use crate::block::BlockNumber;
use crate::table::{BLOCKS, BlockRun, none_set, part_of, with_run};
use crate::words::{DEVICE_WORDS, DeviceWords, PINNED, pin_table, plug_table};

// Is one of a run's blocks pinned? One block is a run of 1, and all are 1,024.
pub fn any_pinned(device: &DeviceWords, run: BlockRun) -> bool
    ensures { result ≡ any_pinned (device_at device.now) run.first.0 run.count }
{
    !none_set(pin_table(device), run)
}

// Is a block pinned? None is from 1,024 on.
pub fn is_pinned(device: &DeviceWords, b: BlockNumber) -> bool
    ensures value { result ≡ is_pinned (device_at device.now) b.0 }
    ensures room { result ≡ true → b.0 < most_blocks }
{
    usize::from(b.0) < BLOCKS && any_pinned(device, BlockRun { first: b, count: 1 })
}

// Is every pinned block plugged?
pub fn pins_plugged(device: &DeviceWords) -> bool
    ensures { result ≡ implies (is_pinned (device_at device.now)) (bit_at (device_at device.now).plugged) }
{
    part_of(pin_table(device), plug_table(device))
}

// A block is pinned, or no longer.
pub fn set_pin(device: &mut DeviceWords, b: BlockNumber, on: bool)
    requires { b.0 < most_blocks }
    ensures { device.new ≡ pin_words device.old b.0 on }
{
    with_run(
        &mut device[PINNED..DEVICE_WORDS],
        BlockRun { first: b, count: 1 },
        on,
    );
}
