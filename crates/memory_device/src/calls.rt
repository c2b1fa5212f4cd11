// The host's calls and the guest's requests, on a device's words where they lie. Each judges 27 first; a refusal leaves the
// words as they were, and a slice of another length is refused with 27.
ghost use Rattle.std.specs.Prelude.{◌≡◌, is_ok, IfOk};
ghost use Rattle.device_words.specs.Words.{device_of};
ghost use Rattle.device_words.specs.Device.{device_ok};
ghost use Rattle.memory_device.specs.Record.{host_reply, record_reply};
ghost use Rattle.memory_device.specs.Host.{resized, turn_pin, pin_block, unpin_block, system_reset, configured_into, byte_block, byte_of};
ghost use Rattle.memory_device.specs.Request.{carried_into};
ghost use Rattle.memory_device.specs.Leaves.{LeavesDevice, ReadsConfiguration, Carries};

use crate::device::HostFault;
use crate::state::{can_turn, clear_tables, put_values, set_requested, size_fault};
use device_words::answer::respond;
use device_words::block::{BlockNumber, block_of, block_of_host};
use device_words::bytes::{CONFIGURATION_BYTES, REQUEST_BYTES, RESPONSE_BYTES};
use device_words::pins::set_pin;
use device_words::rules::valid;
use device_words::words::{DeviceWords, block_size, region_size};
use map_check::answer::RecordFault;
use map_records::map::RegionOffset;

// 27 first: the words that are no device's, or a record that breaks its rules. A call that changes the words takes them as an
// array after it: as many as a device has, so that `unwrap` has nothing to refuse.
fn check(device: &[u64]) -> Result<&DeviceWords, RecordFault>
    ensures judged { is_ok result ≡ device_ok (device_of device.now) }
    ensures same { IfOk result (λ words. words.now ≡ device.now) }
{
    valid(device).ok_or(RecordFault)
}

// The requested size is set, and raises the usable size to it if that is lower.
pub fn set_requested_size(device: &mut [u64], size: u64) -> Result<(), HostFault>
    ensures { LeavesDevice (resized (device_of device.old) size) device.old (host_reply result) device.new }
{
    check(device)?;
    let device = device.as_mut_array().unwrap();
    if size_fault(device, size) {
        return Err(HostFault::Size);
    }
    set_requested(device, size);
    Ok(())
}

// A system reset: the fresh state, with the sizes and addr as they are.
pub fn system_reset(device: &mut [u64]) -> Result<(), RecordFault>
    ensures { LeavesDevice (system_reset (device_of device.old)) device.old (record_reply result) device.new }
{
    check(device)?;
    let device = device.as_mut_array().unwrap();
    clear_tables(device);
    Ok(())
}

// A block pinned, or let go: `on` is what its bit becomes. A number past every block is refused like any other outside the
// region.
fn turn_pin(device: &mut [u64], block: u64, on: bool) -> Result<(), HostFault>
    ensures { LeavesDevice (turn_pin (device_of device.old) block on) device.old (host_reply result) device.new }
{
    check(device)?;
    let device = device.as_mut_array().unwrap();
    let b = block_of_host(block);
    if !can_turn(device, b, on) {
        return Err(HostFault::Pin);
    }
    set_pin(device, b, on);
    Ok(())
}

// A block that the host holds, so that it is not unplugged.
pub fn pin(device: &mut [u64], block: u64) -> Result<(), HostFault>
    ensures { LeavesDevice (pin_block (device_of device.old) block) device.old (host_reply result) device.new }
{
    turn_pin(device, block, true)
}

// A block that the host holds no longer.
pub fn unpin(device: &mut [u64], block: u64) -> Result<(), HostFault>
    ensures { LeavesDevice (unpin_block (device_of device.old) block) device.old (host_reply result) device.new }
{
    turn_pin(device, block, false)
}

// The configuration that the guest reads, into 56 bytes.
pub fn configuration(device: &[u64], bytes: &mut [u8]) -> Result<(), RecordFault>
    ensures { ReadsConfiguration (configured_into (device_of device.now) bytes.old) (record_reply result) bytes.new }
{
    if bytes.len() != CONFIGURATION_BYTES {
        return Err(RecordFault);
    }
    let device = check(device)?;
    put_values(device, bytes);
    Ok(())
}

// A request carried out; its response goes into 10 bytes.
pub fn carry_out(
    device: &mut [u64],
    request: [u8; REQUEST_BYTES],
    response: &mut [u8],
) -> Result<(), RecordFault>
    ensures { Carries (carried_into (device_of device.old) request response.old)
        device.old (record_reply result) response.new device.new }
{
    if response.len() != RESPONSE_BYTES {
        return Err(RecordFault);
    }
    check(device)?;
    let device = device.as_mut_array().unwrap();
    response.copy_from_slice(&respond(device, request));
    Ok(())
}

// Document 01's block of a byte, or none where the byte lies outside the region: by the offset in the managed region.
pub fn block_of_byte(
    device: &[u64],
    offset: RegionOffset,
) -> Result<Option<BlockNumber>, RecordFault>
    ensures { byte_of result ≡ byte_block (device_of device.now) offset.0 }
{
    let device = check(device)?;
    if region_size(device) <= offset.0 {
        return Ok(None);
    }
    Ok(Some(block_of(block_size(device), offset)))
}
