// The memory device: set-up and the host's calls.
ghost use Rattle.std.specs.Prelude.{◌≡◌};
ghost use Rattle.map_records.specs.Words.{map_of};
ghost use Rattle.memory_device.specs.Leaves.{LeavesDevice};
ghost use Rattle.memory_device.specs.SetUp.{set_up, set_up_fault_reply, set_up_reply};
ghost use Rattle.wicktumble.specs.Result.{Returns, places};
ghost use Rattle.wicktumble.specs.Maps.{ReturnsRecord};
ghost use Rattle.wicktumble.specs.Devices.{values_of, set_up_call, ReturnsWords, resize_call, pin_call, unpin_call, reset_call};
ghost use Rattle.wicktumble.specs.Devices.{configuration_call, ReturnsRequest, request_call, block_call};
ghost use Rattle.wicktumble.specs.Promises.{block_words};

use crate::result::{RESULT_WORDS, Told, refused, tell};
use device_words::block::BlockNumber;
use device_words::words::DEVICE_WORDS;
use map_check::answer::number_of;
use map_records::map::{GuestAddress, RegionOffset};
use map_records::refusal::Refusal;
use map_records::words::MAP_WORDS;
use memory_device::calls;
use memory_device::device::words_of;
use memory_device::setup::{DeviceValues, SetUpFault, set_up};

// The regions that the check of the map names.
impl Told for SetUpFault {
    ghost told = { λ f. places (set_up_fault_reply f) };

    fn words(self) -> [u64; RESULT_WORDS] {
        match self {
            SetUpFault::Map(fault) => fault.words(),
            SetUpFault::Values => [0; RESULT_WORDS],
        }
    }
}

// The fresh device into its words, which stay as they are on a refusal.
fn put_fresh(
    map: &[u64],
    memory_length: u64,
    values: DeviceValues,
    device: &mut [u64; DEVICE_WORDS],
) -> Result<(), SetUpFault>
    ensures { LeavesDevice (set_up (map_of map.now) memory_length values) device.old
        (set_up_reply result) device.new }
{
    *device = words_of(set_up(map, memory_length, values)?);
    Ok(())
}

// The call sets a fresh device up from a map. It refuses with 3, 4, 6 to 11 (the result has the two
// regions), 13 and 27.
pub fn wt_set_up(
    map: &[u64],
    memory_length: u64,
    block_size: u64,
    addr: u64,
    usable_size: u64,
    requested_size: u64,
    device: &mut [u64],
    res: &mut [u64],
) -> u64
    ensures { ReturnsRecord (set_up_call map.now memory_length
        (values_of block_size addr usable_size requested_size) device.old res.old)
        result device.new res.new }
{
    let Some(map) = map.as_array::<MAP_WORDS>() else {
        return refused(Refusal::Record);
    };
    let Some(device) = device.as_mut_array() else {
        return refused(Refusal::Record);
    };
    let Some(res) = res.as_mut_array() else {
        return refused(Refusal::Record);
    };
    let values = DeviceValues {
        block_size,
        addr: GuestAddress(addr),
        usable_size,
        requested_size,
    };
    tell(res, put_fresh(map, memory_length, values, device))
}

// The call sets the size that the host requests of the guest. It refuses with 14 and 27.
pub fn wt_set_requested_size(device: &mut [u64], size: u64) -> u64
    ensures { ReturnsWords (resize_call device.old size) result device.new }
{
    number_of(calls::set_requested_size(device, size))
}

// The call pins a plugged block. It refuses with 15 and 27.
pub fn wt_pin(device: &mut [u64], block: u64) -> u64
    ensures { ReturnsWords (pin_call device.old block) result device.new }
{
    number_of(calls::pin(device, block))
}

// The call takes the pin from a block. It refuses with 15 and 27.
pub fn wt_unpin(device: &mut [u64], block: u64) -> u64
    ensures { ReturnsWords (unpin_call device.old block) result device.new }
{
    number_of(calls::unpin(device, block))
}

// The call gives the device its fresh state back. It refuses with 27.
pub fn wt_system_reset(device: &mut [u64]) -> u64
    ensures { ReturnsWords (reset_call device.old) result device.new }
{
    number_of(calls::system_reset(device))
}

// The call writes the 56 bytes of configuration that the guest reads. It refuses with 27.
pub fn wt_configuration(device: &[u64], bytes: &mut [u8]) -> u64
    ensures { ReturnsWords (configuration_call device.now bytes.old) result bytes.new }
{
    number_of(calls::configuration(device, bytes))
}

// The call carries out one request of the guest without a queue: 24 bytes, and ten for the response.
// It refuses with 27.
pub fn wt_request(device: &mut [u64], request: &[u8], response: &mut [u8]) -> u64
    ensures { ReturnsRequest (request_call device.old request.now response.old)
        result device.new response.new }
{
    let Some(request) = request.as_array() else {
        return refused(Refusal::Record);
    };
    number_of(calls::carry_out(device, *request, response))
}

// 1 and the block, or zeros for a byte outside the region.
impl Told for Option<BlockNumber> {
    ghost told = { block_words };

    fn words(self) -> [u64; RESULT_WORDS] {
        match self {
            Some(block) => [1, u64::from(block.0), 0],
            None => [0; RESULT_WORDS],
        }
    }
}

// The call finds the block in which a byte lies, by its offset in the device's region. The result has 1
// and the block, or zeros for a byte outside the region. The call refuses with 27.
pub fn wt_block_of_byte(device: &[u64], offset: u64, res: &mut [u64]) -> u64
    ensures { Returns (block_call device.now offset res.old) result res.new }
{
    let Some(device) = device.as_array::<DEVICE_WORDS>() else {
        return refused(Refusal::Record);
    };
    let Some(res) = res.as_mut_array() else {
        return refused(Refusal::Record);
    };
    tell(res, calls::block_of_byte(device, RegionOffset(offset)))
}
