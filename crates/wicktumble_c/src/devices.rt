// The memory device: set-up and the host's calls.
ghost use Rattle.wicktumble.specs.Result.{Returns};
ghost use Rattle.wicktumble.specs.Maps.{ReturnsRecord};
ghost use Rattle.wicktumble.specs.Devices.{values_of, set_up_call, ReturnsWords, resize_call, pin_call, unpin_call, reset_call};
ghost use Rattle.wicktumble.specs.Devices.{configuration_call, ReturnsRequest, request_call, block_call};

// The call sets a fresh device up from a map. It refuses with 3, 4, 6 to 11 (the result has the two
// regions), 13 and 27.
#[unsafe(no_mangle)]
pub extern "C" fn wt_set_up(
    map: &[u64],
    memory_length: u64,
    block_size: u64,
    addr: u64,
    usable_size: u64,
    requested_size: u64,
    device: &mut [u64],
    res: &mut [u64],
) -> u64
    ensures { ReturnsRecord (set_up_call map.now memory_length
        (values_of block_size addr usable_size requested_size) device.old res.old)
        result device.new res.new }
{
    wicktumble::devices::wt_set_up(
        map,
        memory_length,
        block_size,
        addr,
        usable_size,
        requested_size,
        device,
        res,
    )
}

// The call sets the size that the host requests of the guest. It refuses with 14 and 27.
#[unsafe(no_mangle)]
pub extern "C" fn wt_set_requested_size(device: &mut [u64], size: u64) -> u64
    ensures { ReturnsWords (resize_call device.old size) result device.new }
{
    wicktumble::devices::wt_set_requested_size(device, size)
}

// The call pins a plugged block. It refuses with 15 and 27.
#[unsafe(no_mangle)]
pub extern "C" fn wt_pin(device: &mut [u64], block: u64) -> u64
    ensures { ReturnsWords (pin_call device.old block) result device.new }
{
    wicktumble::devices::wt_pin(device, block)
}

// The call takes the pin from a block. It refuses with 15 and 27.
#[unsafe(no_mangle)]
pub extern "C" fn wt_unpin(device: &mut [u64], block: u64) -> u64
    ensures { ReturnsWords (unpin_call device.old block) result device.new }
{
    wicktumble::devices::wt_unpin(device, block)
}

// The call gives the device its fresh state back. It refuses with 27.
#[unsafe(no_mangle)]
pub extern "C" fn wt_system_reset(device: &mut [u64]) -> u64
    ensures { ReturnsWords (reset_call device.old) result device.new }
{
    wicktumble::devices::wt_system_reset(device)
}

// The call writes the 56 bytes of configuration that the guest reads. It refuses with 27.
#[unsafe(no_mangle)]
pub extern "C" fn wt_configuration(device: &[u64], bytes: &mut [u8]) -> u64
    ensures { ReturnsWords (configuration_call device.now bytes.old) result bytes.new }
{
    wicktumble::devices::wt_configuration(device, bytes)
}

// The call carries out one request of the guest without a queue: 24 bytes, and ten for the response.
// It refuses with 27.
#[unsafe(no_mangle)]
pub extern "C" fn wt_request(device: &mut [u64], request: &[u8], response: &mut [u8]) -> u64
    ensures { ReturnsRequest (request_call device.old request.now response.old)
        result device.new response.new }
{
    wicktumble::devices::wt_request(device, request, response)
}

// The call finds the block in which a byte lies, by its offset in the device's region. The result has 1
// and the block, or zeros for a byte outside the region. The call refuses with 27.
#[unsafe(no_mangle)]
pub extern "C" fn wt_block_of_byte(device: &[u64], offset: u64, res: &mut [u64]) -> u64
    ensures { Returns (block_call device.now offset res.old) result res.new }
{
    wicktumble::devices::wt_block_of_byte(device, offset, res)
}
