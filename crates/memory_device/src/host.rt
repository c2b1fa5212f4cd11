// The host's calls on a record by value: each is the call on its words where they lie. Both are there, since document 01's
// form is a record whose methods take self, and a host keeps its device as words.
ghost use Rattle.std.specs.Prelude.{◌≡◌};
ghost use Rattle.device_words.specs.Device.{device_ok};
ghost use Rattle.memory_device.specs.Record.{record_of, host_outcome_of, record_outcome_of};
ghost use Rattle.std.specs.Fn.{FnOnceReturnsAtMut};
ghost use Rattle.device_words.specs.Words.{device_words};
ghost use Rattle.memory_device.specs.Leaves.{Changes};
ghost use Rattle.memory_device.specs.Host.{resized, pin_block, unpin_block, system_reset, configured, read_of, byte_block, byte_of};

use crate::calls;
use crate::device::{HostFault, MemoryDevice, device_of, words_of};
use crate::refused::Refused;
use device_words::block::BlockNumber;
use device_words::bytes::CONFIGURATION_BYTES;
use device_words::rules::device_ok;
use map_check::answer::RecordFault;
use map_records::map::RegionOffset;

impl MemoryDevice {
    // The call on the record's words, and the record that they are then. A refusal leaves the record as it was.
    fn changed<E, F: FnOnce(&mut [u64]) -> Result<(), E>>(
        self,
        call: F,
    ) -> Result<MemoryDevice, Refused<E, MemoryDevice>>
        requires { F.IsAlwaysCallable call }
        ensures { Changes (record_of self) (λ answer words. FnOnceReturnsAtMut F.FnOnce call (device_words (record_of self)) answer words) result }
    {
        let mut words = words_of(self);
        call(&mut words).map_err(|fault| Refused { fault, left: self })?;
        Ok(device_of(&words))
    }

    // 27's test of a device record.
    pub fn keeps_rules(self) -> bool
        ensures { result ≡ device_ok (record_of self) }
    {
        device_ok(&words_of(self))
    }

    // The requested size is set, and raises the usable size to it if that is lower.
    pub fn set_requested_size(
        self,
        size: u64,
    ) -> Result<MemoryDevice, Refused<HostFault, MemoryDevice>>
        ensures { host_outcome_of result ≡ resized (record_of self) size }
    {
        self.changed(|words| calls::set_requested_size(words, size))
    }

    // A system reset: the fresh state, with the sizes and addr as they are.
    pub fn system_reset(self) -> Result<MemoryDevice, Refused<RecordFault, MemoryDevice>>
        ensures { record_outcome_of result ≡ system_reset (record_of self) }
    {
        self.changed(|words| calls::system_reset(words))
    }

    // A block that the host holds, so that it is not unplugged.
    pub fn pin(self, block: BlockNumber) -> Result<MemoryDevice, Refused<HostFault, MemoryDevice>>
        ensures { host_outcome_of result ≡ pin_block (record_of self) block.0 }
    {
        self.changed(|words| calls::pin(words, u64::from(block.0)))
    }

    // A block that the host holds no longer.
    pub fn unpin(self, block: BlockNumber) -> Result<MemoryDevice, Refused<HostFault, MemoryDevice>>
        ensures { host_outcome_of result ≡ unpin_block (record_of self) block.0 }
    {
        self.changed(|words| calls::unpin(words, u64::from(block.0)))
    }

    // The configuration that the guest reads. A refusal leaves zeros.
    pub fn configuration(
        self,
    ) -> Result<[u8; CONFIGURATION_BYTES], Refused<RecordFault, [u8; CONFIGURATION_BYTES]>>
        ensures { read_of result ≡ configured (record_of self) }
    {
        let mut bytes = [0; CONFIGURATION_BYTES];
        calls::configuration(&words_of(self), &mut bytes).map_err(|fault| Refused {
            fault,
            left: [0; CONFIGURATION_BYTES],
        })?;
        Ok(bytes)
    }

    // Document 01's block of a byte, or none where the byte lies outside the region: by the offset in the managed region.
    pub fn block_of_byte(self, offset: RegionOffset) -> Result<Option<BlockNumber>, RecordFault>
        ensures { byte_of result ≡ byte_block (record_of self) offset.0 }
    {
        calls::block_of_byte(&words_of(self), offset)
    }
}
