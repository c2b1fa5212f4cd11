// The device's record, and the words in which it lies.
ghost use Rattle.std.specs.Prelude.{◌≡◌};
ghost use Rattle.device_words.specs.Device.{no_device, with_tables};
ghost use Rattle.device_words.specs.Words.{device_at, device_of, device_words};
ghost use Rattle.memory_device.specs.Record.{record_of, host_fault_reply};
ghost use Rattle.memory_device.specs.declared.device.HostFault.TheVariants.{Record};

use crate::refused::Refused;
use device_words::table::{TABLE_WORDS, TableWords};
use device_words::words::{
    ADDR, BLOCK_SIZE, DEVICE_WORDS, DeviceWords, PINNED, PLUGGED, REGION_SIZE, REQUESTED_SIZE,
    USABLE_SIZE, pin_table, plug_table,
};
use map_check::answer::{Fault, RecordFault};
use map_records::map::GuestAddress;
use map_records::refusal::Refusal;

// The memory device. Block b is plugged, or pinned, where bit b % 64 of word b / 64 is set.
#[derive(Clone, Copy, Debug, PartialEq, Eq)]
pub struct MemoryDevice {
    pub block_size: u64,
    pub addr: GuestAddress,
    pub region_size: u64,
    pub usable_size: u64,
    pub requested_size: u64,
    pub plugged: TableWords,
    pub pinned: TableWords,
}

// What a call of the host refuses with: 14, 15 or 27 of document 01.
#[derive(Clone, Copy, Debug, PartialEq, Eq)]
pub enum HostFault {
    Size,
    Pin,
    Record,
}

impl Fault for HostFault {
    ghost reply = { host_fault_reply };

    fn refusal(self) -> Refusal {
        match self {
            HostFault::Size => Refusal::Size,
            HostFault::Pin => Refusal::Pin,
            HostFault::Record => Refusal::Record,
        }
    }
}

impl<V: Copy> From<Refused<HostFault, V>> for HostFault {
    ghost from_gives = { λ refused fault. fault ≡ refused.fault };

    fn from(refused: Refused<HostFault, V>) -> HostFault {
        refused.fault
    }
}

impl<V: Copy> From<Refused<RecordFault, V>> for HostFault {
    ghost from_gives = { λ _ fault. fault ≡ Record };

    fn from(_refused: Refused<RecordFault, V>) -> HostFault {
        HostFault::Record
    }
}

impl From<RecordFault> for HostFault {
    ghost from_gives = { λ _ e. e ≡ Record };

    fn from(_fault: RecordFault) -> HostFault {
        HostFault::Record
    }
}

// Both tables into a device's words.
fn put_tables(words: &mut DeviceWords, plugged: TableWords, pinned: TableWords)
    ensures { words.new ≡ device_words (with_tables (device_at words.old) plugged pinned) }
{
    words[PLUGGED..PINNED].copy_from_slice(&plugged);
    words[PINNED..DEVICE_WORDS].copy_from_slice(&pinned);
}

// The words of a record. A `From` would be no plainer: at a call it would not say what the 37 numbers are.
pub fn words_of(device: MemoryDevice) -> DeviceWords
    ensures { (result ≡ device_words (record_of device)) × (device_of result ≡ record_of device) }
{
    let mut words = [0; DEVICE_WORDS];
    words[BLOCK_SIZE] = device.block_size;
    words[ADDR] = device.addr.0;
    words[REGION_SIZE] = device.region_size;
    words[USABLE_SIZE] = device.usable_size;
    words[REQUESTED_SIZE] = device.requested_size;
    put_tables(&mut words, device.plugged, device.pinned);
    words
}

// The record that words stand for: those of another number are a record of zeros. No `TryFrom`, since each slice stands for one.
pub fn device_of(words: &[u64]) -> MemoryDevice
    ensures { record_of result ≡ device_of words.now }
{
    let Some(words) = words.as_array() else {
        return no_device();
    };
    MemoryDevice {
        block_size: words[BLOCK_SIZE],
        addr: GuestAddress(words[ADDR]),
        region_size: words[REGION_SIZE],
        usable_size: words[USABLE_SIZE],
        requested_size: words[REQUESTED_SIZE],
        plugged: *plug_table(words),
        pinned: *pin_table(words),
    }
}

// The record of zeros, which 27 refuses.
pub fn no_device() -> MemoryDevice
    ensures { record_of result ≡ no_device }
{
    MemoryDevice {
        block_size: 0,
        addr: GuestAddress(0),
        region_size: 0,
        usable_size: 0,
        requested_size: 0,
        plugged: [0; TABLE_WORDS],
        pinned: [0; TABLE_WORDS],
    }
}
