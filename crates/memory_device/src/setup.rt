// Setting the device up from a given map.
ghost use Rattle.std.specs.Prelude.{◌≡◌};
ghost use Rattle.map_records.specs.Words.{map_of};
ghost use Rattle.device_words.specs.Device.{no_device};
ghost use Rattle.memory_device.specs.Record.{record_of};
ghost use Rattle.memory_device.specs.SetUp.{region_size, fresh_device, set_up, set_up_fault_reply, set_up_outcome_of};
ghost use Rattle.memory_device.specs.declared.setup.SetUpFault.TheVariants.{Map};

use crate::device::{MemoryDevice, no_device};
use crate::refused::Refused;
use device_words::rules::setup_ok;
use device_words::table::TABLE_WORDS;
use map_check::answer::Fault;
use map_check::check::{MapFault, checked_map};
use map_check::checked::CheckedMap;
use map_records::kind::Kind;
use map_records::map::GuestAddress;
use map_records::refusal::Refusal;
use map_records::words::region_at;

// What the host chooses. The region's size is the managed region's.
#[derive(Clone, Copy, Debug, PartialEq, Eq)]
pub struct DeviceValues {
    pub block_size: u64,
    pub addr: GuestAddress,
    pub usable_size: u64,
    pub requested_size: u64,
}

impl DeviceValues {
    // The device of these values and a region, with nothing plugged or pinned.
    fn fresh(self, region_size: u64) -> MemoryDevice
        ensures { record_of result ≡ fresh_device self region_size }
    {
        MemoryDevice {
            block_size: self.block_size,
            addr: self.addr,
            region_size,
            usable_size: self.usable_size,
            requested_size: self.requested_size,
            plugged: [0; TABLE_WORDS],
            pinned: [0; TABLE_WORDS],
        }
    }
}

// What the map's check refuses with, or that the values break SETUP's rules (13).
#[derive(Clone, Copy, Debug, PartialEq, Eq)]
pub enum SetUpFault {
    Map(MapFault),
    Values,
}

impl Fault for SetUpFault {
    ghost reply = { set_up_fault_reply };

    fn refusal(self) -> Refusal {
        match self {
            SetUpFault::Map(fault) => fault.refusal(),
            SetUpFault::Values => Refusal::SetUp,
        }
    }
}

impl<V: Copy> From<Refused<SetUpFault, V>> for SetUpFault {
    ghost from_gives = { λ refused fault. fault ≡ refused.fault };

    fn from(refused: Refused<SetUpFault, V>) -> SetUpFault {
        refused.fault
    }
}

impl From<MapFault> for SetUpFault {
    ghost from_gives = { λ f e. e ≡ Map f };

    fn from(fault: MapFault) -> SetUpFault {
        SetUpFault::Map(fault)
    }
}

// The refusal of a set-up: no device is left, which is the record of zeros.
fn refused(fault: SetUpFault) -> Refused<SetUpFault, MemoryDevice>
    ensures { (result.fault ≡ fault) × (record_of result.left ≡ no_device) }
{
    Refused {
        fault,
        left: no_device(),
    }
}

// The size of the managed region, or 0.
fn managed_size(map: &CheckedMap) -> u64
    ensures { result ≡ region_size (map_of map.now) }
{
    let words = map.words();
    (0..map.count())
        .map(|n| region_at(words, n))
        .rfind(|region| region.has_kind(Kind::Managed))
        .map_or(0, |region| region.size)
}

// The fresh device of a map that is judged first, or a refusal with the record of zeros.
pub fn set_up(
    map: &[u64],
    memory_length: u64,
    values: DeviceValues,
) -> Result<MemoryDevice, Refused<SetUpFault, MemoryDevice>>
    ensures { set_up_outcome_of result ≡ set_up (map_of map.now) memory_length values }
{
    let map = checked_map(map, memory_length).map_err(|fault| refused(fault.into()))?;
    let region_size = managed_size(&map);
    if !setup_ok(
        values.block_size,
        values.addr,
        region_size,
        values.usable_size,
        values.requested_size,
    ) {
        return Err(refused(SetUpFault::Values));
    }
    Ok(values.fresh(region_size))
}
