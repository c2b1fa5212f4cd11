// The flat view of a map: the guest addresses as ranges, each of one region.
ghost use Rattle.std.specs.Prelude.{◌≡◌};
ghost use Rattle.map_records.specs.Words.{map_of};
ghost use Rattle.region_map.specs.Flatten.{flat_fault_reply, flat_reply, flattened_into};
ghost use Rattle.region_map.specs.declared.view.FlatFault.TheVariants.{Map, TooMany};

use crate::flat::{TooManyRanges, sweep};
use map_check::answer::Fault;
use map_check::check::{MapFault, checked_map};
use map_records::refusal::Refusal;
use map_records::words::VIEW_WORDS;

// Why there is no view: what the map's check says, or that an accepted map has more than 256 ranges, or that the
// lent words are not those of a view.
#[derive(Clone, Copy, Debug, PartialEq, Eq)]
pub enum FlatFault {
    Map(MapFault),
    TooMany,
    Record,
}

impl Fault for FlatFault {
    ghost reply = { flat_fault_reply };

    fn refusal(self) -> Refusal {
        match self {
            FlatFault::Map(fault) => fault.refusal(),
            FlatFault::TooMany => Refusal::Runs,
            FlatFault::Record => Refusal::Record,
        }
    }
}

impl From<MapFault> for FlatFault {
    ghost from_gives = { λ fault e. e ≡ Map fault };

    fn from(fault: MapFault) -> FlatFault {
        FlatFault::Map(fault)
    }
}

impl From<TooManyRanges> for FlatFault {
    ghost from_gives = { λ _ e. e ≡ TooMany };

    fn from(_full: TooManyRanges) -> FlatFault {
        FlatFault::TooMany
    }
}

// The flat view of a map that is judged first, laid into the lent words; on a refusal they stay as they are.
pub fn flatten(map: &[u64], memory_length: u64, view: &mut [u64]) -> Result<(), FlatFault>
    ensures { (flat_reply result ≡ (flattened_into (map_of map.now) memory_length view.old).reply)
        × (view.new ≡ (flattened_into (map_of map.now) memory_length view.old).words) }
{
    if view.len() != VIEW_WORDS {
        return Err(FlatFault::Record);
    }
    let map = checked_map(map, memory_length)?;
    let mut made = [0u64; VIEW_WORDS];
    sweep(&map, &mut made)?;
    view.copy_from_slice(&made);
    Ok(())
}
