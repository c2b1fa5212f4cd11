// What an access is answered: where it leads, or a refusal.
ghost use Rattle.std.specs.Prelude.{◌≡◌};
ghost use Rattle.routing.specs.Route.{fault_reply};
ghost use Rattle.routing.specs.declared.answer.RouteFault.TheVariants.{Record};

use map_check::answer::{Fault, RecordFault};
use map_records::map::RegionOffset;
use map_records::refusal::Refusal;

// Where an access leads: to a memory place, or to a port and the offset in its region.
#[derive(Clone, Copy, Debug, PartialEq, Eq)]
pub enum Route {
    Memory(u64),
    Port(u64, RegionOffset),
}

// Document 01's refusals of an access: 23 to 27.
#[derive(Clone, Copy, Debug, PartialEq, Eq)]
pub enum RouteFault {
    Width,
    Hole,
    Split,
    Unplugged,
    Record,
}

impl Fault for RouteFault {
    ghost reply = { fault_reply };

    fn refusal(self) -> Refusal {
        match self {
            RouteFault::Width => Refusal::Width,
            RouteFault::Hole => Refusal::Hole,
            RouteFault::Split => Refusal::Split,
            RouteFault::Unplugged => Refusal::Unplugged,
            RouteFault::Record => Refusal::Record,
        }
    }
}

impl From<RecordFault> for RouteFault {
    ghost from_gives = { λ _ e. e ≡ Record };

    fn from(_fault: RecordFault) -> RouteFault {
        RouteFault::Record
    }
}
