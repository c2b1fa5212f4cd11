// The refusal of a call by value, which returns a value too.
ghost use Rattle.std.specs.Prelude.{◌≡◌};
ghost use Rattle.memory_device.specs.Refused.{refused_reply};

use map_check::answer::{Fault, RecordFault};
use map_records::refusal::Refusal;

// The fault, and the value to go on with: the one that was passed, or zeros.
#[derive(Clone, Copy, Debug, PartialEq, Eq)]
pub struct Refused<E, V> {
    pub fault: E,
    pub left: V,
}

impl<E: Fault, V: Copy> Fault for Refused<E, V> {
    ghost reply = { refused_reply E.reply };

    fn refusal(self) -> Refusal {
        self.fault.refusal()
    }
}

// `?` keeps the fault and drops the value. Each other fault has its own `From`, where it is declared.
impl<V: Copy> From<Refused<RecordFault, V>> for RecordFault {
    ghost from_gives = { λ refused fault. fault ≡ refused.fault };

    fn from(refused: Refused<RecordFault, V>) -> RecordFault {
        refused.fault
    }
}
