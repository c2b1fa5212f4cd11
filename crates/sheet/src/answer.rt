// What reading a sheet can refuse.
ghost use Rattle.std.specs.Prelude.{◌≡◌};
ghost use Rattle.sheet.specs.Answer.{sheet_fault_reply};
ghost use Rattle.sheet.specs.declared.answer.SheetFault.TheVariants.{Map};

use map_check::answer::Fault;
use map_check::check::MapFault;
use map_records::refusal::Refusal;

// A refusal of document 01 at a byte place, 1 to 5; or the lent words are not those of a map; or the sheet was read
// to its end, and the map's check refuses.
#[derive(Clone, Copy, Debug, PartialEq, Eq)]
pub enum SheetFault {
    Short(usize),
    Number(usize),
    Count(usize),
    Kind(usize),
    Tail(usize),
    Record,
    Map(MapFault),
}

impl Fault for SheetFault {
    ghost reply = { sheet_fault_reply };

    fn refusal(self) -> Refusal {
        match self {
            SheetFault::Short(_) => Refusal::Short,
            SheetFault::Number(_) => Refusal::Number,
            SheetFault::Count(_) => Refusal::Count,
            SheetFault::Kind(_) => Refusal::Kind,
            SheetFault::Tail(_) => Refusal::Tail,
            SheetFault::Record => Refusal::Record,
            SheetFault::Map(fault) => fault.refusal(),
        }
    }
}

impl From<MapFault> for SheetFault {
    ghost from_gives = { λ fault f. f ≡ Map fault };

    fn from(fault: MapFault) -> SheetFault {
        SheetFault::Map(fault)
    }
}

// The next byte's place.
#[derive(Clone, Copy, Debug, PartialEq, Eq)]
pub struct Cursor {
    pub at: usize,
}
