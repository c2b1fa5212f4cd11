// Document 01's kinds of region. A record has its kind as the number that was given, so that a map can have every
// fault that 4 refuses and a view every fault that 27 refuses. What the code does by kind, it does by this type.
ghost use Rattle.std.specs.Prelude.{◌≡◌};
ghost use Rattle.map_records.specs.Map.{kind_number, Decodes, kind_has_memory};

#[derive(Clone, Copy, Debug, PartialEq, Eq)]
pub enum Kind {
    Container,
    Ram,
    Mmio,
    Alias,
    Managed,
}

// A number that names no kind.
#[derive(Clone, Copy, Debug, PartialEq, Eq)]
pub struct UnknownKind(pub u64);

impl TryFrom<u64> for Kind {
    type Error = UnknownKind;

    ghost try_from_gives = { Decodes };

    fn try_from(number: u64) -> Result<Self, UnknownKind> {
        match number {
            0 => Ok(Kind::Container),
            1 => Ok(Kind::Ram),
            2 => Ok(Kind::Mmio),
            3 => Ok(Kind::Alias),
            4 => Ok(Kind::Managed),
            _ => Err(UnknownKind(number)),
        }
    }
}

impl Kind {
    // The number of a kind on a sheet.
    pub fn number(self) -> u64
        ensures { result ≡ kind_number self }
    {
        match self {
            Kind::Container => 0,
            Kind::Ram => 1,
            Kind::Mmio => 2,
            Kind::Alias => 3,
            Kind::Managed => 4,
        }
    }

    // Do the bytes of a region of this kind lie in guest memory?
    pub fn has_memory(self) -> bool
        ensures { result ≡ kind_has_memory self }
    {
        matches!(self, Kind::Ram | Kind::Managed)
    }
}
