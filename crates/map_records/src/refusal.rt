// Document 01's refusals, by its names and in the order of its numbers.
ghost use Rattle.std.specs.Prelude.{◌≡◌};
ghost use Rattle.map_records.specs.Refusal.{number};

#[derive(Clone, Copy, Debug, PartialEq, Eq)]
pub enum Refusal {
    Short,
    Number,
    Count,
    Kind,
    Tail,
    Field,
    Link,
    Memory,
    Managed,
    Port,
    Overlap,
    Runs,
    SetUp,
    Size,
    Pin,
    Queue,
    Ring,
    Ahead,
    Head,
    Chain,
    Reach,
    Shape,
    Width,
    Hole,
    Split,
    Unplugged,
    Record,
}

impl Refusal {
    // Document 01's number: the first is 1.
    pub fn number(self) -> u8
        ensures { result ≡ number self }
    {
        self as u8 + 1
    }
}
