// The records of a region map. Every field is a plain number as it stands on a sheet, so that a given
// map can be wrong in each way that document 01 refuses.
ghost use Rattle.std.specs.Prelude.{◌≡◌, eqb};
ghost use Rattle.map_records.specs.Map.{kind_number, has_memory, has as has_field, value_of, with_value};

use crate::kind::Kind;

// Document 01's guest address.
#[derive(Clone, Copy, Debug, PartialEq, Eq)]
pub struct GuestAddress(pub u64);

// Document 01's offset inside a node.
#[derive(Clone, Copy, Debug, PartialEq, Eq)]
pub struct RegionOffset(pub u64);

// Do the bytes of a region of this kind lie in guest memory?
pub fn has_memory(kind: u64) -> bool
    ensures { result ≡ has_memory kind }
{
    match Kind::try_from(kind) {
        Ok(known) => known.has_memory(),
        Err(_) => false,
    }
}

// The most regions of a map.
pub const REGIONS: usize = 32;

// Document 01's node. `parent` is the parent's number + 1, and 0 where there is none.
#[derive(Clone, Copy, Debug, PartialEq, Eq)]
pub struct Region {
    pub kind: u64,
    pub parent: usize,
    pub offset: u64,
    pub size: u64,
    pub priority: u64,
    pub memory_start: u64,
    pub port: u64,
    pub target: usize,
    pub alias_offset: u64,
}

// What an address leads to: a region, and the offset inside it.
#[derive(Clone, Copy, Debug, PartialEq, Eq)]
pub struct Found {
    pub region: usize,
    pub offset: RegionOffset,
}

// Document 01's map: the first `count` regions, the root last. What stands past them does not count. A map lies
// as words with its owner, and only definitions speak of this record.
#[derive(Drop)]
pub struct RegionMap {
    pub count: usize,
    pub regions: [Region; REGIONS],
}

// The fields of a region besides its kind.
#[derive(Clone, Copy, Debug, PartialEq, Eq)]
pub enum Field {
    Parent,
    Offset,
    Size,
    Priority,
    MemoryStart,
    Port,
    Target,
    AliasOffset,
}

// Does a region of this kind have the field?
pub fn has(kind: u64, field: Field) -> bool
    ensures { result ≡ has_field kind field }
{
    match field {
        Field::MemoryStart => has_memory(kind),
        Field::Port => kind == Kind::Mmio.number(),
        Field::Target | Field::AliasOffset => kind == Kind::Alias.number(),
        _ => true,
    }
}

impl Region {
    // Is it of this kind?
    pub fn has_kind(self, kind: Kind) -> bool
        ensures { result ≡ eqb self.kind (kind_number kind) }
    {
        self.kind == kind.number()
    }

    pub fn value_of(self, field: Field) -> u64
        ensures { result ≡ value_of field self }
    {
        match field {
            Field::Parent => self.parent as u64,
            Field::Offset => self.offset,
            Field::Size => self.size,
            Field::Priority => self.priority,
            Field::MemoryStart => self.memory_start,
            Field::Port => self.port,
            Field::Target => self.target as u64,
            Field::AliasOffset => self.alias_offset,
        }
    }

    pub fn with_value(mut self, field: Field, value: u64) -> Region
        ensures { result ≡ with_value field value self }
    {
        match field {
            Field::Parent => self.parent = value as usize,
            Field::Offset => self.offset = value,
            Field::Size => self.size = value,
            Field::Priority => self.priority = value,
            Field::MemoryStart => self.memory_start = value,
            Field::Port => self.port = value,
            Field::Target => self.target = value as usize,
            Field::AliasOffset => self.alias_offset = value,
        }
        self
    }
}
