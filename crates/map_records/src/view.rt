// The records of a flat view.
ghost use Rattle.std.specs.Prelude.{◌≡◌, eqb};
ghost use Rattle.map_records.specs.Map.{kind_number};

use crate::kind::Kind;
use crate::map::{GuestAddress, RegionOffset};

// The most ranges of a view.
pub const RANGES: usize = 256;

// Document 01's run: addresses first to last lead to a region, from an offset on. `base` is the
// region's memory start or port.
#[derive(Clone, Copy)]
pub struct FlatRange {
    pub first: GuestAddress,
    pub last: GuestAddress,
    pub region: usize,
    pub offset: RegionOffset,
    pub kind: u64,
    pub base: u64,
}

impl FlatRange {
    // Is its region of this kind?
    pub fn has_kind(self, kind: Kind) -> bool
        ensures { result ≡ eqb self.kind (kind_number kind) }
    {
        self.kind == kind.number()
    }
}

// Document 01's flat list: the first `count` ranges, ascending. A view lies as words with its owner, and only
// definitions speak of this record.
#[derive(Drop)]
pub struct FlatView {
    pub count: usize,
    pub ranges: [FlatRange; RANGES],
}
