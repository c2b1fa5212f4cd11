// The table of pieces that the flat view is made from. A piece is a stretch of addresses that lead to one
// region. The table is filled from the highest priority down, so that a piece takes only what is free.
// Where it is full, what lies furthest gives way and the horizon comes nearer: below it the table is whole.
ghost use Rattle.std.specs.Prelude.{◌≡◌, ◌+◌, ◌*◌, ◌≤◌, ◌<◌, ◌-◌, min, take, length, ◌∷◌};
ghost use Rattle.region_map.specs.Pieces.{piece, piece_shows, seen, itself, is_taken};
ghost use Rattle.region_map.specs.Pieces.{BegunTable, Pieces, SpanFits, Behind, PieceSpot, Fits, Free, TakenUpTo};
ghost use Rattle.map_records.specs.Limits.{limit, most_regions};

use map_records::map::{GuestAddress, RegionOffset};

// The most pieces of a table.
const PIECES: usize = 256;

// The addresses from first up to end, which is not one of them, lead to a region from an offset on.
#[derive(Clone, Copy)]
pub struct Piece {
    pub first: GuestAddress,
    pub end: GuestAddress,
    pub region: usize,
    pub offset: RegionOffset,
}

const NO_PIECE: Piece = Piece {
    first: GuestAddress(0),
    end: GuestAddress(0),
    region: 0,
    offset: RegionOffset(0),
};

// The addresses from first up to end, at which a region is seen from an offset on.
#[derive(Clone, Copy)]
pub struct AddressSpan {
    pub first: GuestAddress,
    pub end: GuestAddress,
    pub offset: RegionOffset,
}

// The nearer of two addresses.
pub fn nearer(a: GuestAddress, b: GuestAddress) -> GuestAddress
    ensures { result.0 ≡ min a.0 b.0 }
{
    GuestAddress(a.0.min(b.0))
}

// A piece put in before the others of a row, whose last one gives way. They move up by one, the last first: not by
// `rotate_right` or `copy_within`, which call `memmove`, and a host without a C library brings only `memcpy` and
// `memset`. Four move in each turn, since 256 pieces that are found the last first take 32,640 moves.
fn put_first(row: &mut [Piece], piece: Piece)
    requires { 0 < length row.old }
    ensures { row.new ≡ piece ∷ take (length row.old - 1) row.old }
{
    let mut k = row.len();
    while 4 < k {
        k -= 4;
        row[k + 3] = row[k + 2];
        row[k + 2] = row[k + 1];
        row[k + 1] = row[k];
        row[k] = row[k - 1];
    }
    while 1 < k {
        k -= 1;
        row[k] = row[k - 1];
    }
    row[0] = piece;
}

// The first `count` pieces, ascending: from `start` up to the horizon they are all that there is. `start` stands
// here for the definitions, which say from where a table is whole.
#[derive(Drop)]
pub struct PieceTable {
    count: usize,
    horizon: GuestAddress,
    start: GuestAddress,
    pieces: [Piece; PIECES],
}

// The address that a walk over pieces came to, and its place.
#[derive(Clone, Copy)]
struct Skipped {
    at: usize,
    address: GuestAddress,
}

impl PieceTable {
    // A table of no addresses. It is made once, and begun for each stretch of addresses: to make one costs more.
    pub fn new() -> PieceTable {
        PieceTable {
            count: 0,
            horizon: GuestAddress(0),
            start: GuestAddress(0),
            pieces: [NO_PIECE; PIECES],
        }
    }

    // An empty table for the addresses from `start` up to `end`.
    pub fn begin(&mut self, start: GuestAddress, end: GuestAddress)
        requires { (start.0 < end.0) × (end.0 ≤ limit) }
        ensures { BegunTable start.0 end.0 self.new }
    {
        self.count = 0;
        self.horizon = end;
        self.start = start;
    }

    // The address up to which a table is whole.
    pub fn horizon(&self) -> GuestAddress
        ensures { result ≡ self.now.horizon }
    {
        self.horizon
    }

    // The pieces, ascending.
    pub fn pieces(&self) -> &[Piece]
        requires { Pieces self.now }
        ensures { result.now ≡ take self.now.count self.now.pieces }
    {
        &self.pieces[..self.count]
    }

    // A piece put in at place i. In a full table the last one gives way: what lies from it on is not known.
    fn insert(&mut self, i: usize, piece: Piece)
        requires pieces { Pieces self.old }
        requires fits { Fits self.old i piece }
        ensures { Behind self.old (piece_shows piece) self.new
            × PieceSpot self.new piece.end.0 (i + 1) }
    {
        if self.count == PIECES {
            self.horizon = self.pieces[PIECES - 1].first;
        } else {
            self.count += 1;
        }
        put_first(&mut self.pieces[i..self.count], piece);
    }

    // The place of an address among the pieces.
    fn spot(&self, a: GuestAddress) -> usize
        requires { Pieces self.now }
        ensures { PieceSpot self.now a.0 result }
    {
        self.pieces().partition_point(|piece| piece.end.0 <= a.0)
    }

    // How far from an address on nothing is taken, where i is the address's place.
    fn free_until(&self, i: usize, a: GuestAddress, end: GuestAddress) -> GuestAddress
        requires pieces { Pieces self.now }
        requires piece_spot { PieceSpot self.now a.0 i × (a.0 ≤ end.0) }
        ensures { Free self.now i a.0 end.0 result.0 }
    {
        if self.count <= i {
            return end;
        }
        let next = self.pieces[i].first;
        if next.0 <= a.0 { a } else { nearer(next, end) }
    }

    // Is an address taken by piece i, where i is the address's place?
    fn is_taken(&self, i: usize, a: GuestAddress) -> bool
        requires { Pieces self.now }
        ensures { result ≡ is_taken self.now i a.0 }
    {
        i < self.count && self.pieces[i].first.0 <= a.0
    }

    // Over piece i and the pieces that follow it without a gap, as far as `end`. Half of the work on the worst maps
    // known is done here, so the loop stands by itself and does nothing else.
    fn skip(&self, i: usize, end: GuestAddress) -> Skipped
        requires { Pieces self.now × (i < self.now.count) }
        ensures { TakenUpTo self.now i result.address.0 result.at }
    {
        let mut at = i + 1;
        let mut address = self.pieces[i].end;
        while (address.0 < end.0) & self.is_taken(at, address) {
            address = self.pieces[at].end;
            at += 1;
        }
        Skipped { at, address }
    }

    // A region at the addresses of a span that are free. Not inlined, so that the recursion that calls it has a small
    // frame at each level.
    #[inline(never)]
    pub fn fill(&mut self, region: usize, at: AddressSpan)
        requires { SpanFits self.old at × (region < most_regions) }
        ensures { Behind self.old (seen (itself region) at) self.new }
    {
        let end = at.end;
        let mut a = at.first;
        let mut i = self.spot(a);
        // From one stretch to the next, taken or free: where it ends is found in the table, which changes on the way.
        while a.0 < end.0 {
            if self.horizon.0 <= a.0 {
                return;
            }
            let stop = self.free_until(i, a, end);
            if stop.0 == a.0 {
                let past = self.skip(i, end);
                a = past.address;
                i = past.at;
            } else {
                if i == PIECES {
                    self.horizon = a;
                    return;
                }
                let gone = a.0 - at.first.0;
                let piece = Piece {
                    first: a,
                    end: stop,
                    region,
                    offset: RegionOffset(at.offset.0 + gone),
                };
                self.insert(i, piece);
                a = stop;
                i += 1;
            }
        }
    }
}
