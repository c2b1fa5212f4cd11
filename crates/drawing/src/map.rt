// The map that is drawn: words that the check accepted, over a guest memory of so many bytes.
ghost use Rattle.std.specs.Prelude.{◌≡◌, ◌<◌, List, ℕ};
ghost use Rattle.map_records.specs.Map.{region};
ghost use Rattle.map_records.specs.Words.{map_of};
ghost use Rattle.map_check.specs.Check.{Accepted};
ghost use Rattle.region_map.specs.Walk.{walk_root};
ghost use Rattle.drawing.specs.Position.{Climbable};

use map_records::map::{Found, GuestAddress, Region};
use map_records::words::{MapWords, region_at, region_count};
use region_map::resolve::resolve_address;
use std::marker::Model;

// With its memory, since the public walk judges the words that it is given.
#[derive(Drop)]
pub struct DrawnMap<'a> {
    words: &'a MapWords,
    memory_length: u64,
}

impl<'a> Model for DrawnMap<'a> {
    ghost Value = { List ℕ };

    ghost view = { λ m. m.words.now };

    ghost invariant = { λ m. Accepted (map_of m.words.now) m.memory_length };
}

impl<'a> DrawnMap<'a> {
    // Words of which the caller knows it.
    pub fn new(words: &'a MapWords, memory_length: u64) -> DrawnMap<'a>
        requires { Accepted (map_of words.now) memory_length }
        ensures { result ≡ words.now }
    {
        DrawnMap {
            words,
            memory_length,
        }
    }

    // How many regions it has.
    pub fn count(&self) -> usize
        ensures count { result ≡ (map_of self.now).count }
        ensures climbable { Climbable (map_of self.now) }
    {
        region_count(self.words)
    }

    pub fn region(&self, n: usize) -> Region
        requires { n < (map_of self.now).count }
        ensures region { result ≡ region (map_of self.now) n }
        ensures climbable { Climbable (map_of self.now) }
    {
        region_at(self.words, n)
    }

    // What an address leads to.
    pub fn found(&self, address: GuestAddress) -> Option<Found>
        ensures { result ≡ walk_root (map_of self.now) address.0 }
    {
        let words = self.words;
        resolve_address(words, self.memory_length, address).unwrap()
    }
}
