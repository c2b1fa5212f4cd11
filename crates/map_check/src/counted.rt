// The words of a map of which 3 is known: that they have a map's length and a count from 1 to 32.
ghost use Rattle.std.specs.Prelude.{◌≡◌, ◌<◌, List, ℕ, true, MatchOption};
ghost use Rattle.map_records.specs.Map.{region};
ghost use Rattle.map_records.specs.Words.{map_of};
ghost use Rattle.map_records.specs.Limits.{most_regions};
ghost use Rattle.map_check.specs.Check.{Checked, count_fault};
ghost use Rattle.map_check.specs.Promises.{Counted};

use crate::checked::CheckedMap;
use map_records::map::{REGIONS, Region};
use map_records::words::{MapWords, region_at, region_count};
use std::marker::Model;

// Words that 3 lets pass: what the other rules are asked of.
#[derive(Drop)]
pub struct CountedMap<'a> {
    words: &'a MapWords,
}

impl<'a> Model for CountedMap<'a> {
    ghost Value = { List ℕ };

    ghost view = { λ m. m.words.now };

    ghost invariant = { λ m. Counted m.words.now };
}

impl<'a> CountedMap<'a> {
    // Words of another number than a map's are a map of no regions.
    pub fn new(words: &'a [u64]) -> Option<CountedMap<'a>>
        ensures { MatchOption result (count_fault (map_of words.now).count ≡ true)
            (λ m. (m ≡ words.now) × Counted words.now) }
    {
        let Some(words) = words.as_array() else {
            return None;
        };
        let count = region_count(words);
        if count == 0 || REGIONS < count {
            return None;
        }
        Some(CountedMap { words })
    }

    // How many regions it has.
    pub fn count(&self) -> usize
        ensures count { result ≡ (map_of self.now).count }
        ensures counted { Counted self.now }
    {
        region_count(self.words)
    }

    pub fn region(&self, n: usize) -> Region
        requires { n < most_regions }
        ensures { result ≡ region (map_of self.now) n }
    {
        region_at(self.words, n)
    }

    // The size of region n, and 0 where a map has no room for such a region.
    #[tactic(auto, using(map_records::proofs::WordLaws::region_past))]
    pub fn size_of(&self, n: usize) -> u64
        ensures { result ≡ (region (map_of self.now) n).size }
    {
        let words = self.words;
        if n < REGIONS {
            return region_at(words, n).size;
        }
        0
    }

    // The same words, of which the check accepted the rest too.
    pub fn accepted(self) -> CheckedMap<'a>
        requires { Checked self }
        ensures { result ≡ self.entry }
    {
        CheckedMap { words: self.words }
    }
}
