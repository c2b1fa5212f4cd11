// The words of a map that the check accepted.
ghost use Rattle.std.specs.Prelude.{◌≡◌, ◌≤◌, List, ℕ};
ghost use Rattle.map_records.specs.Words.{map_of};
ghost use Rattle.map_records.specs.Limits.{most_regions};
ghost use Rattle.map_check.specs.Check.{Checked};

use map_records::words::{MapWords, region_count};
use std::marker::Model;

// Words that the check accepted, for some length of guest memory: what the walk and the flat view go through.
#[derive(Drop)]
pub struct CheckedMap<'a> {
    pub(crate) words: &'a MapWords,
}

impl<'a> Model for CheckedMap<'a> {
    ghost Value = { List ℕ };

    ghost view = { λ m. m.words.now };

    ghost invariant = { λ m. Checked m.words.now };
}

impl<'a> CheckedMap<'a> {
    // How many regions it has.
    pub fn count(&self) -> usize
        ensures count { result ≡ (map_of self.now).count }
        ensures checked { Checked self.now }
    {
        region_count(self.words)
    }

    // The words, in which a caller finds each region.
    #[tactic(auto, using(crate::proofs::MapWords::checked_few))]
    pub fn words(&self) -> &MapWords
        ensures words { result.now ≡ self.now }
        ensures few { (map_of self.now).count ≤ most_regions }
        ensures checked { Checked self.now }
    {
        self.words
    }
}
