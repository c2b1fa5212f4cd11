// A view that keeps 27's rules: its words, which nothing changes while it is lent.
ghost use Rattle.std.specs.Prelude.{◌≡◌, ◌<◌, List, ℕ, true, false, MatchOption};
ghost use Rattle.map_records.specs.View.{range_of};
ghost use Rattle.map_records.specs.Words.{view_of};
ghost use Rattle.guest_view.specs.View.{view_ok};
ghost use Rattle.guest_view.specs.Promises.{Judged};

use crate::rules::words_ok;
use map_records::view::FlatRange;
use map_records::words::{ViewWords, count_of, range_at};
use std::marker::Model;

#[derive(Drop)]
pub struct View<'a> {
    pub(crate) words: &'a ViewWords,
}

impl<'a> Model for View<'a> {
    ghost Value = { List ℕ };

    ghost view = { λ v. v.words.now };

    ghost invariant = { λ v. Judged v.words.now };
}

impl<'a> View<'a> {
    // 27's test of given words, over a memory and a managed region of these lengths.
    pub fn new(words: &'a [u64], memory_length: u64, region_size: u64) -> Option<View<'a>>
        ensures { MatchOption result (view_ok (view_of words.now) memory_length region_size ≡ false)
            (λ v. (v ≡ words.now) × (view_ok (view_of words.now) memory_length region_size ≡ true)) }
    {
        let Some(words) = words.as_array() else {
            return None;
        };
        if !words_ok(words, memory_length, region_size) {
            return None;
        }
        Some(View { words })
    }

    // The same view once more: a struct with a model and a lifetime cannot be `Copy`.
    pub fn again(&self) -> View<'a>
        ensures { result ≡ self.now }
    {
        View { words: self.words }
    }

    // How many ranges it has.
    pub fn count(&self) -> usize
        ensures count { result ≡ (view_of self.now).count }
        ensures judged { Judged self.now }
    {
        count_of(self.words)
    }

    pub fn range(&self, k: usize) -> FlatRange
        requires { k < (view_of self.now).count }
        ensures range { result ≡ range_of (view_of self.now) k }
        ensures judged { Judged self.now }
    {
        range_at(self.words, k)
    }
}
