// What a call tells: its number, and the words of its result.
ghost use Rattle.std.specs.Prelude.{◌≡◌, List, [], ℕ};
ghost use Rattle.map_records.specs.Refusal.{number};
ghost use Rattle.map_check.specs.Check.{fault_reply};
ghost use Rattle.wicktumble.specs.Result.{Returns, padded, places};
ghost use Rattle.wicktumble.specs.Maps.{found_words};
ghost use Rattle.wicktumble.specs.Promises.{told_by};

use map_check::answer::{Fault, RecordFault, number_of};
use map_check::check::MapFault;
use map_records::map::Found;
use map_records::refusal::Refusal;

// The words of a result.
pub const RESULT_WORDS: usize = 3;

// What an answer or a fault has for the words of a result.
pub trait Told: Copy {
    ghost told: { Self → List ℕ };

    // Its words, and 0 for each that it has not.
    fn words(self) -> [u64; RESULT_WORDS]
        ensures { result ≡ padded (told self) };
}

impl Told for () {
    ghost told = { λ _. [] };

    fn words(self) -> [u64; RESULT_WORDS] {
        [0; RESULT_WORDS]
    }
}

// 1, the region and the offset in it, or zeros where nothing is there.
impl Told for Option<Found> {
    ghost told = { found_words };

    fn words(self) -> [u64; RESULT_WORDS] {
        match self {
            Some(found) => [1, found.region as u64, found.offset.0],
            None => [0; RESULT_WORDS],
        }
    }
}

impl Told for RecordFault {
    ghost told = { λ _. [] };

    fn words(self) -> [u64; RESULT_WORDS] {
        [0; RESULT_WORDS]
    }
}

// The regions that the check of a map names.
impl Told for MapFault {
    ghost told = { λ f. places (fault_reply f) };

    fn words(self) -> [u64; RESULT_WORDS] {
        match self {
            MapFault::Count => [0; RESULT_WORDS],
            MapFault::Kind(n) | MapFault::Field(n) | MapFault::Link(n) => [n as u64, n as u64, 0],
            MapFault::Memory(i, j)
            | MapFault::Managed(i, j)
            | MapFault::Port(i, j)
            | MapFault::Overlap(i, j) => [i as u64, j as u64, 0],
        }
    }
}

// The words of an answer into the result; gives the number.
pub fn tell<T: Told, E: Fault + Told>(res: &mut [u64; RESULT_WORDS], answer: Result<T, E>) -> u64
    ensures { Returns (told_by T.told E.told E.reply answer) result res.new }
{
    let number = number_of(answer);
    *res = match answer {
        Ok(found) => found.words(),
        Err(fault) => fault.words(),
    };
    number
}

// The number of a call that is refused before anything is written.
pub fn refused(refusal: Refusal) -> u64
    ensures { result ≡ number refusal }
{
    u64::from(refusal.number())
}
