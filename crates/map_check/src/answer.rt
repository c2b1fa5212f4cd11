// What a call that can refuse answers: `Ok`, or a fault, for which document 01 has a number.
ghost use Rattle.std.specs.Prelude.{◌≡◌};
ghost use Rattle.map_records.specs.Refusal.{number, RECORD};
ghost use Rattle.map_check.specs.Reply.{Reply, plain, number_of, reply_by};

use map_records::refusal::Refusal;

// What a call refuses with.
pub trait Fault: Copy {
    // The refusal's number, with its nodes or its place.
    ghost reply: { Self → Reply };

    fn refusal(self) -> Refusal
        ensures { number result ≡ number_of (reply self) };
}

// Document 01's number of the refusal, and 0 where nothing is refused.
pub fn number_of<T: Copy, E: Fault>(answer: Result<T, E>) -> u64
    ensures { result ≡ number_of (reply_by E.reply answer) }
{
    match answer {
        Ok(_) => 0,
        Err(fault) => u64::from(fault.refusal().number()),
    }
}

// 27: a record that breaks its rules.
#[derive(Clone, Copy, Debug, PartialEq, Eq)]
pub struct RecordFault;

impl Fault for RecordFault {
    ghost reply = { λ _. plain RECORD };

    fn refusal(self) -> Refusal {
        Refusal::Record
    }
}
