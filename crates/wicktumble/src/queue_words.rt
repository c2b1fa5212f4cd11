// A queue's words, both ways. Neither the words nor the record are types of this crate, so both are functions and no `From`.
ghost use Rattle.std.specs.Prelude.{◌≡◌};
ghost use Rattle.wicktumble.specs.Queues.{queue_words};
ghost use Rattle.wicktumble.specs.Promises.{queue_read};

use map_records::map::GuestAddress;
use virtqueue::queue::SplitQueue;

pub const QUEUE_WORDS: usize = 7;

// The queue, where the words are as many and none is wider than its field.
pub fn queue_of(words: &[u64]) -> Option<SplitQueue>
    ensures { result ≡ queue_read words.now }
{
    let [
        size,
        descriptors,
        available,
        used,
        next_available,
        next_used,
        stop,
    ] = *words.as_array::<QUEUE_WORDS>()?;
    Some(SplitQueue {
        size: u16::try_from(size).ok()?,
        descriptors: GuestAddress(descriptors),
        available: GuestAddress(available),
        used: GuestAddress(used),
        next_available: u16::try_from(next_available).ok()?,
        next_used: u16::try_from(next_used).ok()?,
        stop: u8::try_from(stop).ok()?,
    })
}

pub fn queue_words(queue: SplitQueue) -> [u64; QUEUE_WORDS]
    ensures { result ≡ queue_words queue }
{
    [
        u64::from(queue.size),
        queue.descriptors.0,
        queue.available.0,
        queue.used.0,
        u64::from(queue.next_available),
        u64::from(queue.next_used),
        u64::from(queue.stop),
    ]
}
