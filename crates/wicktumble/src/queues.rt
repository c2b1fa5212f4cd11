// The split queue: making and reset, one step, a run of steps.
ghost use Rattle.std.specs.Prelude.{◌≡◌, [], List, ℕ};
ghost use Rattle.virtqueue.specs.Queue.{made, queue_reply};
ghost use Rattle.map_check.specs.Reply.{number_of};
ghost use Rattle.memory_device.specs.Record.{record_reply};
ghost use Rattle.wicktumble.specs.Devices.{ReturnsWords};
ghost use Rattle.wicktumble.specs.Queues.{gives, make_call, reset_queue_call, ReturnsStep, step_call, run_call};
ghost use Rattle.wicktumble.specs.Promises.{served_words, run_words, queue_lent};

use crate::queue_words::{QUEUE_WORDS, queue_of, queue_words};
use crate::result::{RESULT_WORDS, Told, refused, tell};
use device_words::words::DEVICE_WORDS;
use map_check::answer::{RecordFault, number_of};
use map_records::map::GuestAddress;
use map_records::refusal::Refusal;
use map_records::words::VIEW_WORDS;
use virtqueue::in_place::step_in_place;
use virtqueue::queue::{QueueFault, SplitQueue, make_queue};
use virtqueue::run::{Ran, RunEnd, run_steps};
use virtqueue::step::{Served, StepFault};

// A queue that is made into its words, which stay as they are on a refusal.
fn put_made(
    size: u64,
    descriptors: u64,
    available: u64,
    used: u64,
    words: &mut [u64; QUEUE_WORDS],
) -> Result<(), QueueFault>
    ensures { ReturnsWords (gives (made size descriptors available used) words.old)
        (number_of (queue_reply result)) words.new }
{
    // Past 16 bits it is no power of two from 1 to 256.
    let Ok(size) = u16::try_from(size) else {
        return Err(QueueFault);
    };
    let queue = make_queue(
        size,
        GuestAddress(descriptors),
        GuestAddress(available),
        GuestAddress(used),
    )?;
    *words = queue_words(queue);
    Ok(())
}

// The call makes a queue of a size and three areas, with its counts at 0. It refuses with 16 and 27.
pub fn wt_make_queue(
    size: u64,
    descriptors: u64,
    available: u64,
    used: u64,
    queue: &mut [u64],
) -> u64
    ensures { ReturnsWords (make_call size descriptors available used queue.old) result queue.new }
{
    let Some(queue) = queue.as_mut_array() else {
        return refused(Refusal::Record);
    };
    number_of(put_made(size, descriptors, available, used, queue))
}

// A queue that is reset in its words, which stay as they are on a refusal.
fn put_reset(words: &mut [u64]) -> Result<(), RecordFault>
    ensures { ReturnsWords (reset_queue_call words.old) (number_of (record_reply result)) words.new }
{
    let queue = queue_of(words).ok_or(RecordFault)?.reset()?;
    words.copy_from_slice(&queue_words(queue));
    Ok(())
}

// The call resets a queue: its counts are 0 then, and no stop is left. It refuses with 27.
pub fn wt_reset_queue(queue: &mut [u64]) -> u64
    ensures { ReturnsWords (reset_queue_call queue.old) result queue.new }
{
    number_of(put_reset(queue))
}

// The queue of a step or a run, where the records are of the lengths and widths that the header says.
fn lent_queue(view: &[u64], device: &[u64], queue: &[u64]) -> Option<SplitQueue>
    ensures { result ≡ queue_lent view.now device.now queue.now }
{
    if view.len() != VIEW_WORDS || device.len() != DEVICE_WORDS {
        return None;
    }
    queue_of(queue)
}

// 1 where a chain was served, and 1 where the guest is to be notified.
impl Told for Option<Served> {
    ghost told = { served_words };

    fn words(self) -> [u64; RESULT_WORDS] {
        match self {
            Some(served) => [1, u64::from(served.notify), 0],
            None => [0; RESULT_WORDS],
        }
    }
}

impl Told for StepFault {
    ghost told = { λ _. [] };

    fn words(self) -> [u64; RESULT_WORDS] {
        [0; RESULT_WORDS]
    }
}

// A step takes a chain from the queue, carries its request out and returns it. The result has 1 where a
// chain was served (0: none was offered), and 1 where the guest is to be notified. The call refuses with
// 17 to 22, by which the queue is stopped, and 27.
pub fn wt_step(
    view: &[u64],
    device: &mut [u64],
    queue: &mut [u64],
    memory: &mut [u8],
    res: &mut [u64],
) -> u64
    ensures { ReturnsStep (step_call view.now device.old queue.old memory.old
        res.old) result device.new queue.new memory.new res.new }
{
    let Some(record) = lent_queue(view, device, queue) else {
        return refused(Refusal::Record);
    };
    let Some(res) = res.as_mut_array() else {
        return refused(Refusal::Record);
    };
    let moved = step_in_place(view, device, record, memory);
    queue.copy_from_slice(&queue_words(moved.queue));
    tell(res, moved.outcome)
}

// How many were served, 1 where one notified, and 1 where the end was idle.
impl Told for Ran {
    ghost told = { run_words };

    fn words(self) -> [u64; RESULT_WORDS] {
        let idle = matches!(self.end, Ok(RunEnd::Idle));
        [self.served, u64::from(self.notified), u64::from(idle)]
    }
}

// A run takes up to k steps, at most 256, to the first that is idle or refused. The result has the
// chains served, 1 where the guest is to be notified, and 1 where the end was idle. The call refuses
// with 17 to 22 (the served steps stay and are counted, and the queue is stopped) and 27.
pub fn wt_run(
    view: &[u64],
    device: &mut [u64],
    queue: &mut [u64],
    memory: &mut [u8],
    k: u64,
    res: &mut [u64],
) -> u64
    ensures { ReturnsStep (run_call view.now device.old queue.old memory.old k
        res.old) result device.new queue.new memory.new res.new }
{
    let Some(record) = lent_queue(view, device, queue) else {
        return refused(Refusal::Record);
    };
    let Some(res) = res.as_mut_array() else {
        return refused(Refusal::Record);
    };
    let ran = run_steps(view, device, record, memory, k);
    queue.copy_from_slice(&queue_words(ran.queue));
    *res = ran.words();
    number_of(ran.end)
}
