// One step of the queue, with records by value.
ghost use Rattle.map_records.specs.Words.{view_of};
ghost use Rattle.memory_device.specs.Record.{record_of};
ghost use Rattle.virtqueue.specs.Step.{stepped};
ghost use Rattle.virtqueue.specs.Does.{step_fault_reply, Does};

use crate::in_place::step_in_place;
use crate::queue::{QueueStop, SplitQueue};
use map_check::answer::Fault;
use map_records::refusal::Refusal;
use memory_device::device::{MemoryDevice, device_of, words_of};

// A chain that was served, and whether to notify the guest.
#[derive(Clone, Copy, Debug, PartialEq, Eq)]
pub struct Served {
    pub notify: bool,
}

// The queue is stopped, or 27: a record breaks its rules.
#[derive(Clone, Copy, Debug, PartialEq, Eq)]
pub enum StepFault {
    Stopped(QueueStop),
    Record,
}

impl Fault for StepFault {
    ghost reply = { step_fault_reply };

    fn refusal(self) -> Refusal {
        match self {
            StepFault::Stopped(stop) => stop.refusal(),
            StepFault::Record => Refusal::Record,
        }
    }
}

// The outcome, none where nothing was offered, and the queue's next state, where the device was changed in
// its place.
#[derive(Clone, Copy)]
pub struct Moved {
    pub outcome: Result<Option<Served>, StepFault>,
    pub queue: SplitQueue,
}

// The outcome, and the next state of the device and the queue.
#[derive(Clone, Copy)]
pub struct Stepped {
    pub outcome: Result<Option<Served>, StepFault>,
    pub device: MemoryDevice,
    pub queue: SplitQueue,
}

// Takes the next chain, if there is one, carries its request out and returns it.
pub fn step(view: &[u64], device: MemoryDevice, queue: SplitQueue, mem: &mut [u8]) -> Stepped
    ensures { Does (stepped (view_of view.now) (record_of device) queue mem.old) result mem.new }
{
    let mut words = words_of(device);
    let Moved { outcome, queue } = step_in_place(view, &mut words, queue, mem);
    let device = device_of(&words);
    Stepped {
        outcome,
        device,
        queue,
    }
}
