// The step over a queue record that lies in the caller's storage.
ghost use Rattle.map_records.specs.Words.{view_of};
ghost use Rattle.memory_device.specs.Record.{record_of};
ghost use Rattle.virtqueue.specs.Step.{stepped};
ghost use Rattle.virtqueue.specs.Does.{Advances};

use crate::queue::SplitQueue;
use crate::step::{Served, StepFault, step};
use memory_device::device::MemoryDevice;

// The outcome, and the device's next state.
#[derive(Clone, Copy)]
pub struct Advanced {
    pub outcome: Result<Option<Served>, StepFault>,
    pub device: MemoryDevice,
}

// One step; the queue record is advanced where it lies.
pub fn advance(
    queue: &mut SplitQueue,
    mem: &mut [u8],
    view: &[u64],
    device: MemoryDevice,
) -> Advanced
    ensures { Advances (stepped (view_of view.now) (record_of device) queue.old mem.old) result
        queue.new mem.new }
{
    let s = step(view, device, *queue, mem);
    *queue = s.queue;
    Advanced {
        outcome: s.outcome,
        device: s.device,
    }
}
