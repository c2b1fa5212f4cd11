// One step of the queue, with the device changed where it lies.
ghost use Rattle.std.specs.Prelude.{◌≡◌};
ghost use Rattle.map_records.specs.Words.{view_of};
ghost use Rattle.device_words.specs.Words.{device_of};
ghost use Rattle.virtqueue.specs.Step.{records_ok, stepped};
ghost use Rattle.virtqueue.specs.Does.{DoesIn};
ghost use Rattle.virtqueue.specs.Promises.{refused_step};

use crate::queue::SplitQueue;
use crate::serve::{judged_view, step_judged};
use crate::step::{Moved, StepFault};

// Do the three records keep 27's rules, over a memory of this length?
pub fn records_ok(view: &[u64], device: &[u64], queue: SplitQueue, memory_length: u64) -> bool
    ensures { result ≡ records_ok (view_of view.now) (device_of device.now) queue memory_length }
{
    let Some(device) = device.as_array() else {
        return false;
    };
    let Some(_view) = judged_view(view, device, queue, memory_length) else {
        return false;
    };
    true
}

// A step on records that 27 refuses.
fn refused(queue: SplitQueue) -> Moved
    ensures { result ≡ refused_step queue }
{
    Moved {
        outcome: Err(StepFault::Record),
        queue,
    }
}

// Takes the next chain, if there is one, carries its request out and returns it.
pub fn step_in_place(view: &[u64], device: &mut [u64], queue: SplitQueue, mem: &mut [u8]) -> Moved
    ensures { DoesIn device.old
        (stepped (view_of view.now) (device_of device.old) queue mem.old)
        result device.new mem.new }
{
    let Some(device) = device.as_mut_array() else {
        return refused(queue);
    };
    let Some(view) = judged_view(view, device, queue, mem.len() as u64) else {
        return refused(queue);
    };
    let hint = view.near(0, queue.available);
    step_judged(&view, device, queue, mem, hint)
}
