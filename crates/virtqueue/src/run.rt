// A run of steps, with the device changed where it lies.
ghost use Rattle.std.specs.Prelude.{◌≡◌};
ghost use Rattle.map_records.specs.Words.{view_of};
ghost use Rattle.device_words.specs.Words.{device_of};
ghost use Rattle.virtqueue.specs.Run.{RunDoes, ran};
ghost use Rattle.virtqueue.specs.Promises.{refused_run};

use crate::queue::SplitQueue;
use crate::serve::{judged_view, step_judged};
use crate::step::{Moved, StepFault};

// The most steps of a run.
const STEPS: u64 = 256;

// All steps were served, or the first that was not was idle.
#[derive(Clone, Copy, Debug, PartialEq, Eq)]
pub enum RunEnd {
    AllDone,
    Idle,
}

// How many steps were served, whether one of them notified, the end, and the queue's next state.
#[derive(Clone, Copy)]
pub struct Ran {
    pub served: u64,
    pub notified: bool,
    pub end: Result<RunEnd, StepFault>,
    pub queue: SplitQueue,
}

// A run on records that 27 refuses.
fn refused_run(queue: SplitQueue) -> Ran
    ensures { result ≡ refused_run queue }
{
    Ran {
        served: 0,
        notified: false,
        end: Err(StepFault::Record),
        queue,
    }
}

// Up to k steps, at most 256. The records are judged once.
pub fn run_steps(view: &[u64], device: &mut [u64], queue: SplitQueue, mem: &mut [u8], k: u64) -> Ran
    ensures { RunDoes device.old
        (ran (view_of view.now) (device_of device.old) queue mem.old k)
        result device.new mem.new }
{
    let Some(device) = device.as_mut_array() else {
        return refused_run(queue);
    };
    let Some(view) = judged_view(view, device, queue, mem.len() as u64) else {
        return refused_run(queue);
    };
    let mut ran = Ran {
        served: 0,
        notified: false,
        end: Ok(RunEnd::AllDone),
        queue,
    };
    let most = k.min(STEPS);
    let hint = view.near(0, queue.available);
    // A loop: each step goes on from what the one before left, and the first that is not served ends it.
    for _done in 0..most {
        let Moved { outcome, queue } = step_judged(&view, device, ran.queue, mem, hint);
        ran.queue = queue;
        match outcome {
            Ok(Some(chain)) => {
                ran.served += 1;
                ran.notified = ran.notified | chain.notify;
            }
            Ok(None) => {
                ran.end = Ok(RunEnd::Idle);
                break;
            }
            Err(fault) => {
                ran.end = Err(fault);
                break;
            }
        }
    }
    ran
}
