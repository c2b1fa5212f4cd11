// The split queue: making and reset, one step, a run of steps.
ghost use Rattle.wicktumble.specs.Devices.{ReturnsWords};
ghost use Rattle.wicktumble.specs.Queues.{make_call, reset_queue_call};
ghost use Rattle.wicktumble.specs.Queues.{ReturnsStep, step_call, run_call};

// The call makes a queue of a size and three areas, with its counts at 0. It refuses with 16 and 27.
#[unsafe(no_mangle)]
pub extern "C" fn wt_make_queue(
    size: u64,
    descriptors: u64,
    available: u64,
    used: u64,
    queue: &mut [u64],
) -> u64
    ensures { ReturnsWords (make_call size descriptors available used queue.old) result queue.new }
{
    wicktumble::queues::wt_make_queue(size, descriptors, available, used, queue)
}

// The call resets a queue: its counts are 0 then, and no stop is left. It refuses with 27.
#[unsafe(no_mangle)]
pub extern "C" fn wt_reset_queue(queue: &mut [u64]) -> u64
    ensures { ReturnsWords (reset_queue_call queue.old) result queue.new }
{
    wicktumble::queues::wt_reset_queue(queue)
}

// A step takes a chain from the queue, carries its request out and returns it. The result has 1 where a
// chain was served (0: none was offered), and 1 where the guest is to be notified. The call refuses with
// 17 to 22, by which the queue is stopped, and 27.
#[unsafe(no_mangle)]
pub extern "C" fn wt_step(
    view: &[u64],
    device: &mut [u64],
    queue: &mut [u64],
    memory: &mut [u8],
    res: &mut [u64],
) -> u64
    ensures { ReturnsStep (step_call view.now device.old queue.old memory.old
        res.old) result device.new queue.new memory.new res.new }
{
    wicktumble::queues::wt_step(view, device, queue, memory, res)
}

// A run takes up to k steps, at most 256, to the first that is idle or refused. The result has the
// chains served, 1 where the guest is to be notified, and 1 where the end was idle. The call refuses
// with 17 to 22 (the served steps stay and are counted, and the queue is stopped) and 27.
#[unsafe(no_mangle)]
pub extern "C" fn wt_run(
    view: &[u64],
    device: &mut [u64],
    queue: &mut [u64],
    memory: &mut [u8],
    k: u64,
    res: &mut [u64],
) -> u64
    ensures { ReturnsStep (run_call view.now device.old queue.old memory.old k
        res.old) result device.new queue.new memory.new res.new }
{
    wicktumble::queues::wt_run(view, device, queue, memory, k, res)
}
