// The device side's record of a split queue.
ghost use Rattle.std.specs.Prelude.{◌≡◌, ◌<◌};
ghost use Rattle.map_records.specs.Refusal.{number};
ghost use Rattle.map_check.specs.Reply.{Reply, number_of};
ghost use Rattle.memory_device.specs.Record.{record_fault_reply};
ghost use Rattle.virtqueue.specs.Queue.{size_ok, area_ok, areas_ok, queue_ok, no_queue, made, was_reset, given_by};
ghost use Rattle.virtqueue.specs.Queue.{queue_fault_reply, stop_reply, stop_number, StopOf, stopped_by, advanced};

use map_check::answer::{Fault, RecordFault};
use map_records::map::GuestAddress;
use map_records::numbers::{LIMIT, sum_within};
use map_records::refusal::Refusal;
use memory_device::refused::Refused;

// The queue's size and areas, the two free-running indices, and the stop: 0 for none, or document 01's
// number, as it was given, since 27 judges it. `next_available` is what document 01 calls seen, `next_used` its
// own count.
#[derive(Clone, Copy, Debug, PartialEq, Eq)]
pub struct SplitQueue {
    pub size: u16,
    pub descriptors: GuestAddress,
    pub available: GuestAddress,
    pub used: GuestAddress,
    pub next_available: u16,
    pub next_used: u16,
    pub stop: u8,
}

// 16: a size or an area that breaks its rules.
#[derive(Clone, Copy, Debug, PartialEq, Eq)]
pub struct QueueFault;

impl Fault for QueueFault {
    ghost reply = { queue_fault_reply };

    fn refusal(self) -> Refusal {
        Refusal::Queue
    }
}

impl<V: Copy> From<Refused<QueueFault, V>> for QueueFault {
    ghost from_gives = { λ refused fault. fault ≡ refused.fault };

    fn from(refused: Refused<QueueFault, V>) -> QueueFault {
        refused.fault
    }
}

// What stops a queue: 17 to 22, in the order of their numbers.
#[derive(Clone, Copy, Debug, PartialEq, Eq)]
pub enum QueueStop {
    Ring,
    Ahead,
    Head,
    Chain,
    Reach,
    Shape,
}

impl Fault for QueueStop {
    ghost reply = { stop_reply };

    fn refusal(self) -> Refusal {
        match self {
            QueueStop::Ring => Refusal::Ring,
            QueueStop::Ahead => Refusal::Ahead,
            QueueStop::Head => Refusal::Head,
            QueueStop::Chain => Refusal::Chain,
            QueueStop::Reach => Refusal::Reach,
            QueueStop::Shape => Refusal::Shape,
        }
    }
}

// The largest size.
const LARGEST: u64 = 256;

// Is the size a power of two from 1 to 256?
fn size_ok(n: u64) -> bool
    ensures { result ≡ size_ok n }
{
    n.is_power_of_two() & (n <= LARGEST)
}

// Is an area aligned, with its end in the address space?
fn area_ok(start: u64, align: u64, bytes: u64) -> bool
    requires { 0 < align }
    ensures { result ≡ area_ok start align bytes }
{
    (start % align == 0) & sum_within(start, bytes, LIMIT)
}

// 16's rules.
fn areas_ok(size: u16, descriptors: u64, available: u64, used: u64) -> bool
    ensures { result ≡ areas_ok size descriptors available used }
{
    let n = u64::from(size);
    size_ok(n)
        & (area_ok(descriptors, 16, 16 * n)
            & (area_ok(available, 2, 6 + 2 * n) & area_ok(used, 4, 6 + 8 * n)))
}

// The record of no queue.
fn no_queue() -> SplitQueue
    ensures { result ≡ no_queue }
{
    SplitQueue {
        size: 0,
        descriptors: GuestAddress(0),
        available: GuestAddress(0),
        used: GuestAddress(0),
        next_available: 0,
        next_used: 0,
        stop: 0,
    }
}

// A queue of a size and three areas, with its indices at 0. A refusal leaves the record of no queue.
pub fn make_queue(
    size: u16,
    descriptors: GuestAddress,
    available: GuestAddress,
    used: GuestAddress,
) -> Result<SplitQueue, Refused<QueueFault, SplitQueue>>
    ensures { given_by queue_fault_reply result ≡ made size descriptors.0 available.0 used.0 }
{
    if !areas_ok(size, descriptors.0, available.0, used.0) {
        return Err(Refused {
            fault: QueueFault,
            left: no_queue(),
        });
    }
    Ok(SplitQueue {
        size,
        descriptors,
        available,
        used,
        next_available: 0,
        next_used: 0,
        stop: 0,
    })
}

impl SplitQueue {
    // 27's test of a queue record.
    pub fn keeps_rules(self) -> bool
        ensures { result ≡ queue_ok self }
    {
        areas_ok(self.size, self.descriptors.0, self.available.0, self.used.0)
            & ((self.stop == 0) | self.stopped().is_some())
    }

    // What stops it, if it is stopped.
    pub fn stopped(self) -> Option<QueueStop>
        ensures { StopOf self.stop result }
    {
        match self.stop {
            17 => Some(QueueStop::Ring),
            18 => Some(QueueStop::Ahead),
            19 => Some(QueueStop::Head),
            20 => Some(QueueStop::Chain),
            21 => Some(QueueStop::Reach),
            22 => Some(QueueStop::Shape),
            _ => None,
        }
    }

    // The queue stopped, with the number of what stops it.
    pub fn stopped_by(self, stop: QueueStop) -> SplitQueue
        ensures { result ≡ stopped_by self (stop_number stop) }
    {
        SplitQueue {
            stop: stop.refusal().number(),
            ..self
        }
    }

    // The queue with one chain taken and returned.
    pub fn advanced(self) -> SplitQueue
        ensures { result ≡ advanced self }
    {
        SplitQueue {
            next_available: self.next_available.wrapping_add(1),
            next_used: self.next_used.wrapping_add(1),
            ..self
        }
    }

    // A queue reset: the indices at 0 and the stop cleared. A refusal leaves the record as it was.
    pub fn reset(self) -> Result<SplitQueue, Refused<RecordFault, SplitQueue>>
        ensures { given_by record_fault_reply result ≡ was_reset self }
    {
        if !self.keeps_rules() {
            return Err(Refused {
                fault: RecordFault,
                left: self,
            });
        }
        Ok(SplitQueue {
            next_available: 0,
            next_used: 0,
            stop: 0,
            ..self
        })
    }
}
