// The writing half of a step, the judging of its records, and the step on records that were judged.
ghost use Rattle.std.specs.Prelude.{◌≡◌, true, false, length, MatchOption};
ghost use Rattle.device_words.specs.Promises.{Sized};
ghost use Rattle.map_records.specs.Words.{view_of};
ghost use Rattle.guest_view.specs.Promises.{Within, place_in};
ghost use Rattle.device_words.specs.Words.{device_of, device_words};
ghost use Rattle.virtqueue.specs.Step.{records_ok, used_places, used_bytes, carrying, served_memory};
ghost use Rattle.virtqueue.specs.Does.{DoesIn};
ghost use Rattle.virtqueue.specs.Promises.{UsedIn, Stepping, stepped_in};
ghost use Rattle.device_words.specs.Bytes.{response_length};
ghost use Rattle.device_words.specs.Device.{sizes_of};

use crate::chain::Gathered;
use crate::lent::Lent;
use crate::queue::SplitQueue;
use crate::ring::{used_entry, used_idx};
use crate::step::{Moved, Served, StepFault};
use crate::take::take;
use device_words::answer::respond;
use device_words::bytes::{REQUEST_BYTES, RESPONSE_BYTES};
use device_words::rules::words_ok;
use device_words::words::{DeviceWords, block_size, plugged, region_size};
use guest_view::memory::write_bytes;
use guest_view::reach::{Blocks, Guest};
use guest_view::view::View;

// The used ring's bytes that a step writes: the slot's eight, and idx's two.
const USED_BYTES: usize = 10;

// Their places: the slot's, then idx's.
fn used_places(lent: &Lent) -> [usize; USED_BYTES]
    requires { UsedIn (view_of lent.now.guest.view) lent.now.queue }
    ensures { result ≡ used_places (place_in (view_of lent.now.guest.view)) lent.now.queue }
{
    let queue = lent.queue;
    let view = &lent.guest.view;
    let entry = used_entry(queue.used, queue.next_used, queue.size);
    let idx = used_idx(queue.used);
    let mut out = [0; USED_BYTES];
    view.find_places(lent.hint, entry, &mut out[0..8]);
    view.find_places(lent.hint, idx, &mut out[8..USED_BYTES]);
    out
}

// And the bytes: the head, the response's length, and the next count.
fn used_bytes(head: u16, count: u16) -> [u8; USED_BYTES]
    ensures { result ≡ used_bytes count head }
{
    let [low, high] = head.to_le_bytes();
    let [next_low, next_high] = count.wrapping_add(1).to_le_bytes();
    let length = RESPONSE_BYTES as u8;
    [low, high, 0, 0, length, 0, 0, 0, next_low, next_high]
}

// The request is carried out where the device lies; then its response is written, then the used ring.
fn serve(
    device: &mut DeviceWords,
    mem: &mut [u8],
    request: [u8; REQUEST_BYTES],
    places: &[usize],
    used: &[usize],
    bytes: &[u8],
)
    requires sized { Sized (sizes_of (device_of device.old)) }
    requires places_len { (length places.now ≡ response_length) × Within places.now (length mem.old) }
    requires used_len { (length used.now ≡ length bytes.now) × Within used.now (length mem.old) }
    ensures { (device.new ≡ device_words (carrying (device_of device.old) request).device)
        × (mem.new ≡ served_memory mem.old places.now
        (carrying (device_of device.old) request).response used.now bytes.now) }
{
    let response = respond(device, request);
    write_bytes(mem, places, &response);
    write_bytes(mem, used, bytes);
}

// The view, where the three records keep 27's rules over a memory of this length.
pub fn judged_view<'a>(
    view: &'a [u64],
    device: &DeviceWords,
    queue: SplitQueue,
    memory_length: u64,
) -> Option<View<'a>>
    ensures { MatchOption result
        (records_ok (view_of view.now) (device_of device.now) queue memory_length ≡ false)
        (λ v. (v ≡ view.now)
        × (records_ok (view_of view.now) (device_of device.now) queue memory_length ≡ true)) }
{
    let region = region_size(device);
    let Some(view) = View::new(view, memory_length, region) else {
        return None;
    };
    if !(words_ok(device) & queue.keeps_rules()) {
        return None;
    }
    Some(view)
}

// One step on records that keep 27's rules. The device is changed where it lies, once, by the request.
pub fn step_judged(
    view: &View,
    device: &mut DeviceWords,
    queue: SplitQueue,
    mem: &mut [u8],
    hint: usize,
) -> Moved
    requires { Stepping view.now device.old mem.old queue }
    ensures { DoesIn device.old
        (stepped_in view.now device.old queue mem.old)
        result device.new mem.new }
{
    let mut chain = Gathered::begun();
    let blocks = Blocks {
        size: block_size(device),
        plugged: plugged(device),
    };
    let guest = Guest {
        view: view.again(),
        blocks,
    };
    let lent = Lent {
        guest,
        mem,
        queue,
        hint,
    };
    match take(&lent, &mut chain) {
        Err(stop) => Moved {
            outcome: Err(StepFault::Stopped(stop)),
            queue: queue.stopped_by(stop),
        },
        Ok(None) => Moved {
            outcome: Ok(None),
            queue,
        },
        Ok(Some(taken)) => {
            let used = used_places(&lent);
            let bytes = used_bytes(taken.head, queue.next_used);
            serve(device, mem, chain.request, &chain.places, &used, &bytes);
            Moved {
                outcome: Ok(Some(Served {
                    notify: taken.notify,
                })),
                queue: queue.advanced(),
            }
        }
    }
}
