// Routing of accesses, and what a view gives an address.
ghost use Rattle.std.specs.Prelude.{◌≡◌, true, false, [], option_map, MatchResult};
ghost use Rattle.device_words.specs.Words.{device_of};
ghost use Rattle.routing.specs.Route.{RoutesAll};
ghost use Rattle.wicktumble.specs.Result.{Returns};
ghost use Rattle.wicktumble.specs.Routes.{device_fits, route_call, route_all_call, look_up_call};
ghost use Rattle.wicktumble.specs.Promises.{route_words, device_given};

use crate::result::{RESULT_WORDS, Told, refused, tell};
use device_words::words::DEVICE_WORDS;
use map_check::answer::{RecordFault, number_of};
use map_records::map::GuestAddress;
use map_records::refusal::Refusal;
use map_records::words::VIEW_WORDS;
use routing::answer::{Route, RouteFault};
use routing::route::{route, route_all};
use routing::view::look_up;

// 1 and the place in memory, or 2, the port and the offset in its region.
impl Told for Route {
    ghost told = { route_words };

    fn words(self) -> [u64; RESULT_WORDS] {
        match self {
            Route::Memory(place) => [1, place, 0],
            Route::Port(port, offset) => [2, port, offset.0],
        }
    }
}

impl Told for RouteFault {
    ghost told = { λ _. [] };

    fn words(self) -> [u64; RESULT_WORDS] {
        [0; RESULT_WORDS]
    }
}

// The device of an access: none where it has no words.
fn lent_device(device: &[u64]) -> Result<Option<&[u64]>, RecordFault>
    ensures { MatchResult result
        (λ d. (device_fits device.now ≡ true) × (option_map (λ x. device_of x.now) d ≡ device_given device.now))
        (λ _. device_fits device.now ≡ false) }
{
    match device.len() {
        0 => Ok(None),
        DEVICE_WORDS => Ok(Some(device)),
        _ => Err(RecordFault),
    }
}

// The call routes one access of a width in bytes; a device of no words is none. The result has 1 and the
// place in memory, or 2, the port and the offset in its region. The call refuses with 23 to 26 and 27.
pub fn wt_route(
    view: &[u64],
    memory_length: u64,
    device: &[u64],
    address: u64,
    width: u64,
    res: &mut [u64],
) -> u64
    ensures { Returns (route_call view.now memory_length device.now address width res.old)
        result res.new }
{
    let Some(view) = view.as_array::<VIEW_WORDS>() else {
        return refused(Refusal::Record);
    };
    let Ok(device) = lent_device(device) else {
        return refused(Refusal::Record);
    };
    let Some(res) = res.as_mut_array() else {
        return refused(Refusal::Record);
    };
    tell(
        res,
        route(view, memory_length, device, GuestAddress(address), width),
    )
}

// The call routes many accesses, for which view and device are judged once: two words each, and for each
// answer four, the number and the result of `wt_route`. It refuses with 27, and then writes no answer.
pub fn wt_route_all(
    view: &[u64],
    memory_length: u64,
    device: &[u64],
    accesses: &[u64], // an address and a width each
    answers: &mut [u64], // a number and a result each
) -> u64
    ensures { RoutesAll
        (route_all_call view.now memory_length device.now accesses.now answers.old)
        result answers.new }
{
    let Ok(device) = lent_device(device) else {
        return refused(Refusal::Record);
    };
    number_of(route_all(view, memory_length, device, accesses, answers))
}

// The call says what a view gives an address, with the result of `wt_walk`. It refuses with 27, which
// judges no device's region here.
pub fn wt_look_up(view: &[u64], memory_length: u64, address: u64, res: &mut [u64]) -> u64
    ensures { Returns (look_up_call view.now memory_length address res.old) result res.new }
{
    let Some(view) = view.as_array::<VIEW_WORDS>() else {
        return refused(Refusal::Record);
    };
    let Some(res) = res.as_mut_array() else {
        return refused(Refusal::Record);
    };
    tell(res, look_up(view, memory_length, GuestAddress(address)))
}
