// Routing of accesses, and what a view gives an address.
ghost use Rattle.wicktumble.specs.Result.{Returns};
ghost use Rattle.routing.specs.Route.{RoutesAll};
ghost use Rattle.wicktumble.specs.Routes.{route_call, route_all_call, look_up_call};

// The call routes one access of a width in bytes; a device of no words is none. The result has 1 and the
// place in memory, or 2, the port and the offset in its region. The call refuses with 23 to 26 and 27.
#[unsafe(no_mangle)]
pub extern "C" fn wt_route(
    view: &[u64],
    memory_length: u64,
    device: &[u64],
    address: u64,
    width: u64,
    res: &mut [u64],
) -> u64
    ensures { Returns (route_call view.now memory_length device.now address width res.old)
        result res.new }
{
    wicktumble::routes::wt_route(view, memory_length, device, address, width, res)
}

// The call routes many accesses, for which view and device are judged once: two words each, and for each
// answer four, the number and the result of `wt_route`. It refuses with 27, and then writes no answer.
#[unsafe(no_mangle)]
pub extern "C" fn wt_route_all(
    view: &[u64],
    memory_length: u64,
    device: &[u64],
    accesses: &[u64], // an address and a width each
    answers: &mut [u64], // a number and a result each
) -> u64
    ensures { RoutesAll
        (route_all_call view.now memory_length device.now accesses.now answers.old)
        result answers.new }
{
    wicktumble::routes::wt_route_all(view, memory_length, device, accesses, answers)
}

// The call says what a view gives an address, with the result of `wt_walk`. It refuses with 27, which
// judges no device's region here.
#[unsafe(no_mangle)]
pub extern "C" fn wt_look_up(view: &[u64], memory_length: u64, address: u64, res: &mut [u64]) -> u64
    ensures { Returns (look_up_call view.now memory_length address res.old) result res.new }
{
    wicktumble::routes::wt_look_up(view, memory_length, address, res)
}
