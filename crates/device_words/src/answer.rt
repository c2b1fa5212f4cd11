// What a request is answered: the range rule, the checks in their order, and the change of the table. The core is
// handed the sizes, what was asked of the pins, and the plug table; it knows nothing else of a device.
ghost use Rattle.std.specs.Prelude.{◌≡◌, ◌+◌, ◌≤◌, ◌<◌, length};
ghost use Rattle.device_words.specs.Table.{most_blocks, table_length};
ghost use Rattle.device_words.specs.Device.{sizes_of, any_pinned};
ghost use Rattle.device_words.specs.Words.{device_at, device_of, device_length};
ghost use Rattle.device_words.specs.Request.{in_range, plug_answer, unplug_answer, unplug_all_answer, state_answer};
ghost use Rattle.device_words.specs.Request.{asked_answer, asked_table};
ghost use Rattle.device_words.specs.declared.request.Response.TheVariants.{Ack};
ghost use Rattle.device_words.specs.Promises.{Sized, Responds};
ghost use Rattle.device_words.specs.Asked.{AsksFor};

use crate::block::{BlockNumber, block_of_request};
use crate::bytes::{REQUEST_BYTES, RESPONSE_BYTES};
use crate::pins::any_pinned;
use crate::plugs::plugged_size;
use crate::request::{Request, RequestKind, Response, answer_bytes, request_of};
use crate::table::{BLOCKS, BlockRun, TableWords, all_set, none_set, with_run};
use crate::words::{DeviceWords, PINNED, PLUGGED, Sizes, sizes_of};

// What a request may ask for: its kind, and its blocks.
#[derive(Clone, Copy, Debug, PartialEq, Eq)]
pub struct Asked {
    pub kind: RequestKind,
    pub run: BlockRun,
}

// Is the request aligned, of a block at least, and whole in the usable part? Since the region is aligned, its offset
// tells whether the address is. No sum wraps.
fn in_range(sizes: Sizes, request: Request) -> bool
    requires { Sized sizes × (request.blocks < 65536) }
    ensures { result ≡ in_range sizes request }
{
    let address = request.addr.0;
    let first = sizes.addr.0;
    let block = sizes.block_size;
    let usable = sizes.usable_size;
    if address < first {
        return false;
    }
    let offset = address - first;
    let size = request.blocks * block;
    if usable < offset {
        return false;
    }
    (offset % block == 0) & (1 <= request.blocks) & (size <= usable - offset)
}

// What a request asks for, judged once: nothing, where it may not ask.
fn asked_of(sizes: Sizes, request: Request) -> Option<Asked>
    requires { Sized sizes × (request.blocks < 65536) }
    ensures { AsksFor sizes request result }
{
    let kind = RequestKind::try_from(request.kind).ok()?;
    if kind == RequestKind::UnplugAll {
        let first = BlockNumber(0);
        let run = BlockRun {
            first,
            count: BLOCKS,
        };
        return Some(Asked { kind, run });
    }
    if in_range(sizes, request) {
        let first = block_of_request(sizes.block_size, sizes.addr, request.addr);
        let run = BlockRun {
            first,
            count: request.blocks as usize,
        };
        return Some(Asked { kind, run });
    }
    None
}

// PLUG: a block already plugged is an error, and more than requested is not taken.
fn plug_answer(sizes: Sizes, plugged: &TableWords, run: BlockRun) -> Response
    requires { Sized sizes }
    ensures { result ≡ plug_answer Ack sizes plugged.now run.first.0 run.count }
{
    if !none_set(plugged, run) {
        return Response::Error;
    }
    let size = plugged_size(sizes.block_size, plugged) + (run.count as u64) * sizes.block_size;
    if sizes.requested_size < size {
        return Response::Nack;
    }
    Response::Ack
}

// UNPLUG: a block not plugged is an error, and a pinned one is busy.
fn unplug_answer(held: bool, plugged: &TableWords, run: BlockRun) -> Response
    ensures { result ≡ unplug_answer held plugged.now run.first.0 run.count }
{
    if !all_set(plugged, run) {
        return Response::Error;
    }
    unplug_all_answer(held)
}

// UNPLUG ALL: any pin is busy.
fn unplug_all_answer(held: bool) -> Response
    ensures { result ≡ unplug_all_answer held }
{
    if held { Response::Busy } else { Response::Ack }
}

// STATE: all plugged, all unplugged, or mixed.
fn state_answer(plugged: &TableWords, run: BlockRun) -> Response
    ensures { result ≡ state_answer plugged.now run.first.0 run.count }
{
    if all_set(plugged, run) {
        return Response::Plugged;
    }
    if none_set(plugged, run) {
        return Response::Unplugged;
    }
    Response::Mixed
}

impl Asked {
    // The answer, by its kind.
    fn answer(self, sizes: Sizes, held: bool, plugged: &TableWords) -> Response
        requires { Sized sizes }
        ensures { result ≡ asked_answer sizes held plugged.now self.kind self.run.first.0 self.run.count }
    {
        match self.kind {
            RequestKind::Plug => plug_answer(sizes, plugged, self.run),
            RequestKind::Unplug => unplug_answer(held, plugged, self.run),
            RequestKind::UnplugAll => unplug_all_answer(held),
            RequestKind::State => state_answer(plugged, self.run),
        }
    }

    // The core: answered by the sizes, by what was asked of the pins and by the plug table, and carried out there. Only
    // an acknowledgement changes the table, once.
    fn carry_out(self, sizes: Sizes, held: bool, plugged: &mut [u64]) -> Response
        requires { Sized sizes × (length plugged.old ≡ table_length) }
        ensures answer { result ≡ asked_answer sizes held plugged.old self.kind self.run.first.0 self.run.count }
        ensures table { plugged.new ≡ asked_table plugged.old self.kind self.run.first.0 self.run.count result }
    {
        let table: &TableWords = plugged.as_array().unwrap();
        let response = self.answer(sizes, held, table);
        if response == Response::Ack {
            with_run(plugged, self.run, self.kind == RequestKind::Plug);
        }
        response
    }
}

// A request answered and carried out where the device lies.
pub fn respond(device: &mut DeviceWords, bytes: [u8; REQUEST_BYTES]) -> [u8; RESPONSE_BYTES]
    requires { Sized (sizes_of (device_of device.old)) }
    ensures { Responds device.old bytes result device.new }
{
    let sizes = sizes_of(device);
    let Some(asked) = asked_of(sizes, request_of(bytes)) else {
        return answer_bytes(Response::Error);
    };
    let held = asked.kind.unplugs() && any_pinned(device, asked.run);
    let response = asked.carry_out(sizes, held, &mut device[PLUGGED..PINNED]);
    answer_bytes(response)
}
