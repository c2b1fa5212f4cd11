// The guest's requests.
ghost use Rattle.std.specs.Prelude.{◌≡◌, ◌<◌};
ghost use Rattle.device_words.specs.Bytes.{response_bytes};
ghost use Rattle.device_words.specs.Request.{type_number, Decodes, request_of, type_of, state_of};
ghost use Rattle.device_words.specs.Promises.{unplugs};

use crate::bytes::{REQUEST_BYTES, RESPONSE_BYTES, number_at, response_bytes};
use map_records::map::GuestAddress;

// What a request asks. What the code does by a request's type, it does by this type.
#[derive(Clone, Copy, Debug, PartialEq, Eq)]
pub enum RequestKind {
    Plug,
    Unplug,
    UnplugAll,
    State,
}

// A number that is no type of request.
#[derive(Clone, Copy, Debug, PartialEq, Eq)]
pub struct UnknownRequest(pub u64);

impl TryFrom<u64> for RequestKind {
    type Error = UnknownRequest;

    ghost try_from_gives = { Decodes };

    fn try_from(number: u64) -> Result<Self, UnknownRequest> {
        match number {
            0 => Ok(RequestKind::Plug),
            1 => Ok(RequestKind::Unplug),
            2 => Ok(RequestKind::UnplugAll),
            3 => Ok(RequestKind::State),
            _ => Err(UnknownRequest(number)),
        }
    }
}

impl RequestKind {
    // Does a pin of one of its blocks matter to it?
    pub fn unplugs(self) -> bool
        ensures { result ≡ unplugs (type_number self) }
    {
        matches!(self, RequestKind::Unplug | RequestKind::UnplugAll)
    }
}

// A request of the guest, as its bytes have it: any number may come as its type.
#[derive(Clone, Copy, Debug, PartialEq, Eq)]
pub struct Request {
    pub kind: u64,
    pub addr: GuestAddress,
    pub blocks: u64,
}

// The device's answer. The last three acknowledge a STATE.
#[derive(Clone, Copy, Debug, PartialEq, Eq)]
pub enum Response {
    Ack,
    Nack,
    Busy,
    Error,
    Plugged,
    Unplugged,
    Mixed,
}

// The request in 24 bytes.
pub fn request_of(bytes: [u8; REQUEST_BYTES]) -> Request
    ensures { (result ≡ request_of bytes) × (result.blocks < 65536) }
{
    Request {
        kind: number_at(&bytes, 0, 2),
        addr: GuestAddress(number_at(&bytes, 8, 8)),
        blocks: number_at(&bytes, 16, 2),
    }
}

impl Response {
    // The response's type in its bytes: each acknowledgement has one number.
    fn type_of(self) -> u16
        ensures { result ≡ type_of self }
    {
        match self {
            Response::Ack | Response::Plugged | Response::Unplugged | Response::Mixed => 0,
            Response::Nack => 1,
            Response::Busy => 2,
            Response::Error => 3,
        }
    }

    // The state in its bytes, which is 0 but in an acknowledged STATE.
    fn state_of(self) -> u16
        ensures { result ≡ state_of self }
    {
        match self {
            Response::Unplugged => 1,
            Response::Mixed => 2,
            _ => 0,
        }
    }
}

// The ten bytes of an answer.
pub fn answer_bytes(response: Response) -> [u8; RESPONSE_BYTES]
    ensures { result ≡ response_bytes (type_of response) (state_of response) }
{
    response_bytes(response.type_of(), response.state_of())
}
