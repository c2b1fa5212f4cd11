// Little-endian numbers in the requests, responses and configuration of source 000.
ghost use Rattle.std.specs.Prelude.{◌≡◌, length, ◌+◌, ◌≤◌, ◌<◌, ◌^◌};
ghost use Rattle.std.proofs.lemmas.List.Edits.{sets};
ghost use Rattle.device_words.specs.Bytes.{le, le_number, response_bytes, configuration_bytes, configuration_length};

use map_records::map::GuestAddress;

// The bytes of a request, of a response and of the configuration.
pub const REQUEST_BYTES: usize = 24;

pub const RESPONSE_BYTES: usize = 10;

pub const CONFIGURATION_BYTES: usize = 56;

// The number in the k bytes from a place on.
pub fn number_at(bytes: &[u8], at: usize, k: usize) -> u64
    requires { (k ≤ 8) × (at + k ≤ length bytes.now) }
    ensures { (result ≡ le_number bytes.now at k) × (result < 256 ^ k) }
{
    let mut eight = [0; 8];
    eight[..k].copy_from_slice(&bytes[at..at + k]);
    u64::from_le_bytes(eight)
}

// A response's bytes.
pub fn response_bytes(kind: u16, state: u16) -> [u8; RESPONSE_BYTES]
    ensures { result ≡ response_bytes kind state }
{
    let [kind_low, kind_high] = kind.to_le_bytes();
    let [state_low, state_high] = state.to_le_bytes();
    [kind_low, kind_high, 0, 0, 0, 0, 0, 0, state_low, state_high]
}

// The eight bytes of a number, stored from a place on.
fn put(out: &mut [u8], at: usize, n: u64)
    requires { at + 8 ≤ length out.old }
    ensures { out.new ≡ sets out.old at (le 8 n) }
{
    out[at..at + 8].copy_from_slice(&n.to_le_bytes());
}

// The configuration's bytes. The second eight are node_id and padding.
pub fn put_configuration(
    out: &mut [u8],
    block: u64,
    addr: GuestAddress,
    region: u64,
    usable: u64,
    plugged: u64,
    requested: u64,
)
    requires { length out.old ≡ configuration_length }
    ensures { out.new ≡ configuration_bytes block addr.0 region usable plugged requested }
{
    put(out, 0, block);
    put(out, 8, 0);
    put(out, 16, addr.0);
    put(out, 24, region);
    put(out, 32, usable);
    put(out, 40, plugged);
    put(out, 48, requested);
}
