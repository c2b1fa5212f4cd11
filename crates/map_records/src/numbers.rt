// Small questions about numbers that several crates ask.
ghost use Rattle.std.specs.Prelude.{◌≡◌, ◌+◌, leb};

// Where addresses, offsets and sizes end: 2^48.
pub const LIMIT: u64 = 281474976710656;

// What a priority field and a port are at most.
pub const MOST_IN_BYTE: u64 = 255;

// Is the sum at most the limit? It never wraps.
pub fn sum_within(a: u64, b: u64, limit: u64) -> bool
    ensures { result ≡ leb (a + b) limit }
{
    a.checked_add(b).is_some_and(|sum| sum <= limit)
}
