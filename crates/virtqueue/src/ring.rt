// Where the entries of the rings lie: by a ring's address, a count and the queue's size.
ghost use Rattle.std.specs.Prelude.{◌≡◌, ◌<◌, ◌≤◌};
ghost use Rattle.virtqueue.specs.Queue.{ring_entry_at, used_entry_at, used_idx_at};
ghost use Rattle.map_records.specs.Limits.{limit};

use map_records::map::GuestAddress;

// The available ring's entry of a count.
pub fn ring_entry(available: GuestAddress, count: u16, size: u16) -> GuestAddress
    requires { (available.0 ≤ limit) × (0 < size) }
    ensures { result.0 ≡ ring_entry_at available.0 count size }
{
    let slot = u64::from(count % size);
    GuestAddress(available.0 + 4 + 2 * slot)
}

// The used ring's. VIRTIO gives each ring a layout of its own, so there is no one function of an entry's size.
pub fn used_entry(used: GuestAddress, count: u16, size: u16) -> GuestAddress
    requires { (used.0 ≤ limit) × (0 < size) }
    ensures { result.0 ≡ used_entry_at used.0 count size }
{
    let slot = u64::from(count % size);
    GuestAddress(used.0 + 4 + 8 * slot)
}

// And its idx.
pub fn used_idx(used: GuestAddress) -> GuestAddress
    requires { used.0 ≤ limit }
    ensures { result.0 ≡ used_idx_at used.0 }
{
    GuestAddress(used.0 + 2)
}
