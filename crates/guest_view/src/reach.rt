// Reach: an element's bytes, range by range, and in a managed range by runs of blocks.
ghost use Rattle.std.specs.Prelude.{◌≡◌, true, ℕ, ◌+◌, ◌≤◌, ◌<◌, length};
ghost use Rattle.device_words.specs.Device.{plugged_in};
ghost use Rattle.device_words.specs.Table.{table_length};
ghost use Rattle.guest_view.specs.Guest.{all_reach};
ghost use Rattle.guest_view.specs.Promises.{Extends, Reaches, reach_in};
ghost use Rattle.map_records.specs.Limits.{limit};

use crate::place::offset_in;
use crate::view::View;
use device_words::block::block_of;
use device_words::table::{BLOCKS, BlockRun, TableWords, all_set, is_in};
use map_records::kind::Kind;
use map_records::map::{GuestAddress, RegionOffset};
use map_records::view::FlatRange;

// The managed region's blocks: the size of each, and the table of those that are plugged. A proof does not see the length of
// a field's array by itself, so `table` says it.
#[derive(Drop)]
pub struct Blocks<'a> {
    pub size: u64,
    pub plugged: &'a TableWords,
    pub ghost positive: { 0 < size },
    pub ghost table: { length plugged.now ≡ table_length },
}

impl Blocks<'_> {
    // Is the byte at an offset of the managed region in a plugged block? The table has 1,024.
    pub fn byte_plugged(&self, offset: RegionOffset) -> bool
        ensures { result ≡ plugged_in self.now.size self.now.plugged.now offset.0 }
    {
        if BLOCKS as u64 <= offset.0 / self.size {
            return false;
        }
        is_in(self.plugged, block_of(self.size, offset))
    }

    // Are the blocks of the bytes from an offset on plugged, up to `more` bytes after it?
    fn run_plugged(&self, offset: RegionOffset, more: u64) -> bool
        requires { offset.0 + more < limit }
        ensures { result ≡ true → (e : ℕ) → e ≤ more → plugged_in self.now.size self.now.plugged.now (offset.0 + e) ≡ true }
    {
        let end = RegionOffset(offset.0 + more);
        if BLOCKS as u64 <= end.0 / self.size {
            return false;
        }
        let first = block_of(self.size, offset);
        let last = block_of(self.size, end);
        let run = BlockRun {
            first,
            count: (last.0 - first.0) as usize + 1,
        };
        all_set(self.plugged, run)
    }

    // From an offset of a range's region on, for at most `span` bytes after it: RAM to the end; a plugged block to its
    // last byte, or as far as bytes are wanted where all their blocks are plugged. None where the byte itself is not
    // reachable, else how many after it are too.
    fn how_far(&self, range: FlatRange, offset: RegionOffset, span: u64, wanted: u64) -> Option<u64>
        requires { offset.0 + span < limit }
        ensures { Extends (plugged_in self.now.size self.now.plugged.now) range.kind offset.0 span result }
    {
        if range.has_kind(Kind::Ram) {
            return Some(span);
        }
        if !range.has_kind(Kind::Managed) {
            return None;
        }
        let far = span.min(wanted);
        if self.run_plugged(offset, far) {
            return Some(far);
        }
        if !self.byte_plugged(offset) {
            return None;
        }
        let left = self.size - 1 - offset.0 % self.size;
        Some(left.min(span))
    }
}

// A judged view, and the blocks of the device whose region it shows.
#[derive(Drop)]
pub struct Guest<'v, 'd> {
    pub view: View<'v>,
    pub blocks: Blocks<'d>,
}

impl Guest<'_, '_> {
    // From an address on, as far as its range goes. The hint's range is tried first.
    fn extent_at(&self, hint: usize, a: GuestAddress, wanted: u64) -> Option<u64>
        ensures { Reaches (reach_in self.now.view self.now.blocks.size self.now.blocks.plugged.now) a.0 result }
    {
        let at = self.view.near(hint, a);
        if self.view.count() <= at {
            return None;
        }
        let range = self.view.range(at);
        let offset = offset_in(range, a);
        self.blocks
            .how_far(range, offset, range.last.0 - a.0, wanted)
    }

    // Is each of the bytes from an address on reachable? None wraps.
    pub fn reaches(&self, hint: usize, addr: GuestAddress, count: u64) -> bool
        ensures { result ≡ all_reach (reach_in self.now.view self.now.blocks.size self.now.blocks.plugged.now) addr.0 count }
    {
        // That no address past 2^48 is in a range is known of the view's words.
        let _ = &self.view.words;
        if count == 0 {
            return true;
        }
        if u64::MAX - addr.0 < count - 1 {
            return false;
        }
        // From one extent to the next: how far each goes is found in the view.
        let mut done: u64 = 0;
        while done < count {
            let here = GuestAddress(addr.0 + done);
            let Some(more) = self.extent_at(hint, here, count - done - 1) else {
                return false;
            };
            if count - done - 1 <= more {
                return true;
            }
            done = done + more + 1;
        }
        true
    }
}
