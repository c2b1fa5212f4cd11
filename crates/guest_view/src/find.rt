// The search for the range that holds an address.
ghost use Rattle.map_records.specs.Words.{view_of};
ghost use Rattle.guest_view.specs.Promises.{Judged, Spot};

use crate::view::View;
use map_records::map::GuestAddress;

impl View<'_> {
    // By halving. Of a range only its last address is read on the way. A loop, since `partition_point` asks of the items of
    // a slice, and ranges lie as words.
    fn search(&self, a: GuestAddress) -> usize
        ensures spot { Spot (view_of self.now) a.0 result }
        ensures judged { Judged self.now }
    {
        let count = self.count();
        let mut low: usize = 0;
        let mut high = count;
        while low < high {
            let middle = (low + high) / 2;
            let range = self.range(middle);
            if range.last.0 < a.0 {
                low = middle + 1;
            } else {
                high = middle;
            }
        }
        if count <= low {
            return count;
        }
        let range = self.range(low);
        if a.0 < range.first.0 {
            return count;
        }
        low
    }

    // The number of the range that holds an address, or the count. The hint's range is tried first: bytes of one
    // access or element mostly lie in one range.
    pub fn near(&self, hint: usize, a: GuestAddress) -> usize
        ensures spot { Spot (view_of self.now) a.0 result }
        ensures judged { Judged self.now }
    {
        let count = self.count();
        if hint < count {
            let range = self.range(hint);
            if (range.first.0 <= a.0) & (a.0 <= range.last.0) {
                return hint;
            }
        }
        self.search(a)
    }
}
