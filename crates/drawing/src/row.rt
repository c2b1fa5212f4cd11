// The rows of a drawing.
ghost use Rattle.std.specs.Prelude.{◌≡◌, ◌+◌, ◌≤◌, ◌<◌};
ghost use Rattle.drawing.specs.Drawing.{row_at};
ghost use Rattle.map_records.specs.Limits.{most_regions};

// The addresses, their ruler, a region by its number, and the flat view.
#[derive(Clone, Copy, Debug, PartialEq, Eq)]
pub enum Row {
    Addresses,
    Ruler,
    Region(usize),
    FlatView,
}

// Row w from the top of the drawing of so many regions: they stand from the root down.
pub fn row_at(count: usize, w: usize) -> Row
    requires { (count ≤ most_regions) × (w < count + 3) }
    ensures { result ≡ row_at count w }
{
    match w {
        0 => Row::Addresses,
        1 => Row::Ruler,
        _ if w < count + 2 => Row::Region(count + 1 - w),
        _ => Row::FlatView,
    }
}
