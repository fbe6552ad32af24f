ghost use Rattle.std.specs.Prelude.{◌≡◌, ◌≤◌, true, take};
ghost use Rattle.order.specs.Cells.{different};

mod methods;

/// A read list or a write list: at most eight cells, all different.
// An array and a count: the library allocates nothing, and a list is copied with its order, which an `ArrayVec` is not.
#[derive(Clone, Copy, Debug)]
pub struct Cells {
    items: [u16; 8],
    count: usize,
    ghost few: { count ≤ 8 },
    ghost apart: { different (take count items) ≡ true },
}
