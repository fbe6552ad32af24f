ghost use Rattle.std.specs.Prelude.{◌≤◌};

use super::cells::Cells;

mod methods;

/// A stock order: what kind of work on which cells. The class is 0 to 7.
#[derive(Clone, Copy, Debug)]
pub struct Order {
    pub class: u8,
    pub code: u8,
    pub argument: u32,
    pub reads: Cells,
    pub writes: Cells,
    ghost low: { class ≤ 7 },
}
