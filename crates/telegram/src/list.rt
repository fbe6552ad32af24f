ghost use Rattle.std.specs.Prelude.{◌≡◌, []};
ghost use Rattle.order.specs.Orders.{held_cells};
ghost use Rattle.order.specs.Refusals.{gathered};
ghost use Rattle.telegram.specs.Decode.{cells_of};

use order::{Cells, ListRefusal};

/// A list as a part of the telegram: its entries, two bytes a cell, and the place of the first.
#[derive(Clone, Copy)]
pub struct CellList<'a> {
    pub entries: &'a [u8],
    pub place: usize,
}

/// The cells of the entries, refused as `Cells` refuses them.
impl TryFrom<CellList<'_>> for Cells {
    type Error = ListRefusal;

    ghost try_from_gives = { λ list r. held_cells r ≡ gathered [] (cells_of list.entries.now) };

    fn try_from(list: CellList<'_>) -> Result<Cells, ListRefusal> {
        let mut cells = Cells::new();
        let mut left = list.entries;
        // By a slice pattern, from the front: no index is counted.
        while let [high, low, rest @ ..] = left {
            cells.push(u16::from_be_bytes([*high, *low]))?;
            left = rest;
        }
        Ok(cells)
    }
}
