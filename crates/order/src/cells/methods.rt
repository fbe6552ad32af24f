ghost use Rattle.std.specs.Prelude.{◌≡◌, [], length};
ghost use Rattle.order.specs.Cells.{has};
ghost use Rattle.order.specs.Orders.{listed, held_cells};
ghost use Rattle.order.specs.Refusals.{addition, added, gathered};

use super::super::refusal::ListRefusal;
use super::Cells;

impl Cells {
    pub fn new() -> Cells
        ensures { listed result ≡ [] }
    {
        Cells {
            items: [0; 8],
            count: 0,
        }
    }

    pub fn len(&self) -> usize
        ensures { result ≡ length (listed self.now) }
    {
        self.as_slice().len()
    }

    pub fn as_slice(&self) -> &[u16]
        ensures { result.now ≡ listed self.now }
    {
        let count = self.count;
        &self.items[0..count]
    }

    pub fn contains(&self, cell: u16) -> bool
        ensures { result ≡ has (listed self.now) cell }
    {
        holds(self.as_slice(), cell)
    }

    /// One cell more, as the last.
    pub fn push(&mut self, cell: u16) -> Result<(), ListRefusal>
        ensures answer { result ≡ addition (listed self.old) cell }
        ensures after { listed self.new ≡ added (listed self.old) cell }
    {
        let count = self.count;
        if count >= 8 {
            return Err(ListRefusal::TooMany);
        }
        if self.contains(cell) {
            return Err(ListRefusal::Repeated);
        }
        self.items[count] = cell;
        self.count = count + 1;
        Ok(())
    }
}

/// The cells in their order, or the refusal of the first that is not taken.
impl TryFrom<&[u16]> for Cells {
    type Error = ListRefusal;

    ghost try_from_gives = { λ cells r. held_cells r ≡ gathered [] cells.now };

    fn try_from(cells: &[u16]) -> Result<Cells, ListRefusal> {
        extended(Cells::new(), cells)
    }
}

fn holds(cells: &[u16], cell: u16) -> bool
    ensures { result ≡ has cells.now cell }
{
    cells.contains(&cell)
}

fn extended(mut list: Cells, cells: &[u16]) -> Result<Cells, ListRefusal>
    ensures { held_cells result ≡ gathered (listed list) cells.now }
{
    for cell in cells {
        list.push(*cell)?;
    }
    Ok(list)
}
