ghost use Rattle.std.specs.Prelude.{◌≡◌, ℕ, length, ok_or};
ghost use Rattle.store.specs.Faults.{missing};
ghost use Rattle.store.specs.Meaning.{checked};
ghost use Rattle.store.specs.Seen.{slice_seen, SliceWrote};

use super::fault::no_such_cell;
use super::{Fault, Layout, Store};

/// The cells that a layout has, with their values in a lent slice.
#[derive(Drop)]
pub struct SliceStore<'a, L> {
    pub(super) layout: L,
    pub(super) values: &'a mut [u32],
}

impl<'a, L: Layout> SliceStore<'a, L> {
    /// The lent slice of values.
    pub fn into_values(self) -> &'a mut [u32]
        ensures holds { result.now ≡ self.entry.values.now }
        ensures lent { result.ghost_name ≡ self.entry.values.ghost_name }
    {
        self.values
    }

    /// The place of a cell's value.
    fn place(&self, cell: u16) -> Result<usize, Fault>
        ensures { result ≡ ok_or (L.place self.now.layout (length self.now.values.now) cell) (missing cell) }
    {
        self.layout
            .place(self.values.len(), cell)
            .ok_or(no_such_cell(cell))
    }

    /// Puts a value at the place of a cell.
    // Apart from `write`: what the store then means follows from `went` by the laws of a layout.
    fn set(&mut self, cell: u16, value: u32) -> Result<(), Fault>
        ensures answers { result ≡ checked (slice_seen L.Layout self.old cell) }
        ensures went { SliceWrote L.Layout self.old cell value self.new }
    {
        let place = self.place(cell)?;
        self.values[place] = value;
        Ok(())
    }
}

impl<L: Layout> Store for SliceStore<'_, L> {
    ghost at = { slice_seen L.Layout };

    ghost wrote = { SliceWrote L.Layout };

    fn check(&self, cell: u16) -> Result<(), Fault> {
        self.place(cell).map(|_| ())
    }

    fn read(&self, cell: u16) -> Result<u32, Fault> {
        let place = self.place(cell)?;
        Ok(self.values[place])
    }

    fn write(&mut self, cell: u16, value: u32) -> Result<(), Fault> {
        self.set(cell, value)
    }
}
