ghost use Rattle.std.specs.Prelude.{◌≡◌, ℕ};
ghost use Rattle.store.specs.Seen.{window_seen, WindowWrote};
ghost use Rattle.store.specs.Windows.{placed, window_at};

use super::{Cause, Fault, Store, pass_up};

/// A part of the cells of the store below: its cell c is the cell base + c there.
#[derive(Drop)]
pub struct Window<S> {
    below: S,
    base: u16,
    len: u16,
}

impl<S: Store> Window<S> {
    /// The cells of the store below from the base on, as many as the length says.
    pub fn new(below: S, base: u16, len: u16) -> Window<S>
        ensures means { window_seen S.Store result ≡ window_at (S.Store.at below) base len }
        ensures parts { (result.below ≡ below) × ((result.base ≡ base) × (result.len ≡ len)) }
    {
        Window { below, base, len }
    }

    /// The store below.
    pub fn into_below(self) -> S
        ensures { result ≡ self.below }
    {
        self.below
    }

    /// The cell below that is shown as this cell.
    fn place(&self, cell: u16) -> Result<u16, Fault>
        ensures { result ≡ placed self.now.base self.now.len cell }
    {
        let outside = Fault {
            cause: Cause::OutsideWindow,
            cell,
            depth: 0,
        };
        if cell < self.len {
            self.base.checked_add(cell).ok_or(outside)
        } else {
            Err(outside)
        }
    }
}

impl<S: Store> Store for Window<S> {
    ghost at = { window_seen S.Store };

    ghost wrote = { WindowWrote S.Store };

    // Each call in two lines: what differs is the call below, which a function told of it would hide.
    fn check(&self, cell: u16) -> Result<(), Fault> {
        let place = self.place(cell)?;
        pass_up(self.below.check(place))
    }

    fn read(&self, cell: u16) -> Result<u32, Fault> {
        let place = self.place(cell)?;
        pass_up(self.below.read(place))
    }

    fn write(&mut self, cell: u16, value: u32) -> Result<(), Fault> {
        let place = self.place(cell)?;
        pass_up(self.below.write(place, value))
    }
}
