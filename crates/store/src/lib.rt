//! Location stores: a fixed set of cells with one value each, in memory that the caller lends, and layers over them.
#![tactic(auto)]

ghost use Rattle.std.specs.Prelude.{◌≡◌, ℕ};
ghost use Rattle.store.specs.Meaning.{Meaning, checked, put};

mod build;
mod client;
mod dense;
mod fault;
mod laws;
mod layout;
mod slices;
mod sparse;
mod window;

pub use build::{Built, Refusal};
pub use client::copy;
pub use dense::DenseStore;
pub use fault::{Cause, Fault, pass_up};
pub use laws::{halving_is_short, windows_show_their_part, writes_are_kept};
pub use layout::Layout;
pub use slices::SliceStore;
pub use sparse::SparseStore;
pub use window::Window;

/// A fixed set of cells with one value each, and one fault for each other cell.
///
/// All that stands on a store relies on these clauses alone.
pub trait Store {
    /// What the store means: each cell's value, or the fault of a cell outside the set.
    ghost at: { Self → Meaning };

    /// What a write makes of the store itself, its layers and lent memory included: the store before, the cell, the
    /// value, and the store after. What it means for cells and values the clause `sets` says of every store.
    ghost wrote: { Self → ℕ → ℕ → Self → Type 0 };

    /// Tells whether a cell is in the set.
    fn check(&self, cell: u16) -> Result<(), Fault>
        ensures { result ≡ checked (at self.now cell) };

    /// The value of a cell.
    fn read(&self, cell: u16) -> Result<u32, Fault>
        ensures { result ≡ at self.now cell };

    /// Sets the value of a cell, and of no other.
    fn write(&mut self, cell: u16, value: u32) -> Result<(), Fault>
        ensures answers { result ≡ checked (at self.old cell) }
        ensures sets { at self.new ≡ put (at self.old) cell value }
        ensures went { wrote self.old cell value self.new };
}
