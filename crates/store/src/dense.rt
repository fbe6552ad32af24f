ghost use Rattle.std.proofs.Common.{rules};
ghost use Rattle.std.specs.Prelude.{◌≡◌};
ghost use Rattle.store.specs.Dense.{dense_at};
ghost use Rattle.store.specs.Seen.{dense_placed, dense_seen};
ghost use Rattle.store.specs.Slices.{short, unless_taken, if_taken};

use super::Built;
use super::build::{MAX_CELLS, refusal_unless};
use super::layout::Layout;
use super::slices::SliceStore;

/// The value of each cell stands at the place with the cell's number.
#[derive(Drop)]
pub struct Dense;

/// The cells below the length of a lent slice, with their values in it; no cells if it is too long.
pub type DenseStore<'a> = SliceStore<'a, Dense>;

impl Layout for Dense {
    ghost place = { dense_placed };

    ghost within = { λ it n c i p. Prim.search rules };

    ghost apart = { λ it n c d i p q. Prim.search rules };

    fn place(&self, len: usize, cell: u16) -> Option<usize> {
        let place = usize::from(cell);
        (len <= MAX_CELLS && place < len).then_some(place)
    }
}

impl<'a> DenseStore<'a> {
    /// A store over a slice of at most 16,384 values.
    pub fn new(values: &'a mut [u32]) -> Built<DenseStore<'a>>
        ensures answers { result.refused ≡ unless_taken (short values.old) }
        ensures means { dense_seen result.store ≡ if_taken (short values.old) (dense_at values.old) }
        ensures holds { result.store.values.now ≡ values.old }
        ensures lent { result.store.values.ghost_name ≡ values.entry.ghost_name }
    {
        let taken = values.len() <= MAX_CELLS;
        Built {
            store: SliceStore {
                layout: Dense,
                values,
            },
            refused: refusal_unless(taken),
        }
    }
}
