ghost use Rattle.std.proofs.Common.{rules};
ghost use Rattle.std.specs.Prelude.{◌≡◌, if◌then◌else◌};
ghost use Rattle.store.specs.Seen.{listed_placed, sparse_seen};
ghost use Rattle.store.specs.Slices.{rising, paired, unless_taken, if_taken};
ghost use Rattle.store.specs.Sparse.{sought, sparse_at, listed_at};
ghost use Rattle.store.specs.declared.sparse.Listed.TheVariants.{Rising, Refused};

use super::Built;
use super::build::{MAX_CELLS, refusal_unless};
use super::layout::Layout;
use super::slices::SliceStore;

/// Which cells a store over two slices has.
// Apart from the values: both slices are lent, as the caller has them. No `Option`: refused numbers are kept too.
#[derive(Drop)]
pub enum Listed<'a> {
    /// Numbers that rise strictly: each cell has the value at the place of its number.
    Rising(&'a [u16]),
    /// Numbers that were refused: no cells.
    Refused(&'a [u16]),
}

/// The cells that a lent slice lists, with their values at the same places of another; no cells if the slices are refused.
pub type SparseStore<'a, 'b> = SliceStore<'b, Listed<'a>>;

/// Whether each number is above the one before it.
fn rises(cells: &[u16]) -> bool
    ensures { result ≡ rising cells.now }
{
    cells.is_sorted_by(|a, b| a < b)
}

/// Whether the slices are taken; halving then finds just the cells that are listed.
#[tactic(auto, using(crate::proofs::Halving::paired_finds))]
fn fit(cells: &[u16], values: &[u32]) -> bool
    ensures is { result ≡ paired cells.now values.now }
    ensures finds { if_taken result (sparse_at cells.now values.now) ≡ if_taken (paired cells.now values.now) (listed_at cells.now values.now) }
{
    cells.len() <= MAX_CELLS && cells.len() == values.len() && rises(cells)
}

/// The place that a cell would have among rising ones, found by halving.
// By hand: the rules ask for at most fifteen halvings. What halving finds in every list is the definition `sought`, and that
// fifteen are enough is a law about it; the library's `binary_search` promises a place and no steps.
#[tactic(auto, using(crate::proofs::Halving::halved_up, crate::proofs::Halving::halved_down, crate::proofs::Halving::halved_end))]
fn seek(cells: &[u16], cell: u16) -> usize
    ensures { result ≡ sought cells.now cell }
{
    let mut low = 0;
    let mut high = cells.len();
    while low < high {
        let mid = low + (high - low) / 2;
        if cells[mid] < cell {
            low = mid + 1;
        } else {
            high = mid;
        }
    }
    low
}

impl Layout for Listed<'_> {
    ghost place = { listed_placed };

    ghost within = { λ it n c i p. Prim.search rules };

    ghost apart = { λ it n c d i p q. Prim.search rules };

    fn place(&self, len: usize, cell: u16) -> Option<usize> {
        match *self {
            Listed::Rising(cells) => {
                let place = seek(cells, cell);
                (cells.get(place) == Some(&cell) && place < len).then_some(place)
            }
            Listed::Refused(_) => None,
        }
    }
}

impl<'a, 'b> SparseStore<'a, 'b> {
    /// A store over at most 16,384 strictly rising cell numbers and as many values.
    pub fn new(cells: &'a [u16], values: &'b mut [u32]) -> Built<SparseStore<'a, 'b>>
        ensures answers { result.refused ≡ unless_taken (paired cells.now values.old) }
        ensures means { sparse_seen result.store ≡ if_taken (paired cells.now values.old) (listed_at cells.now values.old) }
        ensures lists { result.store.layout ≡ (if paired cells.now values.old then Rising cells.entry else Refused cells.entry) }
        ensures holds { result.store.values.now ≡ values.old }
        ensures lent { result.store.values.ghost_name ≡ values.entry.ghost_name }
    {
        let taken = fit(cells, values);
        Built {
            store: SliceStore {
                layout: if taken {
                    Listed::Rising(cells)
                } else {
                    Listed::Refused(cells)
                },
                values,
            },
            refused: refusal_unless(taken),
        }
    }
}
