//! Stacks of layers: what a client that knows none of them does through all of them, down to the lent memory.
#![tactic(auto)]

ghost use Rattle.std.specs.Prelude.{◌≡◌, [], length};
ghost use Rattle.store.specs.Copies.{copy_answer};
ghost use Rattle.store.specs.Windows.{placed, window_at};
ghost use Rattle.write_buffer.specs.Buffered.{buffer_at};
ghost use Rattle.store.specs.Dense.{dense_place};
ghost use Rattle.store.specs.Seen.{slice_seen};
ghost use Rattle.store.specs.Sparse.{sparse_place};
ghost use Rattle.store.specs.Slices.{short, paired};
ghost use Rattle.stacks.specs.Carried.{CarriedTo, CarriedThrough, stack_over, dense_over, sparse_over, memory_after};

use store::{DenseStore, Fault, Layout, SliceStore, SparseStore, Store, Window, copy};
use write_buffer::WriteBuffer;

/// What a copy was made above, with its answer.
#[derive(Drop)]
pub struct Copied<B> {
    pub below: B,
    pub answer: Result<(), Fault>,
}

/// Copies one cell to another through a buffer, which is then taken apart.
#[tactic(auto, using(crate::proofs::Through::through_buffer))]
pub fn copy_buffered<S: Store>(store: S, from: u16, to: u16) -> Copied<S>
    ensures answers { result.answer ≡ copy_answer (buffer_at (S.Store.at store) []) from to }
    ensures carries { CarriedTo S.Store (buffer_at (S.Store.at store) [] from) (S.Store.at store to) store to result.below }
{
    let mut buffer = WriteBuffer::new(store);
    let answer = copy(&mut buffer, from, to);
    Copied {
        below: buffer.into_below(),
        answer,
    }
}

/// One cell copied to another, both as a window shows them.
#[derive(Clone, Copy, Debug, PartialEq, Eq)]
pub struct WindowedCopy {
    pub base: u16,
    pub len: u16,
    pub from: u16,
    pub to: u16,
}

impl WindowedCopy {
    /// Copies through a buffer over a window, which are then taken apart.
    pub fn over<S: Store>(self, store: S) -> Copied<S>
        ensures answers { result.answer ≡ copy_answer (stack_over (S.Store.at store) self.base self.len) self.from self.to }
        ensures carries { CarriedThrough S.Store (stack_over (S.Store.at store) self.base self.len self.from) (window_at (S.Store.at store) self.base self.len self.to) store (placed self.base self.len self.to) result.below }
    {
        let window = Window::new(store, self.base, self.len);
        let Copied { below, answer } = copy_buffered(window, self.from, self.to);
        Copied {
            below: below.into_below(),
            answer,
        }
    }

    /// Copies through a buffer over a window over a dense store, and gives the lent values back.
    // Each call below says its promise whole, of its own memory: a definition of all of it would have six parameters.
    pub fn in_dense<'a>(self, values: &'a mut [u32]) -> Copied<&'a mut [u32]>
        ensures answers { result.answer ≡ copy_answer (stack_over (dense_over values.old) self.base self.len) self.from self.to }
        ensures memory { result.below.now ≡ memory_after (stack_over (dense_over values.old) self.base self.len self.from) (window_at (dense_over values.old) self.base self.len self.to) (placed self.base self.len self.to) (dense_place (short values.old) (length values.old)) values.old }
        ensures lent { result.below.ghost_name ≡ values.entry.ghost_name }
    {
        self.in_slice(DenseStore::new(values).store)
    }

    /// Copies through a buffer over a window over a sparse store, and gives the lent values back.
    pub fn in_sparse<'a>(self, cells: &[u16], values: &'a mut [u32]) -> Copied<&'a mut [u32]>
        ensures answers { result.answer ≡ copy_answer (stack_over (sparse_over cells.now values.old) self.base self.len) self.from self.to }
        ensures memory { result.below.now ≡ memory_after (stack_over (sparse_over cells.now values.old) self.base self.len self.from) (window_at (sparse_over cells.now values.old) self.base self.len self.to) (placed self.base self.len self.to) (sparse_place (paired cells.now values.old) cells.now (length values.old)) values.old }
        ensures lent { result.below.ghost_name ≡ values.entry.ghost_name }
    {
        self.in_slice(SparseStore::new(cells, values).store)
    }

    /// Copies through a buffer over a window over a store in lent memory, and gives the memory back.
    fn in_slice<'a, L: Layout>(self, store: SliceStore<'a, L>) -> Copied<&'a mut [u32]>
        ensures answers { result.answer ≡ copy_answer (stack_over (slice_seen L.Layout store.entry) self.base self.len) self.from self.to }
        ensures memory { result.below.now ≡ memory_after (stack_over (slice_seen L.Layout store.entry) self.base self.len self.from) (window_at (slice_seen L.Layout store.entry) self.base self.len self.to) (placed self.base self.len self.to) (L.place store.entry.layout (length store.entry.values.now)) store.entry.values.now }
        ensures lent { result.below.ghost_name ≡ store.entry.values.ghost_name }
    {
        let Copied { below, answer } = self.over(store);
        Copied {
            below: below.into_values(),
            answer,
        }
    }
}
