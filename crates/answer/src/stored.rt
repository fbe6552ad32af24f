ghost use Rattle.std.specs.Prelude.{◌≡◌, IfOk, Some, string_bytes};
ghost use Rattle.store.specs.Slices.{refusal_number};
ghost use Rattle.answer.specs.StoreTexts.{cell_text, refusal_text, build_text};

use std::alloc::{AllocError, Global};
use std::fmt;
use store::{Fault, Refusal, Store};

/// A cell that was asked for and what the store says of it, printed as the answer.
#[derive(Clone, Copy)]
struct AskedCell {
    cell: u16,
    value: Result<u32, Fault>,
}

impl fmt::Display for AskedCell {
    ghost output = { λ asked. Some (cell_text asked.cell asked.value) };

    fn fmt<W: fmt::Write>(&self, f: &mut fmt::Formatter<W>) -> fmt::Result {
        let cell = self.cell;
        match self.value {
            Ok(value) => writeln!(f, "cell {cell}: {value}"),
            Err(fault) => {
                let (cause, refused, depth) = (u8::from(fault.cause), fault.cell, fault.depth);
                writeln!(
                    f,
                    "cell {cell}: refused 9, cause {cause}, cell {refused}, depth {depth}"
                )
            }
        }
    }
}

/// The answer to `cell`, which asks a store for a cell.
pub fn cell_answer<S: Store>(heap: Global, store: &S, cell: u16) -> Result<String, AllocError>
    ensures { IfOk result (λ s. string_bytes s ≡ cell_text cell (S.Store.at store.now cell)) }
{
    let value = store.read(cell);
    AskedCell { cell, value }.to_string(heap)
}

/// The refusal of a store, printed as a line.
#[derive(Clone, Copy)]
struct RefusedStore(Refusal);

impl fmt::Display for RefusedStore {
    ghost output = { λ store. Some (refusal_text (refusal_number store.0)) };

    fn fmt<W: fmt::Write>(&self, f: &mut fmt::Formatter<W>) -> fmt::Result {
        writeln!(f, "store: refused {}", u8::from(self.0))
    }
}

/// What is said of a store as it is built: nothing, unless it was refused.
// It takes what `Built` holds beside a store.
pub fn build_answer(heap: Global, refused: Option<Refusal>) -> Result<String, AllocError>
    ensures { IfOk result (λ s. string_bytes s ≡ build_text refused) }
{
    match refused {
        Some(refusal) => RefusedStore(refusal).to_string(heap),
        None => Ok(String::new(heap)),
    }
}
