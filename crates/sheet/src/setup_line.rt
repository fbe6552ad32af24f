//! The lines that set something up.
ghost use Rattle.std.specs.Prelude.{◌≡◌};
ghost use Rattle.sheet.specs.Lines.{Tells};
ghost use Rattle.sheet.specs.Requests.{store_said, piece_said};
ghost use Rattle.sheet.specs.Setups.{window_of, store_of, piece_of};
ghost use Rattle.sheet.specs.Words.{plain_words};

use super::LineError;
use super::lexer::Words;
use super::word::{Word, only_number, read_all};
use std::alloc::Global;

/// Which store the sheet wants.
#[derive(Drop)]
pub enum StoreKind {
    /// The cells below a number.
    Dense(u16),
    /// The cells with these numbers, as they were given.
    Sparse(Vec<u16>),
}

/// The base and the length of a window.
#[derive(Clone, Copy, Debug, PartialEq, Eq)]
pub struct WindowSize {
    pub base: u16,
    pub len: u16,
}

/// One line that sets something up.
#[derive(Drop)]
pub enum SetupLine {
    /// `store`, with the store that is wanted.
    Store(StoreKind),
    /// `values`, with the values of the cells, in their order.
    Values(Vec<u32>),
    /// `window`, which stands on the store.
    Window(WindowSize),
    /// `buffer`, which stands on top.
    Buffer,
}

/// Reads a set-up line: its first word, and those that come after it.
#[tactic(auto, using(crate::proofs::Verbs::piece_told))]
pub fn read_setup_line(heap: Global, verb: &[u8], words: Words) -> Result<SetupLine, LineError>
    ensures { Tells piece_said result (piece_of verb.now (plain_words words.entry.rest.now)) }
{
    match verb {
        b"store" => read_store(heap, words).map(SetupLine::Store),
        b"values" => read_all(heap, words).map(SetupLine::Values),
        b"window" => read_window(words)
            .map(SetupLine::Window)
            .ok_or(LineError::NotUnderstood),
        b"buffer" => words
            .end()
            .map(|()| SetupLine::Buffer)
            .ok_or(LineError::NotUnderstood),
        _ => Err(LineError::NotUnderstood),
    }
}

/// The store that the words to come say.
fn read_store(heap: Global, mut words: Words) -> Result<StoreKind, LineError>
    ensures { Tells store_said result (store_of (plain_words words.entry.rest.now)) }
{
    match words.next() {
        Some(b"dense") => only_number(words)
            .map(StoreKind::Dense)
            .ok_or(LineError::NotUnderstood),
        Some(b"sparse") => read_all(heap, words).map(StoreKind::Sparse),
        _ => Err(LineError::NotUnderstood),
    }
}

/// The window that the words to come say: its base, then its length.
// An `Option`, as of each reader that takes no memory: want of memory stays apart from it.
fn read_window(mut words: Words) -> Option<WindowSize>
    ensures { result ≡ window_of (plain_words words.entry.rest.now) }
{
    let base = words.next()?;
    let len = words.next()?;
    words.end()?;
    Some(WindowSize {
        base: u16::from_word(base)?,
        len: u16::from_word(len)?,
    })
}
