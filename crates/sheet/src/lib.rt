//! Reads the lines of a run sheet, and keeps what they set up.
#![tactic(auto)]

ghost use Rattle.std.specs.Prelude.{◌≡◌, ◌∷◌, Some};
ghost use Rattle.sheet.specs.declared.LineError.TheVariants.{NoMemory};
ghost use Rattle.sheet.specs.Lines.{text_of, line_of, sentence_of, said_by, Tells};
ghost use Rattle.sheet.specs.Words.{plain_words, BlanksPart, CommentsDropped};

use lexer::{Words, before_comment};
use std::alloc::{AllocFailed, Global};
use std::error::Error;
use std::fmt;
use word::read_all;

mod lexer;
mod setup;
mod setup_line;
mod sheet_line;
mod word;

pub use lexer::without_end;
pub use setup::{Setup, StoreCells, laws_of_setups};
pub use setup_line::{SetupLine, StoreKind, WindowSize};
pub use sheet_line::{SheetLine, read_sheet_line};
pub use word::laws_of_numbers;

/// One line of a run sheet, as understood.
// No `Option` of the bytes: the kinds of lines have names.
#[derive(Drop)]
pub enum Line {
    /// No word stands in the line.
    Empty,
    /// `decode`, with the bytes that are to be decoded.
    Decode(Vec<u8>),
}

/// Why a line was not read.
#[derive(Clone, Copy, Debug)]
pub enum LineError {
    /// The line is none that a run sheet has.
    NotUnderstood,
    /// Memory for what the line says was not to be had.
    NoMemory,
}

// By hand, since a derived text has no contract.
impl fmt::Display for LineError {
    ghost output = { λ why. Some (text_of why) };

    fn fmt<W: fmt::Write>(&self, f: &mut fmt::Formatter<W>) -> fmt::Result {
        match self {
            LineError::NotUnderstood => write!(f, "is not understood"),
            LineError::NoMemory => write!(f, "finds no memory"),
        }
    }
}

impl Error for LineError {}

impl<T: Drop> From<AllocFailed<T>> for LineError {
    ghost from_gives = { λ _ r. r ≡ NoMemory };

    fn from(_back: AllocFailed<T>) -> Self {
        Self::NoMemory
    }
}

/// Reads a line, given without its line end.
// Beside `read_sheet_line`, since a sheet without a store has fewer lines.
pub fn read_line(heap: Global, text: &[u8]) -> Result<Line, LineError>
    ensures { Tells said_by result (line_of text.now) }
{
    let mut words = Words::new(before_comment(text));
    match words.next() {
        None => Ok(Line::Empty),
        Some(verb) => read_sentence(heap, verb, words),
    }
}

/// Reads what the words of a line say: its first, and those that come after it.
// The allocator stands apart from the words, as in the library: only what allocates is given it.
// The first word stands apart from the others: it is taken first, to tell a line without words.
#[tactic(auto, using(crate::proofs::Verbs::six_letters))]
fn read_sentence(heap: Global, verb: &[u8], words: Words) -> Result<Line, LineError>
    ensures { Tells said_by result (sentence_of (verb.now ∷ plain_words words.entry.rest.now)) }
{
    match verb {
        b"decode" => read_all(heap, words).map(Line::Decode),
        _ => Err(LineError::NotUnderstood),
    }
}

/// What stands after a `#` does not matter, and a blank that stands in no comment parts the words before it from those
/// after it.
pub fn laws_of_words()
    ensures comments { CommentsDropped }
    ensures blanks { BlanksPart }
{}
