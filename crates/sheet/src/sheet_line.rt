//! The lines of a sheet that has a store.
ghost use Rattle.std.specs.Prelude.{◌∷◌};
ghost use Rattle.sheet.specs.Lines.{Tells};
ghost use Rattle.sheet.specs.Requests.{request_of, request_in, requested};
ghost use Rattle.sheet.specs.Words.{plain_words};

use super::lexer::{Words, before_comment};
use super::setup_line::{SetupLine, read_setup_line};
use super::word::only_number;
use super::{Line, LineError, read_sentence};
use std::alloc::Global;

/// One line of a sheet that has a store, as understood.
#[derive(Drop)]
pub enum SheetLine {
    /// A line that needs no store.
    Plain(Line),
    /// A line that sets something up.
    Setup(SetupLine),
    /// `cell`, with the cell whose value is asked for.
    Cell(u16),
}

/// Reads a line of a sheet that has a store, given without its line end.
pub fn read_sheet_line(heap: Global, text: &[u8]) -> Result<SheetLine, LineError>
    ensures { Tells requested result (request_in text.now) }
{
    let mut words = Words::new(before_comment(text));
    match words.next() {
        None => Ok(SheetLine::Plain(Line::Empty)),
        Some(verb) => read_request(heap, verb, words),
    }
}

/// Reads what the words of such a line say: its first, and those that come after it.
fn read_request(heap: Global, verb: &[u8], words: Words) -> Result<SheetLine, LineError>
    ensures { Tells requested result (request_of (verb.now ∷ plain_words words.entry.rest.now)) }
{
    match verb {
        b"decode" => read_sentence(heap, verb, words).map(SheetLine::Plain),
        b"cell" => only_number(words)
            .map(SheetLine::Cell)
            .ok_or(LineError::NotUnderstood),
        _ => read_setup_line(heap, verb, words).map(SheetLine::Setup),
    }
}
