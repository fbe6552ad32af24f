//! The lines of the sheet on standard input.
ghost use Rattle.std.specs.Prelude.{◌-◌, ◌^◌};
ghost use Rattle.std.specs.Iterator.{at_most};

use anyhow::anyhow;
use sheet::{Line, LineError, SheetLine, read_sheet_line, without_end};
use std::alloc::Global;
use std::io::BufRead;

/// The lines of a sheet that have a word, as an input gives them.
#[derive(Drop)]
pub struct SheetLines<R> {
    heap: Global,
    input: R,
    text: Vec<u8>,
    /// How many lines were asked for so far, those without a word too.
    number: u64,
}

/// A line, and its number in the sheet.
#[derive(Drop)]
pub struct NumberedLine {
    pub number: u64,
    pub line: SheetLine,
}

impl<R: BufRead> SheetLines<R> {
    pub fn new(heap: Global, input: R) -> SheetLines<R> {
        SheetLines {
            heap,
            input,
            text: Vec::new(heap),
            number: 0,
        }
    }

    /// Reads the next line, which has this number, unless the input is at its end.
    fn read_line(&mut self, number: u64) -> anyhow::Result<Option<SheetLine>> {
        // Not by `split`, which takes the line feed away: a carriage return ends a line only before one.
        self.text.clear();
        if self.input.read_until(b'\n', &mut self.text)? == 0 {
            return Ok(None);
        }
        let text = without_end(self.text.as_slice());
        let line = read_sheet_line(self.heap, text).map_err(|why| error_at(number, why))?;
        Ok(Some(line))
    }
}

impl<R: BufRead + Drop> Iterator for SheetLines<R> {
    type Item = anyhow::Result<NumberedLine>;

    ghost remaining = { λ lines. at_most (2 ^ 64 - 1 - lines.number) };

    /// The next line that has a word.
    fn next(&mut self) -> Option<anyhow::Result<NumberedLine>> {
        // Nothing says that an input ends, so the numbers of the lines bound what is read of it.
        for before in self.number..u64::MAX {
            let number = before + 1;
            let line = self.read_line(number);
            self.number = number;
            match line {
                // Passed over here: an item has room for an error, so to give one out copies as much, and such lines may be many.
                Ok(Some(SheetLine::Plain(Line::Empty))) => {}
                Ok(Some(line)) => return Some(Ok(NumberedLine { number, line })),
                Ok(None) => return None,
                Err(error) => return Some(Err(error)),
            }
        }
        None
    }
}

/// The error of a line with this number.
pub fn error_at(number: u64, why: LineError) -> anyhow::Error {
    anyhow!("line {number} {why}")
}
