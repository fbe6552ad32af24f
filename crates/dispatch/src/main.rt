//! Reads a run sheet from standard input, and answers each line on standard output.
#![tactic(auto)]

use answer::{build_answer, cell_answer, decode_answer};
use sheet::{Line, LineError, Setup, SheetLine, StoreCells};
use sheet_lines::{NumberedLine, SheetLines, error_at};
use std::io::{BufRead, BufReader};
use std::process::ExitCode;
use store::{Built, DenseStore, SparseStore, Store, Window};
use write_buffer::WriteBuffer;

mod sheet_lines;

/// The part of a sheet after its set-up lines, from the first call on.
#[derive(Drop)]
struct Calls<'a, R> {
    rt: &'a HostRuntime,
    setup: &'a Setup,
    /// The cell of the first call, unless the sheet ends before it.
    first: Option<u16>,
    lines: &'a mut SheetLines<R>,
}

impl<R: BufRead + Drop> Calls<'_, R> {
    /// Says whether the store was refused, and answers the calls over the layers that are set up on it.
    fn over_store<S: Store + Drop>(self, built: Built<S>) -> anyhow::Result<()> {
        let said = build_answer(self.rt.alloc(), built.refused)?;
        self.rt.print(said)?;
        match self.setup.window() {
            Some(size) => self.over_window(Window::new(built.store, size.base, size.len)),
            None => self.over_window(built.store),
        }
    }

    fn over_window<S: Store + Drop>(self, store: S) -> anyhow::Result<()> {
        if self.setup.has_buffer() {
            self.answer(&WriteBuffer::new(store))
        } else {
            self.answer(&store)
        }
    }

    /// Answers the calls. From now on a set-up line is not understood.
    fn answer<S: Store>(self, store: &S) -> anyhow::Result<()> {
        let Calls {
            rt,
            first,
            lines,
            ..
        } = self;
        let Some(cell) = first else {
            // The sheet is at its end, and is not read again.
            return Ok(());
        };
        answer_cell(rt, store, cell)?;
        for line in lines {
            let NumberedLine { number, line } = line?;
            match line {
                SheetLine::Plain(line) => answer_plain(rt, line)?,
                SheetLine::Cell(cell) => answer_cell(rt, store, cell)?,
                SheetLine::Setup(_) => return Err(error_at(number, LineError::NotUnderstood)),
            }
        }
        Ok(())
    }
}

fn answer_cell<S: Store>(rt: &HostRuntime, store: &S, cell: u16) -> anyhow::Result<()> {
    rt.print(cell_answer(rt.alloc(), store, cell)?)?;
    Ok(())
}

/// Answers a line that needs no store.
fn answer_plain(rt: &HostRuntime, line: Line) -> anyhow::Result<()> {
    if let Line::Decode(bytes) = line {
        rt.print(decode_answer(rt.alloc(), bytes.as_slice())?)?;
    }
    Ok(())
}

/// Takes the set-up lines, up to the first call, whose cell it gives.
fn set_up<R: BufRead + Drop>(
    rt: &HostRuntime,
    lines: &mut SheetLines<R>,
    setup: &mut Setup,
) -> anyhow::Result<Option<u16>> {
    for line in lines {
        let NumberedLine { number, line } = line?;
        match line {
            SheetLine::Plain(line) => answer_plain(rt, line)?,
            SheetLine::Cell(cell) => return Ok(Some(cell)),
            SheetLine::Setup(line) => setup.add(line).map_err(|why| error_at(number, why))?,
        }
    }
    Ok(None)
}

fn run(rt: &HostRuntime) -> anyhow::Result<()> {
    let mut lines = SheetLines::new(rt.alloc(), BufReader::new(rt.alloc(), rt.stdin())?);
    let mut setup = Setup::new();
    let first = set_up(rt, &mut lines, &mut setup)?;
    let mut memory = setup.memory(rt.alloc())?;
    let values = memory.as_mut_slice();
    let calls = Calls {
        rt,
        setup: &setup,
        first,
        lines: &mut lines,
    };
    match setup.store() {
        StoreCells::Dense(_) => calls.over_store(DenseStore::new(values)),
        StoreCells::Sparse(cells) => calls.over_store(SparseStore::new(cells, values)),
    }
}

fn main(rt: HostRuntime) -> ExitCode {
    match run(&rt) {
        Ok(()) => ExitCode::SUCCESS,
        Err(error) => {
            // The status tells of the error even where its message cannot be written.
            let _ = eprintln!(rt; "dispatch: {error}");
            ExitCode::FAILURE
        }
    }
}
