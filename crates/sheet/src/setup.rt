//! What the set-up lines of a sheet said.
ghost use Rattle.std.specs.Prelude.{◌≡◌, IfOk};
ghost use Rattle.sheet.specs.Requests.{piece_said};
ghost use Rattle.sheet.specs.Setups.{nothing_yet, store_wanted, cell_count, memory_of, AnyOrder, PlaceForEach, ValuesInOrder};
ghost use Rattle.sheet.specs.Held.{wanted, shown_store, addition, added};

use super::LineError;
use super::setup_line::{SetupLine, StoreKind, WindowSize};
use std::alloc::{AllocError, Global};

/// What the set-up lines of a sheet said so far.
#[derive(Drop)]
pub struct Setup {
    store: Option<StoreKind>,
    values: Option<Vec<u32>>,
    window: Option<WindowSize>,
    // The line says no more than that it came.
    buffer: bool,
}

/// The cells of the store that a sheet wants.
// The lent form of `StoreKind`, as `&[T]` is of `Vec<T>`.
#[derive(Drop)]
pub enum StoreCells<'a> {
    /// The cells below a number.
    Dense(u16),
    /// The cells with these numbers, as they were given.
    Sparse(&'a [u16]),
}

impl Setup {
    /// Nothing is set up yet.
    pub fn new() -> Setup
        ensures { wanted result ≡ nothing_yet }
    {
        Setup {
            store: None,
            values: None,
            window: None,
            buffer: false,
        }
    }

    /// Takes one line more. A line of a kind that was there before is not understood and changes nothing.
    pub fn add(&mut self, line: SetupLine) -> Result<(), LineError>
        ensures answer { result ≡ addition (wanted self.old) (piece_said line) }
        ensures after { wanted self.new ≡ added (wanted self.old) (piece_said line) }
    {
        match line {
            SetupLine::Store(kind) if self.store.is_none() => self.store = Some(kind),
            SetupLine::Values(values) if self.values.is_none() => self.values = Some(values),
            SetupLine::Window(size) if self.window.is_none() => self.window = Some(size),
            SetupLine::Buffer if !self.buffer => self.buffer = true,
            _ => return Err(LineError::NotUnderstood),
        }
        Ok(())
    }

    /// The store that is wanted: 64 dense cells where no line says another.
    pub fn store(&self) -> StoreCells<'_>
        ensures { shown_store result ≡ store_wanted (wanted self.now) }
    {
        match &self.store {
            None => StoreCells::Dense(64),
            Some(StoreKind::Dense(count)) => StoreCells::Dense(*count),
            Some(StoreKind::Sparse(cells)) => StoreCells::Sparse(cells.as_slice()),
        }
    }

    /// The memory of the values of the store: one place for each cell, 0 where the sheet says no value.
    pub fn memory(&self, heap: Global) -> Result<Vec<u32>, AllocError>
        ensures { IfOk result (λ v. v.items ≡ memory_of (wanted self.now)) }
    {
        let mut memory = match &self.values {
            Some(values) => Vec::from_slice(heap, values.as_slice())?,
            None => Vec::new(heap),
        };
        memory.resize(self.store().count(), 0)?;
        Ok(memory)
    }

    /// The window on the store, if there is one.
    pub fn window(&self) -> Option<WindowSize>
        ensures { result ≡ (wanted self.now).window }
    {
        self.window
    }

    /// Whether a buffer stands on top.
    pub fn has_buffer(&self) -> bool
        ensures { result ≡ (wanted self.now).buffer }
    {
        self.buffer
    }
}

impl StoreCells<'_> {
    /// How many cells these are.
    pub fn count(&self) -> usize
        ensures { result ≡ cell_count (shown_store self.now) }
    {
        match self {
            StoreCells::Dense(count) => usize::from(*count),
            StoreCells::Sparse(cells) => cells.len(),
        }
    }
}

/// In which order set-up lines come does not matter; the memory has one place for each cell, with the values in their
/// order.
pub fn laws_of_setups()
    ensures order { AnyOrder }
    ensures places { PlaceForEach }
    ensures values { ValuesInOrder }
{}
