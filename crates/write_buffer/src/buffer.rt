ghost use Rattle.std.specs.Prelude.{◌≡◌, []};
ghost use Rattle.store.specs.Meaning.{checked, put};
ghost use Rattle.write_buffer.specs.Buffered.{laid, buffer_at, sunk, sent_if};
ghost use Rattle.write_buffer.specs.Seen.{held_by, buffer_seen, BufferWrote, AllSent};

use super::entries::{Entries, Entry};
use store::{Fault, Store, pass_up};

/// A store with up to sixteen written values held back above it.
///
/// How the entries lie in memory is free. The contracts fix what `held_by` says, the list of held values by age, and what the
/// store below means and becomes.
#[derive(Drop)]
pub struct WriteBuffer<S> {
    below: S,
    entries: Entries,
}

impl<S: Store> WriteBuffer<S> {
    /// A buffer that holds nothing back.
    pub fn new(below: S) -> WriteBuffer<S>
        ensures means { buffer_seen S.Store result ≡ buffer_at (S.Store.at below) [] }
        ensures under { result.below ≡ below }
        ensures empty { held_by result ≡ [] }
    {
        WriteBuffer {
            below,
            entries: Entries::new(),
        }
    }

    /// The store below, without what is held back.
    pub fn below(&self) -> &S
        ensures { result.now ≡ self.now.below }
    {
        &self.below
    }

    /// Sends everything that is held back to the store below, what was held longest first.
    pub fn flush(&mut self)
        ensures empties { held_by self.new ≡ [] }
        ensures sends { S.Store.at self.new.below ≡ laid (S.Store.at self.old.below) (held_by self.old) }
        ensures keeps { buffer_seen S.Store self.new ≡ buffer_seen S.Store self.old }
        ensures went { AllSent S.Store (held_by self.old) self.old.below self.new.below }
    {
        // Until nothing is held, so no index is counted.
        while let Some(oldest) = self.entries.take_oldest() {
            let _ = self.below.write(oldest.cell, oldest.value);
        }
    }

    /// The store below, once everything that was held back is sent to it.
    pub fn into_below(mut self) -> S
        ensures sends { S.Store.at result ≡ laid (S.Store.at self.below) (held_by self) }
        ensures went { AllSent S.Store (held_by self) self.below result }
    {
        self.flush();
        self.below
    }

    /// Holds a value back, and sends below what has to go for it.
    // Apart from `write`: what the buffer then means follows from `went` and `sends`.
    #[tactic(auto, using(crate::proofs::Laid::laid_reads))]
    fn hold_back(&mut self, cell: u16, value: u32) -> Result<(), Fault>
        ensures answers { result ≡ checked (buffer_seen S.Store self.old cell) }
        ensures went { BufferWrote S.Store self.old cell value self.new }
        ensures sends { S.Store.at self.new.below ≡ sunk (S.Store.at self.old.below) (sent_if (S.Store.at self.old.below cell) (held_by self.old) cell) }
    {
        self.check(cell)?;
        if let Some(gone) = self.entries.hold(Entry { cell, value }) {
            let _ = self.below.write(gone.cell, gone.value);
        }
        Ok(())
    }
}

impl<S: Store> Store for WriteBuffer<S> {
    ghost at = { buffer_seen S.Store };

    ghost wrote = { BufferWrote S.Store };

    #[tactic(auto, using(crate::proofs::Laid::laid_reads))]
    fn check(&self, cell: u16) -> Result<(), Fault> {
        pass_up(self.below.check(cell))
    }

    #[tactic(auto, using(crate::proofs::Laid::laid_reads))]
    fn read(&self, cell: u16) -> Result<u32, Fault> {
        let value = pass_up(self.below.read(cell))?;
        Ok(self.entries.value_of(cell).unwrap_or(value))
    }

    fn write(&mut self, cell: u16, value: u32) -> Result<(), Fault>
        ensures answers { result ≡ checked (buffer_seen S.Store self.old cell) }
        ensures sets { buffer_seen S.Store self.new ≡ put (buffer_seen S.Store self.old) cell value }
        ensures went { BufferWrote S.Store self.old cell value self.new }
        ensures sends { S.Store.at self.new.below ≡ sunk (S.Store.at self.old.below) (sent_if (S.Store.at self.old.below cell) (held_by self.old) cell) }
    {
        self.hold_back(cell, value)
    }
}
