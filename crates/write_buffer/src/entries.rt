ghost use Rattle.std.specs.Prelude.{◌≡◌, ◌<◌, [], ◌∷◌, ◌++◌, length, drop};
ghost use Rattle.write_buffer.specs.Held.{by_age, held_value, renewed, oldest, with_room, evicted, written, sent};

/// A written value that is held back.
#[derive(Clone, Copy, PartialEq, Eq, Debug)]
pub struct Entry {
    pub cell: u16,
    pub value: u32,
}

/// Up to sixteen written values that are held back, the one held longest first.
///
/// Every content has a meaning: a count above sixteen is read as sixteen, and of two entries of a cell the younger one counts.
// A fixed array with a count, since a buffer takes no memory but its own and the library stands on no crate of the kit (an
// `ArrayVec` would be one). Its type does not bound the count, since no proof covers a type argument that holds a ghost field
// beside a `&mut`, as a buffer over lent memory under another layer would.
#[derive(Drop)]
pub struct Entries {
    slots: [Entry; 16],
    count: usize,
}

impl Entries {
    /// A table that holds nothing.
    pub fn new() -> Entries
        ensures { by_age result ≡ [] }
    {
        Entries {
            slots: [Entry { cell: 0, value: 0 }; 16],
            count: 0,
        }
    }

    /// What is held.
    fn as_slice(&self) -> &[Entry]
        ensures { result.now ≡ by_age self.now }
    {
        &self.slots[..self.count.min(16)]
    }

    /// The value that is held for a cell.
    pub fn value_of(&self, cell: u16) -> Option<u32>
        ensures { result ≡ held_value (by_age self.now) cell }
    {
        newest(self.as_slice(), cell)
    }

    /// How many are held.
    fn len(&self) -> usize
        ensures { result ≡ length (by_age self.now) }
    {
        self.as_slice().len()
    }

    /// Takes out the one held longest.
    pub fn take_oldest(&mut self) -> Option<Entry>
        ensures gives { result ≡ oldest (by_age self.old) }
        ensures leaves { by_age self.new ≡ drop 1 (by_age self.old) }
        ensures room { length (by_age self.new) < 16 }
    {
        let len = self.len();
        let oldest = self.as_slice().first().copied()?;
        self.slots.rotate_left(1);
        self.count = len - 1;
        Some(oldest)
    }

    /// Takes out the one held longest, if sixteen are held.
    fn make_room(&mut self) -> Option<Entry>
        ensures gives { result ≡ evicted (by_age self.old) }
        ensures leaves { by_age self.new ≡ with_room (by_age self.old) }
        ensures room { length (by_age self.new) < 16 }
    {
        if self.len() < 16 {
            None
        } else {
            self.take_oldest()
        }
    }

    /// Puts an entry behind the others.
    fn push(&mut self, latest: Entry)
        requires { length (by_age self.old) < 16 }
        ensures { by_age self.new ≡ by_age self.old ++ (latest ∷ []) }
    {
        let len = self.len();
        self.slots[len] = latest;
        self.count = len + 1;
    }

    /// Holds a value for a cell of the store, and gives the entry that has to go for it.
    #[tactic(auto, using(crate::proofs::Table::renewed_take))]
    pub fn hold(&mut self, latest: Entry) -> Option<Entry>
        ensures gives { result ≡ sent (by_age self.old) latest.cell }
        ensures leaves { by_age self.new ≡ written (by_age self.old) latest.cell latest.value }
    {
        if self.value_of(latest.cell).is_some() {
            // A slot behind the count holds nothing, whatever stands there.
            renew(&mut self.slots, latest);
            return None;
        }
        let gone = self.make_room();
        self.push(latest);
        gone
    }
}

/// The value of the youngest entry of a cell.
fn newest(entries: &[Entry], cell: u16) -> Option<u32>
    ensures { result ≡ held_value entries.now cell }
{
    entries
        .iter()
        .rev()
        .find(|entry| entry.cell == cell)
        .map(|entry| entry.value)
}

/// Gives the entries of a cell another value.
#[tactic(auto, using(crate::proofs::Table::renewing_same, crate::proofs::Table::renewing_other))]
fn renew(entries: &mut [Entry], latest: Entry)
    ensures { entries.new ≡ renewed entries.old latest.cell latest.value }
{
    for entry in entries.iter_mut() {
        if entry.cell == latest.cell {
            entry.value = latest.value;
        }
    }
}
