//! The fields of a telegram, each read at the reader's place.
ghost use Rattle.std.specs.Prelude.{◌≡◌, ◌<◌, ◌≤◌, IfOk, IsTrue, IsFalse, Ok};
ghost use Rattle.std.specs.Fn.{FnOnceReturnsAtMut};
ghost use Rattle.telegram.specs.Decode.{bytes_at, byte_at, cell_at, word_at, byte_up_to, stands as stands_in, map_at, class_at, entry_list, list_at, field, list_field, writes_at, record_at};
ghost use Rattle.telegram.specs.Records.{decoded, decoded_list, PartOf, PartsOf};
ghost use Rattle.telegram.specs.Readers.{Reads, ReadsList};

use super::super::list::CellList;
use super::super::record::Record;
use super::super::refusal::{Refusal, Refused};
use super::Reader;
use order::Cells;

/// The bit of a map that says that a class is there.
const CLASS: u8 = 0;

/// The bit of a map that says that a code is there.
const CODE: u8 = 1;

/// The bit of a map that says that an argument is there.
const ARGUMENT: u8 = 2;

/// The bit of a map that says that a read list is there.
const READS: u8 = 3;

/// The bit of a map that says that a write list is there.
const WRITES: u8 = 4;

/// The bit of a map that says that the write list is the read list.
const SAME_LIST: u8 = 5;

fn has_bit(map: u8, bit: u8) -> bool
    requires { bit < 8 }
    ensures { result ≡ stands_in map bit }
{
    map >> bit & 1 == 1
}

impl<'a> Reader<'a> {
    /// The next N bytes.
    fn take<const N: usize>(&mut self) -> Result<[u8; N], Refused>
        ensures { Reads (λ b. b) self.old result self.new (bytes_at N) }
    {
        let left = &self.bytes[self.place..];
        let Some(taken) = left.first_chunk::<N>() else {
            return Err(Refusal::EndsEarly.at(self.bytes.len()));
        };
        self.place += N;
        Ok(*taken)
    }

    fn byte(&mut self) -> Result<u8, Refused>
        ensures { Reads (λ b. b) self.old result self.new byte_at }
    {
        let [byte] = self.take::<1>()?;
        Ok(byte)
    }

    // A line for each type: what its bytes are worth differs.
    fn cell(&mut self) -> Result<u16, Refused>
        ensures { Reads (λ c. c) self.old result self.new cell_at }
    {
        Ok(u16::from_be_bytes(self.take()?))
    }

    fn word(&mut self) -> Result<u32, Refused>
        ensures { Reads (λ w. w) self.old result self.new word_at }
    {
        Ok(u32::from_be_bytes(self.take()?))
    }

    /// A byte that is at most `max`; another is refused.
    pub(super) fn byte_up_to(&mut self, max: u8, refusal: Refusal) -> Result<u8, Refused>
        ensures { Reads (λ b. b) self.old result self.new (byte_up_to max refusal) }
    {
        let at = self.place;
        let byte = self.byte()?;
        if byte > max {
            return Err(refusal.at(at));
        }
        Ok(byte)
    }

    fn map_byte(&mut self) -> Result<u8, Refused>
        ensures { Reads (λ m. m) self.old result self.new map_at }
    {
        let at = self.place;
        let map = self.byte()?;
        // Bits 6 and 7 mean nothing, so they have no name.
        if has_bit(map, 6) || has_bit(map, 7) || has_bit(map, WRITES) && has_bit(map, SAME_LIST) {
            return Err(Refusal::BadMap.at(at));
        }
        Ok(map)
    }

    /// A field: `read` reads it where its bit stands, and else it is `absent` and takes no byte.
    fn field<V: Copy, F: FnOnce(&mut Reader<'a>) -> Result<V, Refused>>(
        &mut self,
        stands: bool,
        absent: V,
        read: F,
    ) -> Result<V, Refused>
        requires { F.IsAlwaysCallable read }
        ensures present { IsTrue stands → FnOnceReturnsAtMut F.FnOnce read self.old result self.new }
        ensures absent { IsFalse stands → (result ≡ Ok absent) × (self.new ≡ self.old) }
    {
        if stands { read(self) } else { Ok(absent) }
    }

    fn class_field(&mut self, map: u8) -> Result<u8, Refused>
        ensures { Reads (λ c. c) self.old result self.new (λ t. field map 0 4 (class_at t)) }
    {
        self.field(has_bit(map, CLASS), 4, |reader| {
            reader.byte_up_to(7, Refusal::BadClass)
        })
    }

    fn code_field(&mut self, map: u8) -> Result<u8, Refused>
        ensures { Reads (λ c. c) self.old result self.new (λ t. field map 1 1 (byte_at t)) }
    {
        self.field(has_bit(map, CODE), 1, Reader::byte)
    }

    fn argument_field(&mut self, map: u8) -> Result<u32, Refused>
        ensures { Reads (λ a. a) self.old result self.new (λ t. field map 2 0 (word_at t)) }
    {
        self.field(has_bit(map, ARGUMENT), 0, Reader::word)
    }

    /// The entries of a list. A repeated cell is refused as soon as both its bytes have come.
    fn entries(&mut self, count: u8) -> Result<CellList<'a>, Refused>
        requires { count ≤ 8 }
        ensures { ReadsList self.old result self.new (entry_list count) }
    {
        let from = self.place;
        let mut seen = Cells::new();
        for _ in 0..count {
            let at = self.place;
            let cell = self.cell()?;
            seen.push(cell)
                .map_err(|refusal| Refusal::from(refusal).at(at))?;
        }
        Ok(CellList {
            entries: &self.bytes[from..self.place],
            place: from,
        })
    }

    fn list(&mut self) -> Result<CellList<'a>, Refused>
        ensures { ReadsList self.old result self.new list_at }
    {
        let at = self.place;
        let count = self.byte()?;
        if count == 0 || count > 8 {
            return Err(Refusal::BadListCount.at(at));
        }
        self.entries(count)
    }

    /// The list of a bit; without it the list is empty.
    fn list_field(&mut self, map: u8, bit: u8) -> Result<CellList<'a>, Refused>
        requires { bit < 8 }
        ensures { ReadsList self.old result self.new (λ t. list_field t map bit) }
    {
        let empty = CellList {
            entries: &[],
            place: self.place,
        };
        self.field(has_bit(map, bit), empty, Reader::list)
    }

    pub(super) fn record(&mut self) -> Result<Record<'a>, Refused>
        ensures parts { IfOk result (PartsOf self.old.bytes.now) }
        ensures value { Reads decoded self.old result self.new record_at }
    {
        let map = self.map_byte()?;
        let class = self.class_field(map)?;
        let code = self.code_field(map)?;
        let argument = self.argument_field(map)?;
        let reads = self.list_field(map, READS)?;
        // Chosen here: a function of its own would hand the list out as its result, which is one copy more.
        let writes = if has_bit(map, SAME_LIST) {
            reads
        } else {
            self.list_field(map, WRITES)?
        };
        Ok(Record {
            class,
            code,
            argument,
            reads,
            writes,
        })
    }
}
