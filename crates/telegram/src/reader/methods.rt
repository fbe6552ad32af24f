ghost use Rattle.std.specs.Prelude.{◌≡◌, IfOk, is_ok, if◌then◌else◌};
ghost use Rattle.std.specs.Fn.{FnOnceReturnsAtMut};
ghost use Rattle.telegram.specs.Decode.{count_at, record_at, end_at, place_after};
ghost use Rattle.telegram.specs.declared.reader.Reader.{Reader};
ghost use Rattle.telegram.specs.Records.{seen, seen_record, PartsOf};

use super::super::record::Record;
use super::super::refusal::{Refusal, Refused};
use super::Reader;

/// Puts the reader back where it stood, at its end, unless what was read was accepted.
// A guard, so that every way out of a reading puts the reader back.
struct Rewind<'r, 'a> {
    reader: &'r mut Reader<'a>,
    start: Reader<'a>,
    // A flag and no Option of the start: it says which way the guard ends.
    accepted: bool,
}

impl Drop for Rewind<'_, '_> {
    fn drop(self)
        ensures { self.exit.0.now ≡ (if self.entry.accepted then self.entry.reader.now else self.entry.start) }
    {
        if !self.accepted {
            *self.reader = self.start;
        }
        let Rewind {
            reader: _,
            start: _,
            accepted: _,
        } = self;
    }
}

impl<'a> Reader<'a> {
    pub fn new(bytes: &'a [u8]) -> Reader<'a>
        ensures bytes { result.bytes.now ≡ bytes.now }
        ensures place { result.place ≡ 0 }
    {
        Reader { bytes, place: 0 }
    }

    pub fn place(&self) -> usize
        ensures { result ≡ self.now.place }
    {
        self.place
    }

    /// The count byte: how many orders the telegram has.
    pub fn count(&mut self) -> Result<u8, Refused>
        ensures same { self.new.bytes.now ≡ self.old.bytes.now }
        ensures place { self.new.place ≡ place_after self.old.place (count_at self.old.bytes.now self.old.place) }
        ensures value { seen result self.new.place ≡ count_at self.old.bytes.now self.old.place }
    {
        self.all_or_nothing(|reader| reader.byte_up_to(64, Refusal::TooManyOrders))
    }

    /// The next order. Where it is refused, the place is that of its first byte again.
    pub fn next_record(&mut self) -> Result<Record<'a>, Refused>
        ensures same { self.new.bytes.now ≡ self.old.bytes.now }
        ensures place { self.new.place ≡ place_after self.old.place (record_at self.old.bytes.now self.old.place) }
        ensures parts { IfOk result (PartsOf self.old.bytes.now) }
        ensures value { seen_record result self.new.place ≡ record_at self.old.bytes.now self.old.place }
    {
        self.all_or_nothing(Reader::record)
    }

    /// Reads by `read`. Where that is refused, the reader stands where it stood.
    fn all_or_nothing<V, F: FnOnce(&mut Reader<'a>) -> Result<V, Refused>>(
        &mut self,
        read: F,
    ) -> Result<V, Refused>
        requires { F.IsAlwaysCallable read }
        ensures { (after : Reader) × FnOnceReturnsAtMut F.FnOnce read self.old result after × (self.new ≡ (if is_ok result then after else self.old)) }
    {
        let start = *self;
        let mut rewind = Rewind {
            reader: self,
            start,
            accepted: false,
        };
        // By a match: an answer that is held while the flag is set is copied once more, and reading takes several times as long.
        match read(rewind.reader) {
            Ok(value) => {
                rewind.accepted = true;
                Ok(value)
            }
            Err(refused) => Err(refused),
        }
    }

    /// Whether all bytes were read.
    pub fn end(&self) -> Result<(), Refused>
        ensures { seen result self.now.place ≡ end_at self.now.bytes.now self.now.place }
    {
        if self.place < self.bytes.len() {
            return Err(Refusal::LeftOver.at(self.place));
        }
        Ok(())
    }
}
