//! Reading objects of a store, and what there is in it.
ghost use Rattle.std.specs.Prelude.{◌≡◌, ◌↔◌, true, length, take, Err, IfErr, IfOk, IsErr, None, OnErr, OnOk};
ghost use Rattle.std.specs.FinMap as fin;
ghost use Rattle.extent_table.specs.Extents.{volume_of};
ghost use Rattle.map_model.specs.Requests as ask;
ghost use Rattle.segment_layout.specs.Books.{book_end};
ghost use Rattle.store_model.specs.{Answers.{AnswersNumber, refused_by, size_at}, Readings.{asks_for, object_read, position_of, spot_read}};
ghost use Rattle.lent_store.specs.Readings.{CanCopy, ListsInto, ReadsInto, StandsAt, object_answer, read_answer};

use crate::LentStore;
use lent_disk::FileView;
use store_core::{Gauge, Moment, Refusal, Stat};

impl LentStore {
    ghost use Rattle.lent_store.specs.Embedded.{file_in};
    ghost use Rattle.store_model.specs.{Connection.{limits_of, state_of}, States.{Step}};

    /// The size of an object.
    pub fn size(&self, name: &[u8]) -> Result<u64, Refusal>
        ensures { AnswersNumber (refused_by self.now.store (ask.get name.now))
            (size_at (fin.get self.now.store.now name.now)) result }
    {
        self.store.size(name)
    }

    /// The size of an object of the last checkpoint.
    pub fn old_size(&self, name: &[u8]) -> Result<u64, Refusal>
        requires idle { self.now.store.in_hand ≡ None }
        ensures { AnswersNumber (refused_by self.now.store (ask.old name.now))
            (size_at (fin.get self.now.store.kept name.now)) result }
    {
        self.store.old_size(name)
    }

    /// Where an object begins in the file: a position in bytes, the header's included. Its bytes stand there
    /// until the next call that changes. They aren't compared with a digest.
    pub fn position(&self, name: &[u8]) -> Result<u64, Refusal>
        ensures answer { AnswersNumber (refused_by self.now.store (ask.get name.now))
            (position_of self.now.store (ask.get name.now)) result }
        ensures object { IfOk result (StandsAt self.now name.now) }
    {
        if self.store.is_broken() {
            return Err(Refusal::Broken);
        }
        self.store.position(Moment::Now, name)
    }

    /// Copies an object to the front of `out`, also while a flush is in hand, and answers how many bytes it
    /// has. The sink failed where they don't fit.
    pub fn get(&self, name: &[u8], out: &mut [u8]) -> Result<u64, Refusal>
        ensures { ReadsInto (ask.get name.now) self.now out.old out.new result }
    {
        self.read(Moment::Now, name, out)
    }

    /// Copies an object of the last checkpoint to the front of `out`, as `get` does one of now.
    pub fn old(&self, name: &[u8], out: &mut [u8]) -> Result<u64, Refusal>
        ensures { ReadsInto (ask.old name.now) self.now out.old out.new result }
    {
        self.read(Moment::Kept, name, out)
    }

    /// Copies an object of now or of the last checkpoint.
    fn read(&self, moment: Moment, name: &[u8], out: &mut [u8]) -> Result<u64, Refusal>
        ensures { ReadsInto (asks_for moment name.now) self.now out.old out.new result }
    {
        match self.fits(moment, name, out.len()) {
            Ok(()) => self.fetch(moment, name, out),
            Err(refusal) => Err(refusal),
        }
    }

    /// Whether an object of now or of the last checkpoint may be read into so many bytes.
    fn fits(&self, moment: Moment, name: &[u8], room: usize) -> Result<(), Refusal>
        ensures fits { OnOk result (CanCopy self.now (asks_for moment name.now) room) }
        ensures refused { IfErr result (λ why. read_answer self.now (asks_for moment name.now) room
            ≡ Err why) }
    {
        if self.store.is_broken() {
            return Err(Refusal::Broken);
        }
        match self.store.size_of(moment, name) {
            Ok(size) => {
                if size > room as u64 {
                    return Err(Refusal::Sink);
                }
                Ok(())
            }
            Err(refusal) => Err(refusal),
        }
    }

    /// Copies one that fits.
    fn fetch(&self, moment: Moment, name: &[u8], out: &mut [u8]) -> Result<u64, Refusal>
        requires fits { CanCopy self.now (asks_for moment name.now) (length out.old) }
        ensures answer { result ≡ object_answer self.now (asks_for moment name.now) }
        ensures object { IfOk result (λ n. take n out.new
            ≡ object_read (state_of self.now.store (file_in self.now)) (asks_for moment name.now)) }
        ensures same_length { length out.new ≡ length out.old }
    {
        let mut view = FileView::of(self.disk.room());
        self.store.fetch(moment, &mut view, name, out)
    }

    /// Copies a line for each name to the front of `out`, the name and the size of its object, by rising
    /// name, and answers how many bytes they have. The sink failed where they don't fit.
    pub fn list(&self, out: &mut [u8]) -> Result<u64, Refusal>
        ensures { ListsInto self.now out.old out.new result }
    {
        self.store.list_into(out)
    }

    /// How many names and bytes there are, now and at the last checkpoint.
    pub fn stat(&self) -> Result<Stat, Refusal>
        requires idle { self.now.store.in_hand ≡ None }
        ensures broken { IsErr result ↔ (self.now.store.is_broken ≡ true) }
        ensures refused { OnErr result (result ≡ Err Refusal.Broken) }
        ensures names { IfOk result (λ s. s.names ≡ fin.len self.now.store.now) }
        ensures bytes { IfOk result (λ s. s.bytes ≡ volume_of self.now.store.now) }
        ensures kept_names { IfOk result (λ s. s.kept_names ≡ fin.len self.now.store.kept) }
        ensures kept_bytes { IfOk result (λ s. s.kept_bytes ≡ volume_of self.now.store.kept) }
        ensures step { IfOk result (λ s. Step (limits_of self.now.store)
            (state_of self.now.store (file_in self.now)) ask.stat
            (ask.counts s.names s.bytes s.kept_names s.kept_bytes)
            (state_of self.now.store (file_in self.now))) }
    {
        self.store.stat()
    }

    /// Goes back to the last checkpoint. It makes no call, so the log is as it was.
    pub fn back(&mut self) -> Result<(), Refusal>
        requires idle { self.old.store.in_hand ≡ None }
        ensures answer { IsErr result ↔ (self.old.store.is_broken ≡ true) }
        ensures refused { OnErr result (result ≡ Err Refusal.Broken) }
        ensures unchanged { OnErr result (self.new ≡ self.old) }
        ensures back { OnOk result (self.new.store ≡ record self.old.store {
          now = self.old.store.kept;
          book = self.old.store.kept_book;
        }) }
        ensures noting { self.new.noting ≡ self.old.noting }
        ensures step { OnOk result (Step (limits_of self.old.store)
            (state_of self.old.store (file_in self.old)) ask.back ask.done
            (state_of self.new.store (file_in self.new))) }
    {
        self.store.back()
    }

    /// How long the data part is, and the sequence of the last checkpoint.
    pub fn gauge(&self) -> Gauge
        ensures length { result.length ≡ book_end self.now.store.in_use.block.k self.now.store.book }
        ensures sequence { result.sequence ≡ self.now.store.in_use.sequence }
    {
        self.store.gauge()
    }

    /// How many names are live.
    pub fn live(&self) -> u64
        ensures { result ≡ fin.len self.now.store.now }
    {
        self.store.live()
    }
}
