//! Reading objects, of now and of the last checkpoint.
ghost use Rattle.std.specs.Prelude.{◌≡◌, false, ◌+◌, ◌++◌, ◌≤◌, [], IsTrue, None, length};
ghost use Rattle.std.specs.FinMap as fin;
ghost use Rattle.disk_face.specs.{Devices.{devices}, Frames.{Unchanged}};
ghost use Rattle.slot_pair.specs.Finding.{HasDiskCause};
ghost use Rattle.extent_table.specs.Extents.{IsInRange};
ghost use Rattle.placement_model.specs.Reads.{object_at};
ghost use Rattle.slot_codec.specs.Names.{is_name};
ghost use Rattle.map_model.specs.Requests as ask;
ghost use Rattle.store_model.specs.{Answers.{AnswersName, AnswersNumber, AnswersRead, AnswersSpot, refused_by, size_at}, Readings.{IsRead, asks_for, digest_read, position_of, spot_read}, Reads.{GivesObject, PutsJudged}};
ghost use Rattle.store_model.specs.{Connection.{IsConnected, base_of}, Halves.{IsReadable}, Stores.{IsStanding, IsStore}};
ghost use Rattle.data_area.specs.Causes.{HasSinkCause};

use crate::copy::put_judged;
use crate::{Moment, Refusal, Store};
use disk_face::{Disk, Sink};
use extent_table::Spot;
use slot_codec::Name;

impl<const C: usize> Store<C> {
    /// The size of an object.
    pub fn size(&self, name: &[u8]) -> Result<u64, Refusal>
        ensures { AnswersNumber (refused_by self.now (ask.get name.now))
            (size_at (fin.get self.now.now name.now)) result }
    {
        self.size_of(Moment::Now, name)
    }

    /// The size of an object of the last checkpoint.
    pub fn old_size(&self, name: &[u8]) -> Result<u64, Refusal>
        requires idle { self.now.in_hand ≡ None }
        ensures { AnswersNumber (refused_by self.now (ask.old name.now))
            (size_at (fin.get self.now.kept name.now)) result }
    {
        self.size_of(Moment::Kept, name)
    }

    /// The size of an object of now or of the last checkpoint.
    pub fn size_of(&self, moment: Moment, name: &[u8]) -> Result<u64, Refusal>
        ensures { AnswersNumber (refused_by self.now (asks_for moment name.now))
            (size_at (spot_read self.now (asks_for moment name.now))) result }
    {
        Ok(self.find(moment, name)?.size)
    }

    /// Where an object of now or of the last checkpoint begins in the file: a position in bytes, the header's
    /// included. Its bytes stand there until the next call that changes.
    pub fn position(&self, moment: Moment, name: &[u8]) -> Result<u64, Refusal>
        ensures { AnswersNumber (refused_by self.now (asks_for moment name.now))
            (position_of self.now (asks_for moment name.now)) result }
    {
        let spot = self.find(moment, name)?;
        Ok(self.position_at(spot))
    }

    /// The position in the file of a spot.
    fn position_at(&self, spot: Spot) -> u64
        requires standing { IsStanding self.now }
        requires range { IsInRange spot }
        ensures { result ≡ base_of self.now + spot.place }
    {
        self.hands.base + spot.place
    }

    /// Puts the bytes of an object, also while a flush is in hand. At Ok all of them were put, and the answer
    /// is how many they are; at a fault of a device a front of them.
    pub fn get<D: Disk, O: Sink>(
        &mut self,
        disk: &mut D,
        name: &[u8],
        sink: &mut O,
    ) -> Result<u64, Refusal>
        requires ready { IsTrue (D.state disk.old).is_ready }
        requires over { IsReadable C self.old (D.state disk.old) }
        ensures { IsRead (ask.get name.now) [] self.old self.new
            (devices (D.state disk.old) (O.state sink.old)) (devices (D.state disk.new) (O.state sink.new))
            result }
    {
        self.read(Moment::Now, disk, name, sink)
    }

    /// Puts the bytes that an object had at the last checkpoint, as `get` does those of now.
    pub fn old<D: Disk, O: Sink>(
        &mut self,
        disk: &mut D,
        name: &[u8],
        sink: &mut O,
    ) -> Result<u64, Refusal>
        requires ready { IsTrue (D.state disk.old).is_ready }
        requires over { IsConnected C self.old (D.state disk.old) }
        ensures { IsRead (ask.old name.now) [] self.old self.new
            (devices (D.state disk.old) (O.state sink.old)) (devices (D.state disk.new) (O.state sink.new))
            result }
    {
        self.read(Moment::Kept, disk, name, sink)
    }

    /// Puts the bytes of an object of now or of the last checkpoint, as `get` and `old` do.
    pub fn read<D: Disk, O: Sink>(
        &mut self,
        moment: Moment,
        disk: &mut D,
        name: &[u8],
        sink: &mut O,
    ) -> Result<u64, Refusal>
        requires ready { IsTrue (D.state disk.old).is_ready }
        requires over { IsReadable C self.old (D.state disk.old) }
        ensures { IsRead (asks_for moment name.now) [] self.old self.new
            (devices (D.state disk.old) (O.state sink.old)) (devices (D.state disk.new) (O.state sink.new))
            result }
    {
        self.read_behind(moment, disk, name, b"", sink)
    }

    /// Puts a head, and behind it the bytes of an object of now or of the last checkpoint. The head is put
    /// directly before the first of these, once they were read, or alone where there are none; nothing is
    /// put at a refusal, nor where the bytes have another digest than they are to have. The answer is how
    /// many bytes the object has.
    pub fn read_behind<D: Disk, O: Sink>(
        &mut self,
        moment: Moment,
        disk: &mut D,
        name: &[u8],
        head: &[u8],
        sink: &mut O,
    ) -> Result<u64, Refusal>
        requires ready { IsTrue (D.state disk.old).is_ready }
        requires over { IsReadable C self.old (D.state disk.old) }
        ensures { IsRead (asks_for moment name.now) head.now self.old self.new
            (devices (D.state disk.old) (O.state sink.old)) (devices (D.state disk.new) (O.state sink.new))
            result }
    {
        match self.find(moment, name) {
            Ok(spot) => {
                let digest = self.digest_of_object(moment, name);
                self.put_object(disk, spot, &digest, head, sink)
            }
            Err(refusal) => Err(refusal),
        }
    }

    /// The digest that an object of now or of the last checkpoint is to have, if there are digests.
    pub(crate) fn digest_of_object(&self, moment: Moment, name: &[u8]) -> Option<[u8; 32]>
        ensures read { IsTrue (is_name name.now) → result ≡ digest_read self.now (asks_for moment name.now) }
    {
        if self.hands.version != 2 {
            return None;
        }
        let name = Name::new(name)?;
        match moment {
            Moment::Now => self.hands.table.digest(&name),
            Moment::Kept => self.hands.table.old_digest(&name),
        }
    }

    /// Puts a head and the bytes at a spot where they have this digest, if there is one, and answers how
    /// many these are.
    fn put_object<D: Disk, O: Sink>(
        &mut self,
        disk: &mut D,
        spot: Spot,
        digest: &Option<[u8; 32]>,
        head: &[u8],
        sink: &mut O,
    ) -> Result<u64, Refusal>
        requires ready { IsTrue (D.state disk.old).is_ready }
        requires standing { IsStanding self.old }
        requires range { IsInRange spot }
        requires within { IsTrue (D.state disk.old).tells
            → base_of self.old + spot.place + spot.size ≤ length (D.state disk.old).file }
        ensures answer { AnswersRead None spot.size result }
        ensures judged { PutsJudged (D.state disk.old).tells digest.now
            (object_at (base_of self.old) (D.state disk.old).file spot) (O.state sink.old)
            (O.state sink.new) result }
        ensures gives { IsTrue (O.state sink.old).tells → GivesObject None (D.state disk.old).tells
            (head.now ++ object_at (base_of self.old) (D.state disk.old).file spot)
            (O.state sink.old).given (O.state sink.new).given (length head.now) result }
        ensures store { self.new ≡ self.old }
        ensures frame { Unchanged (D.state disk.old) (D.state disk.new) }
        ensures disk_cause { HasDiskCause Refusal.Disk (D.state disk.old).faults
            (D.state disk.new).faults result }
        ensures sink_cause { HasSinkCause Refusal.Sink (O.state sink.old) (O.state sink.new) result }
    {
        let hands = &mut *self.hands;
        put_judged(
            disk,
            hands.base + spot.place,
            spot.size,
            &mut hands.buf,
            digest,
            head,
            sink,
        )?;
        Ok(spot.size)
    }

    /// Where an object of now or of the last checkpoint stands.
    pub(crate) fn find(&self, moment: Moment, name: &[u8]) -> Result<Spot, Refusal>
        ensures answer { AnswersSpot (refused_by self.now (asks_for moment name.now))
            (spot_read self.now (asks_for moment name.now)) result }
        ensures sound { self.now.is_broken ≡ false → self.now.in_hand ≡ None → IsStore C self.now }
        ensures standing { self.now.is_broken ≡ false → IsStanding self.now }
    {
        let name = self.name_of(name)?;
        match moment {
            Moment::Now => self.hands.table.get(&name).ok_or(Refusal::Missing),
            Moment::Kept => self.hands.table.old(&name).ok_or(Refusal::Missing),
        }
    }

    /// The name of these bytes.
    pub(crate) fn name_of(&self, name: &[u8]) -> Result<Name, Refusal>
        ensures answer { AnswersName self.now name.now result }
        ensures sound { self.now.is_broken ≡ false → self.now.in_hand ≡ None → IsStore C self.now }
        ensures standing { self.now.is_broken ≡ false → IsStanding self.now }
    {
        if self.is_broken() {
            return Err(Refusal::Broken);
        }
        Name::new(name).ok_or(Refusal::BadName)
    }
}
