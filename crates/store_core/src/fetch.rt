//! Reading an object into memory.
ghost use Rattle.std.specs.Prelude.{◌≡◌, ◌+◌, ◌≤◌, false, IfOk, IsTrue, None, length, take};
ghost use Rattle.disk_face.specs.Frames.{Unchanged};
ghost use Rattle.slot_pair.specs.Finding.{HasDiskCause};
ghost use Rattle.extent_table.specs.Extents.{IsInRange};
ghost use Rattle.placement_model.specs.Reads.{object_at};
ghost use Rattle.store_model.specs.{Readings.{asks_for, digest_read, object_read, spot_read}, Reads.{IsJudged}, Answers.{AnswersFetch, refused_by, size_at}};
ghost use Rattle.store_model.specs.{Connection.{base_of, state_of}, Halves.{IsReadable}, Stores.{IsStanding}};

use crate::faults::disk_failed;
use crate::judge::judge;
use crate::{Moment, Refusal, Store};
use disk_face::{Disk, read};
use extent_table::Spot;

impl<const C: usize> Store<C> {
    /// Reads an object of now or of the last checkpoint into the front of `out`, where `get` or `old` would
    /// put it, also while a flush is in hand. The answer is how many bytes it has; they have to fit. It is
    /// refused as those are, so also as damaged, and the disk may fail.
    pub fn fetch<D: Disk>(
        &self,
        moment: Moment,
        disk: &mut D,
        name: &[u8],
        out: &mut [u8],
    ) -> Result<u64, Refusal>
        requires ready { IsTrue (D.state disk.old).is_ready }
        requires over { IsReadable C self.now (D.state disk.old) }
        requires room { size_at (spot_read self.now (asks_for moment name.now)) ≤ length out.old }
        ensures answer { AnswersFetch (refused_by self.now (asks_for moment name.now))
            (size_at (spot_read self.now (asks_for moment name.now))) result }
        ensures fetched { self.now.is_broken ≡ false → IsTrue (D.state disk.old).tells
            → IfOk result (λ n. take n out.new
            ≡ object_read (state_of self.now (D.state disk.old).file) (asks_for moment name.now)) }
        ensures judged { self.now.is_broken ≡ false → IsTrue (D.state disk.old).tells
            → refused_by self.now (asks_for moment name.now) ≡ None
            → IsJudged (digest_read self.now (asks_for moment name.now))
            (object_read (state_of self.now (D.state disk.old).file) (asks_for moment name.now)) result }
        ensures frame { Unchanged (D.state disk.old) (D.state disk.new) }
        ensures disk_cause { HasDiskCause Refusal.Disk (D.state disk.old).faults
            (D.state disk.new).faults result }
    {
        match self.find(moment, name) {
            Ok(spot) => {
                let digest = self.digest_of_object(moment, name);
                self.fetch_spot(disk, spot, &digest, out)
            }
            Err(refusal) => Err(refusal),
        }
    }

    /// Reads the bytes at a spot into the front of `out`.
    fn fetch_spot<D: Disk>(
        &self,
        disk: &mut D,
        spot: Spot,
        digest: &Option<[u8; 32]>,
        out: &mut [u8],
    ) -> Result<u64, Refusal>
        requires ready { IsTrue (D.state disk.old).is_ready }
        requires standing { IsStanding self.now }
        requires range { IsInRange spot }
        requires room { spot.size ≤ length out.old }
        requires within { IsTrue (D.state disk.old).tells
            → base_of self.now + spot.place + spot.size ≤ length (D.state disk.old).file }
        ensures answer { AnswersFetch None spot.size result }
        ensures judged { IsTrue (D.state disk.old).tells → IsJudged digest.now
            (object_at (base_of self.now) (D.state disk.old).file spot) result }
        ensures fetched { IsTrue (D.state disk.old).tells → IfOk result (λ n. take n out.new
            ≡ object_at (base_of self.now) (D.state disk.old).file spot) }
        ensures frame { Unchanged (D.state disk.old) (D.state disk.new) }
        ensures disk_cause { HasDiskCause Refusal.Disk (D.state disk.old).faults
            (D.state disk.new).faults result }
    {
        let at = self.hands.base + spot.place;
        let piece = &mut out[..spot.size as usize];
        read(disk, at, piece).map_err(disk_failed)?;
        judge(digest, piece)?;
        Ok(spot.size)
    }
}
