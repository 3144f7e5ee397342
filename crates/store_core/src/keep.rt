//! Keeping what stands now as the checkpoint.
ghost use Rattle.std.specs.Prelude.{◌≡◌, ◌<◌, ◌≤◌, ◌^◌, ◌||◌, false, [], IfSome, IsNone, IsSome, IsTrue, None, OnOk};
ghost use Rattle.extent_table.specs.Extents.{IsTable};
ghost use Rattle.map_model.specs.Requests as ask;

use crate::{Done, Refusal, Store};
use disk_face::{Disk, DiskFault};
use extent_table::Table;
use flush_run::settled_header;
use held_guard::Guard;

impl<const C: usize> Store<C> {
    ghost use Rattle.store_model.specs.{Answers.{done_reply, is_disk_fault, refused_by, reply_of}, Changes.{NothingChanged}, Keeps.{AnswersKeep, KeepsNow}};
    ghost use Rattle.store_model.specs.{Connection.{IsConnected, limits_of, state_of}, States.{Step}};

    /// Saves a checkpoint of what stands now, to which the store goes back from then on. After a fault
    /// of the disk the store is broken, and the file opens to the last checkpoint or to what stands now.
    pub fn keep<D: Disk>(&mut self, disk: &mut D) -> Result<Done, Refusal>
        requires ready { IsTrue (D.state disk.old).is_ready }
        requires over { IsConnected C self.old (D.state disk.old) }
        ensures answer { AnswersKeep (refused_by self.old ask.keep) result }
        ensures refused { IsSome (refused_by self.old ask.keep)
            → NothingChanged self.old self.new (D.state disk.old) (D.state disk.new) }
        ensures kept { IsNone (refused_by self.old ask.keep)
            → KeepsNow C self.old self.new (D.state disk.old) (D.state disk.new) result }
        ensures step { self.old.is_broken ≡ false → IsTrue (D.state disk.old).tells
            → IfSome (reply_of done_reply result) (λ reply. Step (limits_of self.old)
            (state_of self.old (D.state disk.old).file) ask.keep reply
            (state_of self.new (D.state disk.new).file)) }
        ensures over { IsConnected C self.new (D.state disk.new) }
        ensures broken { self.new.is_broken ≡ (self.old.is_broken || is_disk_fault result) }
    {
        if self.is_broken() {
            return Err(Refusal::Broken);
        }
        if self.is_worn() {
            return Err(Refusal::Worn);
        }
        self.save_now(disk)
    }

    /// Saves a checkpoint of what stands now.
    fn save_now<D: Disk>(&mut self, disk: &mut D) -> Result<Done, Refusal>
        requires ready { IsTrue (D.state disk.old).is_ready }
        requires over { IsConnected C self.old (D.state disk.old) }
        requires whole { self.old.is_broken ≡ false }
        requires fresh { self.old.in_use.sequence < 2 ^ 61 }
        ensures answer { AnswersKeep None result }
        ensures kept { KeepsNow C self.old self.new (D.state disk.old) (D.state disk.new) result }
        ensures step { IsTrue (D.state disk.old).tells → OnOk result (Step (limits_of self.old)
            (state_of self.old (D.state disk.old).file) ask.keep ask.kept
            (state_of self.new (D.state disk.new).file)) }
        ensures over { IsConnected C self.new (D.state disk.new) }
        ensures broken { self.new.is_broken ≡ is_disk_fault result }
    {
        let hands = &mut *self.hands;
        let next = settled_header(&hands.layout, hands.version);
        match hands.slots.save(disk, &next, &hands.table, &mut hands.buf) {
            Ok(_) => {
                keep_spots(&mut hands.table, &mut hands.guard);
                *self.kept_layout = hands.layout;
                Ok(Done { kept: true })
            }
            Err(DiskFault) => {
                self.broken = true;
                Err(Refusal::Disk)
            }
        }
    }
}

/// What stands now is kept, and no other space is held. No flush is in hand, so no plan has keys of names.
pub(crate) fn keep_spots(table: &mut Table, guard: &mut Guard)
    ensures now { table.new.now ≡ table.old.now }
    ensures kept { table.new.kept ≡ table.old.now }
    ensures digests { table.new.digests ≡ table.old.digests }
    ensures kept_digests { table.new.kept_digests ≡ table.old.digests }
    ensures names { table.new.names ≡ table.old.names }
    ensures cap { table.new.cap ≡ table.old.cap }
    ensures table { IsTable table.new }
    ensures empty { guard.new.spans ≡ [] }
    ensures room { guard.new.room ≡ guard.old.room }
{
    table.keep_sorted();
    guard.clear();
}
