//! Putting and removing objects.
ghost use Rattle.std.specs.Prelude.{◌≡◌, false, IfSome, IsTrue, None};
ghost use Rattle.map_model.specs.Requests as ask;

use crate::plan::PutPlan;
use crate::{Done, Refusal, Store};
use disk_face::Disk;
use extent_table::Spot;
use slot_codec::Name;

impl<const C: usize> Store<C> {
    ghost use Rattle.store_model.specs.{Answers.{done_reply, refused_by, reply_of}, Changing.{IsChange}, Flushes.{ServesChange}};
    ghost use Rattle.store_model.specs.{Connection.{IsConnected, limits_of, state_of}, Quiet.{del_of, put_of}, States.{Step}};

    /// Puts an object under a name, in place of the one that it has. Where there is room in the buffers
    /// its bytes are written once, and no checkpoint is saved; else the classes that have none are laid
    /// out anew, and a checkpoint of what stands then is saved. After a fault of the disk the store is
    /// broken, and the file opens to the last checkpoint, or to what would stand after the put where it
    /// isn't quiet.
    pub fn put<D: Disk>(&mut self, disk: &mut D, name: &[u8], bytes: &[u8]) -> Result<Done, Refusal>
        requires ready { IsTrue (D.state disk.old).is_ready }
        requires over { IsConnected C self.old (D.state disk.old) }
        ensures change { IsChange C (put_of name.now bytes.now) self.old self.new (D.state disk.old)
            (D.state disk.new) result }
        ensures step { self.old.is_broken ≡ false → IsTrue (D.state disk.old).tells
            → IfSome (reply_of done_reply result) (λ reply. Step (limits_of self.old)
            (state_of self.old (D.state disk.old).file) (ask.change (put_of name.now bytes.now)) reply
            (state_of self.new (D.state disk.new).file)) }
    {
        match self.accepts_put(name, bytes) {
            Ok(name) => self.put_accepted(disk, &name, bytes),
            Err(refusal) => Err(refusal),
        }
    }

    /// Removes a name. Where its charge finds room in the buffers nothing is written, and no checkpoint
    /// is saved; else the classes that have none are laid out anew, and a checkpoint of what stands then
    /// is saved. After a fault of the disk the store is broken, and the file opens to the last checkpoint,
    /// or to what would stand after the removal.
    pub fn del<D: Disk>(&mut self, disk: &mut D, name: &[u8]) -> Result<Done, Refusal>
        requires ready { IsTrue (D.state disk.old).is_ready }
        requires over { IsConnected C self.old (D.state disk.old) }
        ensures change { IsChange C (del_of name.now) self.old self.new (D.state disk.old)
            (D.state disk.new) result }
        ensures step { self.old.is_broken ≡ false → IsTrue (D.state disk.old).tells
            → IfSome (reply_of done_reply result) (λ reply. Step (limits_of self.old)
            (state_of self.old (D.state disk.old).file) (ask.change (del_of name.now)) reply
            (state_of self.new (D.state disk.new).file)) }
    {
        match self.accepts_del(name) {
            Ok(name) => self.del_accepted(disk, &name),
            Err(refusal) => Err(refusal),
        }
    }

    /// Makes a put that is served.
    fn put_accepted<D: Disk>(
        &mut self,
        disk: &mut D,
        name: &Name,
        bytes: &[u8],
    ) -> Result<Done, Refusal>
        requires ready { IsTrue (D.state disk.old).is_ready }
        requires over { IsConnected C self.old (D.state disk.old) }
        requires served { refused_by self.old (ask.change (put_of name.now bytes.now)) ≡ None }
        ensures { ServesChange C (put_of name.now bytes.now) self.old self.new (D.state disk.old)
            (D.state disk.new) result }
    {
        let size = bytes.len() as u64;
        let charged = self.charge(name, size);
        match charged.place() {
            Some(place) => {
                let spot = Spot { place, size };
                let layout = charged.layout;
                self.put_planned(disk, name, PutPlan { layout, spot }, bytes)
            }
            None => self.flush_change(disk, name, bytes, true, &charged),
        }
    }

    /// Makes a removal that is served.
    fn del_accepted<D: Disk>(&mut self, disk: &mut D, name: &Name) -> Result<Done, Refusal>
        requires ready { IsTrue (D.state disk.old).is_ready }
        requires over { IsConnected C self.old (D.state disk.old) }
        requires served { refused_by self.old (ask.change (del_of name.now)) ≡ None }
        ensures { ServesChange C (del_of name.now) self.old self.new (D.state disk.old) (D.state disk.new)
            result }
    {
        let charged = self.charge(name, 0);
        match charged.place() {
            Some(_) => {
                self.leave(name, charged.layout);
                Ok(Done { kept: false })
            }
            None => self.flush_change(disk, name, &[], false, &charged),
        }
    }
}
