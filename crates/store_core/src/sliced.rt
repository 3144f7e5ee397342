//! A flush in hand: it is begun by a put or a removal, and goes on one move at a time.
ghost use Rattle.std.specs.Prelude.{◌≡◌, ◌≤◌, [], false, length, IfSome, IsTrue, None, Some};
ghost use Rattle.disk_face.specs.{Counts.{HasCause}, Writes.{KeepsDisk}};
ghost use Rattle.map_model.specs.Requests as ask;

use crate::begin::start_change;
use crate::flush::launch;
use crate::plan::{Charged, PutPlan};
use crate::{Begun, Progress, Refusal, Store};
use disk_face::{Disk, DiskFault};
use extent_table::Spot;
use flush_run::{Halted, Phase, Stepped, step};
use slot_codec::Name;
use store_model::Began;

impl<const C: usize> Store<C> {
    ghost use Rattle.segment_layout.specs.Books.{is_quiet};
    ghost use Rattle.store_model.specs.{Answers.{is_disk_fault, refused_by}, Begins.{BeginsChange, BeginsServed, begun_reply}, Steps.{IsStep}};
    ghost use Rattle.store_model.specs.{Connection.{FlushInHand, IsConnected, limits_of, state_of}, Halves.{HalfAgrees, IsHalfway, Origin}, Charges.{ChargesStore, change_of}, Quiet.{charges_of, del_of, put_of}, States.{Step}};

    /// Begins to put an object under a name, as `put` does: a quiet change is done, and of any other the
    /// file was grown and the object written, and its flush is in hand. From then on the map has the object.
    pub fn begin_put<D: Disk>(
        &mut self,
        disk: &mut D,
        name: &[u8],
        bytes: &[u8],
    ) -> Result<Begun, Refusal>
        requires ready { IsTrue (D.state disk.old).is_ready }
        requires over { IsConnected C self.old (D.state disk.old) }
        ensures begins { BeginsChange C (put_of name.now bytes.now) self.old self.new (D.state disk.old)
            (D.state disk.new) result }
        ensures step { self.old.is_broken ≡ false → IsTrue (D.state disk.old).tells
            → IfSome (begun_reply result) (λ reply. Step (limits_of self.old)
            (state_of self.old (D.state disk.old).file) (ask.change (put_of name.now bytes.now)) reply
            (state_of self.new (D.state disk.new).file)) }
    {
        match self.accepts_put(name, bytes) {
            Ok(name) => self.begin_put_accepted(disk, &name, bytes),
            Err(refusal) => Err(refusal),
        }
    }

    /// Begins to remove a name, as `del` does: a quiet removal is done, and of any other the flush is in
    /// hand.
    pub fn begin_del<D: Disk>(&mut self, disk: &mut D, name: &[u8]) -> Result<Begun, Refusal>
        requires ready { IsTrue (D.state disk.old).is_ready }
        requires over { IsConnected C self.old (D.state disk.old) }
        ensures begins { BeginsChange C (del_of name.now) self.old self.new (D.state disk.old)
            (D.state disk.new) result }
        ensures step { self.old.is_broken ≡ false → IsTrue (D.state disk.old).tells
            → IfSome (begun_reply result) (λ reply. Step (limits_of self.old)
            (state_of self.old (D.state disk.old).file) (ask.change (del_of name.now)) reply
            (state_of self.new (D.state disk.new).file)) }
    {
        match self.accepts_del(name) {
            Ok(name) => self.begin_del_accepted(disk, &name),
            Err(refusal) => Err(refusal),
        }
    }

    /// Begins a put that is served.
    fn begin_put_accepted<D: Disk>(
        &mut self,
        disk: &mut D,
        name: &Name,
        bytes: &[u8],
    ) -> Result<Begun, Refusal>
        requires ready { IsTrue (D.state disk.old).is_ready }
        requires over { IsConnected C self.old (D.state disk.old) }
        requires served { refused_by self.old (ask.change (put_of name.now bytes.now)) ≡ None }
        ensures { BeginsServed C (put_of name.now bytes.now) self.old self.new (D.state disk.old)
            (D.state disk.new) result }
    {
        let size = bytes.len() as u64;
        let charged = self.charge(name, size);
        match charged.place() {
            Some(place) => {
                let spot = Spot { place, size };
                let layout = charged.layout;
                match self.put_planned(disk, name, PutPlan { layout, spot }, bytes) {
                    Ok(_) => Ok(Begun::Done),
                    Err(refusal) => Err(refusal),
                }
            }
            None => self.begin_flush(disk, name, bytes, true, &charged),
        }
    }

    /// Begins a removal that is served.
    fn begin_del_accepted<D: Disk>(&mut self, disk: &mut D, name: &Name) -> Result<Begun, Refusal>
        requires ready { IsTrue (D.state disk.old).is_ready }
        requires over { IsConnected C self.old (D.state disk.old) }
        requires served { refused_by self.old (ask.change (del_of name.now)) ≡ None }
        ensures { BeginsServed C (del_of name.now) self.old self.new (D.state disk.old) (D.state disk.new)
            result }
    {
        let charged = self.charge(name, 0);
        match charged.place() {
            Some(_) => {
                self.leave(name, charged.layout);
                Ok(Begun::Done)
            }
            None => self.begin_flush(disk, name, &[], false, &charged),
        }
    }

    /// Begins a change that isn't quiet, as it was charged: makes it in the table and the layout, grows the
    /// file and writes the new object, if one comes.
    fn begin_flush<D: Disk>(
        &mut self,
        disk: &mut D,
        name: &Name,
        bytes: &[u8],
        comes: bool,
        charged: &Charged<C>,
    ) -> Result<Begun, Refusal>
        requires ready { IsTrue (D.state disk.old).is_ready }
        requires over { IsConnected C self.old (D.state disk.old) }
        requires nothing { comes ≡ false → bytes.now ≡ [] }
        requires served { refused_by self.old (ask.change (change_of name.now bytes.now comes)) ≡ None }
        requires charged { ChargesStore self.old name.now (length bytes.now) charged.now.layout
            charged.now.outcome }
        requires needs_flush { is_quiet (charges_of self.old (change_of name.now bytes.now comes)) ≡ false }
        ensures { BeginsServed C (change_of name.now bytes.now comes) self.old self.new (D.state disk.old)
            (D.state disk.new) result }
    {
        let hands = &mut *self.hands;
        let sequence = hands.slots.sequence();
        let moved = hands.ledger.moved;
        let begun = start_change(hands, name, bytes, comes, charged);
        let left = 2 * hands.table.count() + 1;
        match launch(disk, &begun, hands, bytes) {
            Ok(()) => {
                self.began = Began {
                    sequence,
                    moved,
                    left,
                };
                self.flush = Some(Phase::Lift(begun.phase));
                Ok(Begun::InHand)
            }
            Err(DiskFault) => {
                self.broken = true;
                Err(Refusal::Disk)
            }
        }
    }

    /// Makes the next move of the flush in hand, with the save before it where the checkpoint holds a byte
    /// of its target; where no move is left, saves the settled table, cuts the file and syncs, and no flush
    /// is in hand. After a fault of the disk the store is broken, and the file opens to the last checkpoint
    /// or to the map after.
    pub fn step<D: Disk>(&mut self, disk: &mut D) -> Result<Progress, Refusal>
        requires ready { IsTrue (D.state disk.old).is_ready }
        requires half { IsHalfway C self.old (D.state disk.old) }
        ensures { IsStep C self.old self.new (D.state disk.old) (D.state disk.new) result }
    {
        let phase = self.flush.take().unwrap();
        let hands = &mut *self.hands;
        match step(disk, phase, hands) {
            Ok(stepped) => match stepped {
                Stepped::Moved(phase) => {
                    self.began.left -= 1;
                    self.flush = Some(phase);
                    Ok(Progress::Moved)
                }
                Stepped::Settled(_) => {
                    *self.kept_layout = hands.layout;
                    Ok(Progress::Settled)
                }
            },
            Err(Halted(DiskFault)) => {
                *self.kept_layout = hands.layout;
                self.broken = true;
                Err(Refusal::Disk)
            }
        }
    }
}
