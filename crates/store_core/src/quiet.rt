//! Quiet changes, and going back to the last checkpoint.
ghost use Rattle.std.specs.Prelude.{◌≡◌, ◌⊎◌, ◌+◌, ◌<◌, ◌≤◌, ◌^◌, ◌||◌, ◌++◌, ◌↔◌, ℕ, List, true, false, fold, length, Some, None, Ok, Err, IfSome, IsErr, IsNone, IsSome, IsTrue, OnErr, OnOk};
ghost use Rattle.std.specs.FinMap as fin;
ghost use Rattle.byte_ranges.specs.Ranges.{overwritten};
ghost use Rattle.disk_face.specs.{Frames.{Calls}, Writes.{WritesWithin}};
ghost use Rattle.slot_codec.specs.Names.{IsName};
ghost use Rattle.segment_layout.specs.{Books.{digests_after, some_size}, Layouts.{caps_of, divisor_of, grid_of}};
ghost use Rattle.map_model.specs.Requests as ask;
ghost use Rattle.placement_model.specs.Quiet.{QuietTo, gone_items};
ghost use Rattle.store_model.specs.{Digested.{digested_book, digests_with}, Quiet.{IsCharged, added, del_of, put_of, sizes_at, writes_of}};
ghost use Rattle.store_model.specs.Plans.{IsDelPlan, IsPutPlan};

use crate::held::{add_gone, add_size, free_spot};
use crate::plan::PutPlan;
use crate::{Done, Refusal, Store};
use data_area::write_object;
use disk_face::{Disk, DiskFault};
use extent_table::Spot;
use segment_layout::Layout;
use size_class::SIZE_MAX;
use slot_codec::Name;

impl<const C: usize> Store<C> {
    ghost use Rattle.store_model.specs.{Answers.{AnswersChange, done_reply, is_disk_fault, reply_of}, Changes.{ChangesQuietly, IsQuietChange, NothingChanged}};
    ghost use Rattle.store_model.specs.{Connection.{IsConnected, IsOver, limits_of, live_cap, state_of}, States.{Step}, Stores.{IsStore}};

    /// Goes back to the last checkpoint: what stood then stands now.
    pub fn back(&mut self) -> Result<(), Refusal>
        requires idle { self.old.in_hand ≡ None }
        ensures answer { IsErr result ↔ (self.old.is_broken ≡ true) }
        ensures refused { OnErr result (result ≡ Err Refusal.Broken) }
        ensures unchanged { OnErr result (self.new ≡ self.old) }
        ensures back { OnOk result
            (self.new ≡ record self.old { now = self.old.kept; book = self.old.kept_book }) }
        ensures step { (file : List ℕ) → IsOver C self.old file → OnOk result
            (Step (limits_of self.old) (state_of self.old file) ask.back ask.done (state_of self.new file)) }
        ensures over { (file : List ℕ) → IsOver C self.old file → OnOk result (IsOver C self.new file) }
    {
        if self.is_broken() {
            return Err(Refusal::Broken);
        }
        let hands = &mut *self.hands;
        hands.table.back();
        hands.layout = *self.kept_layout;
        hands.guard.clear();
        Ok(())
    }

    /// Makes a quiet put: writes the new object and sets its name.
    pub(crate) fn put_planned<D: Disk>(
        &mut self,
        disk: &mut D,
        name: &Name,
        plan: PutPlan<C>,
        bytes: &[u8],
    ) -> Result<Done, Refusal>
        requires ready { IsTrue (D.state disk.old).is_ready }
        requires over { IsConnected C self.old (D.state disk.old) }
        requires sound { IsStore C self.old }
        requires plan { IsPutPlan self.old name.now bytes.now name.now (divisor_of plan.layout)
            (caps_of plan.layout) (grid_of plan.layout) plan.spot }
        ensures answer { AnswersChange true None result }
        ensures quiet { IsQuietChange C (put_of name.now bytes.now) self.old self.new
            (D.state disk.old) (D.state disk.new) result }
        ensures step { IsTrue (D.state disk.old).tells → OnOk result (Step (limits_of self.old)
            (state_of self.old (D.state disk.old).file) (ask.change (put_of name.now bytes.now)) ask.done
            (state_of self.new (D.state disk.new).file)) }
        ensures over { IsConnected C self.new (D.state disk.new) }
        ensures broken { self.new.is_broken ≡ is_disk_fault result }
    {
        match write_new(disk, self.hands.base, plan.spot.place, bytes) {
            Ok(()) => {
                let digest = self.own_digest(bytes);
                self.enter(name, plan.layout, plan.spot, digest);
                Ok(Done { kept: false })
            }
            Err(DiskFault) => {
                self.broken = true;
                Err(Refusal::Disk)
            }
        }
    }

    /// Sets where the object of a name stands, and its digest, once it is charged and written.
    fn enter(&mut self, name: &Name, layout: Layout<C>, spot: Spot, digest: [u8; 32])
        requires whole { self.old.is_broken ≡ false }
        requires idle { self.old.in_hand ≡ None }
        requires named { IsName name.now }
        requires room { IsSome (fin.get self.old.now name.now)
            ⊎ (fin.len self.old.now < live_cap self.old) }
        requires small { spot.size ≤ SIZE_MAX }
        requires divisor { divisor_of layout ≡ self.old.in_use.block.k }
        requires caps { caps_of layout ≡ self.old.book.caps }
        requires charged { IsCharged self.old.in_use.block.k self.old.book.caps self.old.book.grid
            (fin.get self.old.now name.now) spot.size (grid_of layout) spot.place }
        ensures { self.new ≡ record self.old {
          now = fin.insert self.old.now name.now spot;
          book = digested_book C self.old.in_use.block.k self.old.book.caps (grid_of layout.entry)
              (fin.insert self.old.now name.now spot)
              (digests_with name.now digest self.old.book.digests);
          asked = fold added self.old.asked
              (sizes_at (fin.get self.old.now name.now) ++ some_size spot.size);
        } }
    {
        let hands = &mut *self.hands;
        let now = hands.table.get(name);
        free_spot(&mut hands.guard, now, hands.table.old(name));
        add_gone(&mut hands.ledger, now);
        add_size(&mut hands.ledger, spot.size);
        hands.table.set(name, spot, digest);
        hands.layout = layout;
    }

    /// Takes a name out, once its object is charged.
    pub(crate) fn leave(&mut self, name: &Name, layout: Layout<C>)
        requires whole { self.old.is_broken ≡ false }
        requires idle { self.old.in_hand ≡ None }
        requires divisor { divisor_of layout ≡ self.old.in_use.block.k }
        requires caps { caps_of layout ≡ self.old.book.caps }
        requires charged { QuietTo self.old.in_use.block.k self.old.book.caps self.old.book.grid
            (gone_items self.old.in_use.block.k self.old.book.caps (fin.get self.old.now name.now))
            (grid_of layout) }
        ensures { self.new ≡ record self.old {
          now = fin.remove self.old.now name.now;
          book = digested_book C self.old.in_use.block.k self.old.book.caps (grid_of layout.entry)
              (fin.remove self.old.now name.now)
              (digests_after (del_of name.now) self.old.book.digests);
          asked = fold added self.old.asked (sizes_at (fin.get self.old.now name.now));
        } }
    {
        let hands = &mut *self.hands;
        let now = hands.table.get(name);
        free_spot(&mut hands.guard, now, hands.table.old(name));
        add_gone(&mut hands.ledger, now);
        hands.table.remove(name);
        hands.layout = layout;
    }
}

/// Writes a new object at its place; one without bytes isn't written.
pub(crate) fn write_new<D: Disk>(
    disk: &mut D,
    base: u64,
    place: u64,
    bytes: &[u8],
) -> Result<(), DiskFault>
    requires ready { IsTrue (D.state disk.old).is_ready }
    requires fits { base + place + length bytes.now < 2 ^ 63 }
    requires within { IsTrue (D.state disk.old).tells
        → base + place + length bytes.now ≤ length (D.state disk.old).file }
    ensures written { IsTrue (D.state disk.old).tells → OnOk result ((D.state disk.new).file
        ≡ overwritten (D.state disk.old).file (base + place) bytes.now) }
    ensures writes { WritesWithin (base + place) (length bytes.now) (D.state disk.old) (D.state disk.new) }
    ensures calls { Calls (writes_of (length bytes.now)) (D.state disk.old) (D.state disk.new) result }
{
    if bytes.is_empty() {
        return Ok(());
    }
    write_object(disk, base, place, bytes)
}
