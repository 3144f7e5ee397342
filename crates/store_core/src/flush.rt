//! The device calls of a change that isn't quiet: the file grows, the new object is written, and the
//! flush is made.
ghost use Rattle.std.specs.Prelude.{◌≡◌, ◌+◌, ◌-◌, ◌*◌, ◌<◌, ◌≤◌, ◌^◌, [], false, length, IsTrue, None, OnOk, vec_len};
ghost use Rattle.std.specs.FinMap as fin;
ghost use Rattle.logged_pair.specs.Slots.{used_in};
ghost use Rattle.disk_face.specs.{Counts.{HasCause}, Writes.{KeepsDisk}};
ghost use Rattle.size_class.specs.Rows.{cells_of};
ghost use Rattle.segment_layout.specs.Books.{is_quiet};
ghost use Rattle.map_model.specs.Requests as ask;
ghost use Rattle.map_model.specs.Requests.{Change};
ghost use Rattle.flush_run.specs.{Calls.{CallsSoFar}, FlushFrames.{IsMidFlush, LeavesOldOrNew}, Parts.{HandsValue, parts_of}, Settling.{FlushEnds}, Shelved.{items_now, phase_now}};
ghost use Rattle.flush_plan.specs.Lifts.{KeepsLifting};
ghost use Rattle.store_model.specs.Flushing.{CanMakeFlush, HasMadeFlush, BeforeChange, flight_of, lift_start};

use crate::begin::{StartedFlush, start_change};
use crate::plan::Charged;
use crate::quiet::write_new;
use crate::{Done, Refusal, Store};
use disk_face::{Disk, DiskFault};
use flush_run::{Halted, Hands, run};
use slot_codec::Name;

impl<const C: usize> Store<C> {
    ghost use Rattle.store_model.specs.{Answers.{refused_by}, Flushes.{ServesChange}};
    ghost use Rattle.store_model.specs.{Charges.{ChargesStore, change_of}, Connection.{IsConnected}, Quiet.{charges_of}};

    /// Makes a change that isn't quiet, as it was charged: puts an object, or where none comes, and there are
    /// no bytes, removes a name.
    pub(crate) fn flush_change<D: Disk>(
        &mut self,
        disk: &mut D,
        name: &Name,
        bytes: &[u8],
        comes: bool,
        charged: &Charged<C>,
    ) -> Result<Done, Refusal>
        requires ready { IsTrue (D.state disk.old).is_ready }
        requires over { IsConnected C self.old (D.state disk.old) }
        requires nothing { comes ≡ false → bytes.now ≡ [] }
        requires served { refused_by self.old (ask.change (change_of name.now bytes.now comes)) ≡ None }
        requires charged { ChargesStore self.old name.now (length bytes.now) charged.now.layout
            charged.now.outcome }
        requires needs_flush { is_quiet (charges_of self.old (change_of name.now bytes.now comes)) ≡ false }
        ensures { ServesChange C (change_of name.now bytes.now comes) self.old self.new (D.state disk.old)
            (D.state disk.new) result }
    {
        let hands = &mut *self.hands;
        let begun = start_change(hands, name, bytes, comes, charged);
        let made = make_flush(disk, begun, hands, bytes);
        *self.kept_layout = hands.layout;
        match made {
            Ok(()) => Ok(Done { kept: true }),
            Err(DiskFault) => {
                self.broken = true;
                Err(Refusal::Disk)
            }
        }
    }
}

/// Grows the file to where the flush reaches, and writes the new object.
pub(crate) fn launch<D: Disk, const C: usize>(
    disk: &mut D,
    begun: &StartedFlush<C>,
    hands: &Hands<C>,
    bytes: &[u8],
) -> Result<(), DiskFault>
    requires ready { IsTrue (D.state disk.old).is_ready }
    requires start { (x0 : HandsValue) × (c : Change) × (g : BeforeChange)
        × CanMakeFlush C x0 c g (parts_of hands.now)
        (lift_start (phase_now begun.now.phase.course hands.now.table) begun.now.place) bytes.now
        (D.state disk.old) }
    ensures flies { (x0 : HandsValue) (c : Change) (g : BeforeChange)
        → CanMakeFlush C x0 c g (parts_of hands.now)
        (lift_start (phase_now begun.now.phase.course hands.now.table) begun.now.place) bytes.now
        (D.state disk.old)
        → IsTrue (D.state disk.old).tells
        → OnOk result (IsMidFlush (flight_of C x0 c begun.now.phase.course.numbers.reach g)
        (used_in hands.now.slots)
        hands.now.table (D.state disk.new)) }
    ensures left { (x0 : HandsValue) (c : Change) (g : BeforeChange)
        → CanMakeFlush C x0 c g (parts_of hands.now)
        (lift_start (phase_now begun.now.phase.course hands.now.table) begun.now.place) bytes.now
        (D.state disk.old)
        → IsTrue (D.state disk.old).tells
        → LeavesOldOrNew (flight_of C x0 c begun.now.phase.course.numbers.reach g)
        ((used_in hands.now.slots).sequence + 1) (D.state disk.old) (D.state disk.new) }
    ensures most { (D.state disk.new).turn ≤ (D.state disk.old).turn + 2 }
    ensures frame { KeepsDisk (D.state disk.old) (D.state disk.new) }
    ensures cause { HasCause (D.state disk.old).faults (D.state disk.new).faults result }
{
    disk.set_len(hands.base + begun.phase.numbers().reach)?;
    match write_new(disk, hands.base, begun.place, bytes) {
        Ok(()) => Ok(()),
        Err(fault) => Err(fault),
    }
}

/// Grows the file to where the flush reaches, writes the new object, and makes the flush.
pub(crate) fn make_flush<D: Disk, const C: usize>(
    disk: &mut D,
    begun: StartedFlush<C>,
    hands: &mut Hands<C>,
    bytes: &[u8],
) -> Result<(), DiskFault>
    requires ready { IsTrue (D.state disk.old).is_ready }
    requires buffer { vec_len hands.old.buf ≡ 65536 }
    requires fits { C ≤ 32 }
    requires start { (x0 : HandsValue) × (c : Change) × (g : BeforeChange)
        × CanMakeFlush C x0 c g (parts_of hands.old)
        (lift_start (phase_now begun.phase.course hands.old.table) begun.place) bytes.now (D.state disk.old) }
    requires keeps { KeepsLifting C begun.phase (items_now begun.phase.course hands.old.table) }
    ensures ends { (x0 : HandsValue) (c : Change) (g : BeforeChange)
        → CanMakeFlush C x0 c g (parts_of hands.old)
        (lift_start (phase_now begun.entry.phase.course hands.old.table) begun.entry.place) bytes.now
        (D.state disk.old)
        → OnOk result (FlushEnds C (flight_of C x0 c begun.entry.phase.course.numbers.reach g)
        (parts_of hands.new) (D.state disk.new)) }
    ensures left { (x0 : HandsValue) (c : Change) (g : BeforeChange)
        → CanMakeFlush C x0 c g (parts_of hands.old)
        (lift_start (phase_now begun.entry.phase.course hands.old.table) begun.entry.place) bytes.now
        (D.state disk.old)
        → IsTrue (D.state disk.old).tells
        → LeavesOldOrNew (flight_of C x0 c begun.entry.phase.course.numbers.reach g)
        ((used_in hands.new.slots).sequence + 1) (D.state disk.old) (D.state disk.new) }
    ensures saves { OnOk result (((used_in hands.old.slots).sequence + 1 ≤ (used_in hands.new.slots).sequence)
        × ((used_in hands.new.slots).sequence ≤ (used_in hands.old.slots).sequence
        + 2 * (used_in hands.old.slots).block.k)) }
    ensures calls { OnOk result (CallsSoFar (D.state disk.old).turn (D.state disk.new).turn
        (cells_of hands.old.ledger.moved) (cells_of hands.new.ledger.moved) 4
        ((used_in hands.new.slots).sequence - (used_in hands.old.slots).sequence)
        (fin.len hands.old.table.now)) }
    ensures made { HasMadeFlush begun.entry.phase.course.numbers.boundary
        (items_now begun.entry.phase.course hands.old.table) (D.state disk.old)
        (D.state disk.new) (parts_of hands.old) (parts_of hands.new) }
    ensures cause { HasCause (D.state disk.old).faults (D.state disk.new).faults result }
{
    launch(disk, &begun, hands, bytes)?;
    let StartedFlush { phase, place: _ } = begun;
    match run(disk, phase, hands) {
        Ok(_) => Ok(()),
        Err(Halted(fault)) => Err(fault),
    }
}
