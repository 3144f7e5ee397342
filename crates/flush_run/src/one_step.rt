//! A flush one move at a time, for whoever does other work between two moves.
ghost use Rattle.std.specs.Prelude.{◌≡◌, ◌+◌, ◌≤◌, ℕ, IsTrue};
ghost use Rattle.disk_face.specs.Counts.{HasCause};
ghost use Rattle.logged_pair.specs.Slots.{used_in};
ghost use Rattle.flush_run.specs.{FlushFrames.{FlushFrame, LeavesOldOrNew}, Parts.{parts_of}, Phases.{CanAdvance, KeepsIn, PaidIn, items_in}, Runs.{AreLent}, Steps.{GoesThen, KeepsThen, MakesThen, PaidThen, stepped_of}};

use crate::Hands;
use crate::advance::advance;
use crate::phase::{Onward, Phase};
use crate::settle::settle;
use crate::whole::Halted;
use disk_face::{Disk, DiskFault};
use flush_plan::Settled;

/// What a step of a flush did: it moved an object, or it settled what stands now.
#[derive(Drop)]
pub enum Stepped<const C: usize> {
    Moved(Phase<C>),
    Settled(Settled<C>),
}

/// Makes the next move of a flush, with the save before it where the checkpoint holds a byte of its
/// target; where no move is left, saves the settled table, cuts the file and syncs. `run` and `resume` are
/// these steps, one after another, from Lift and from Pack on. After an error only opening the file leads on.
pub fn step<D: Disk, const C: usize>(
    disk: &mut D,
    phase: Phase<C>,
    hands: &mut Hands<C>,
) -> Result<Stepped<C>, Halted>
    requires ready { IsTrue (D.state disk.old).is_ready }
    requires lent { AreLent C (parts_of hands.old) }
    requires start { (f : FlushFrame) × CanAdvance f phase (parts_of hands.old) (D.state disk.old) }
    requires keeps { KeepsIn phase (items_in phase hands.old.table) }
    ensures goes { (f : FlushFrame) → CanAdvance f phase.entry (parts_of hands.old) (D.state disk.old)
        → GoesThen f result (parts_of hands.new) (D.state disk.new) }
    ensures left { (f : FlushFrame) → CanAdvance f phase.entry (parts_of hands.old) (D.state disk.old)
        → IsTrue (D.state disk.old).tells
        → LeavesOldOrNew f ((used_in hands.new.slots).sequence + 1) (D.state disk.old) (D.state disk.new) }
    ensures keeps { KeepsThen result (parts_of hands.new) }
    ensures paid { (q : ℕ) → PaidIn q phase.entry (parts_of hands.old)
        → PaidThen q result (parts_of hands.new) }
    ensures made { MakesThen phase.entry result (parts_of hands.old) (parts_of hands.new)
        (D.state disk.old) (D.state disk.new) }
    ensures cause { HasCause (D.state disk.old).faults (D.state disk.new).faults result }
{
    let mut at = phase;
    match step_on(disk, &mut at, hands) {
        Ok(None) => Ok(Stepped::Moved(at)),
        Ok(Some(settled)) => Ok(Stepped::Settled(settled)),
        Err(fault) => Err(Halted(fault)),
    }
}

/// Makes the step in place, so that a flush that is run hands no phase on by value. Answers what was settled
/// where no move was left, and none where it made one.
pub(crate) fn step_on<D: Disk, const C: usize>(
    disk: &mut D,
    at: &mut Phase<C>,
    hands: &mut Hands<C>,
) -> Result<Option<Settled<C>>, DiskFault>
    requires ready { IsTrue (D.state disk.old).is_ready }
    requires lent { AreLent C (parts_of hands.old) }
    requires start { (f : FlushFrame) × CanAdvance f at.old (parts_of hands.old) (D.state disk.old) }
    requires keeps { KeepsIn at.old (items_in at.old hands.old.table) }
    ensures goes { (f : FlushFrame) → CanAdvance f at.old (parts_of hands.old) (D.state disk.old)
        → GoesThen f (stepped_of at.new result) (parts_of hands.new) (D.state disk.new) }
    ensures left { (f : FlushFrame) → CanAdvance f at.old (parts_of hands.old) (D.state disk.old)
        → IsTrue (D.state disk.old).tells
        → LeavesOldOrNew f ((used_in hands.new.slots).sequence + 1) (D.state disk.old) (D.state disk.new) }
    ensures keeps { KeepsThen (stepped_of at.new result) (parts_of hands.new) }
    ensures paid { (q : ℕ) → PaidIn q at.old (parts_of hands.old)
        → PaidThen q (stepped_of at.new result) (parts_of hands.new) }
    ensures made { MakesThen at.old (stepped_of at.new result) (parts_of hands.old) (parts_of hands.new)
        (D.state disk.old) (D.state disk.new) }
    ensures cause { HasCause (D.state disk.old).faults (D.state disk.new).faults result }
{
    'phases: loop {
        let moved = match advance(disk, at, hands) {
            Ok(moved) => moved,
            Err(fault) => return Err(fault),
        };
        if moved {
            return Ok(None);
        }
        match at.onward(&hands.table) {
            Onward::Next(next) => *at = next,
            Onward::End(settled) => match settle(disk, &settled, hands) {
                Ok(()) => return Ok(Some(settled)),
                Err(fault) => return Err(fault),
            },
        }
    }
}
