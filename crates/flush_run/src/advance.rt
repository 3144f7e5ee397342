//! A flush one move at a time.
ghost use Rattle.std.specs.Prelude.{◌≡◌, ◌+◌, ◌≤◌, ℕ, vec_len, IfOk, IsFalse, IsTrue, OnErr, OnOk};
ghost use Rattle.disk_face.specs.Counts.{HasCause};
ghost use Rattle.logged_pair.specs.Slots.{used_in};
ghost use Rattle.flush_run.specs.{Advances.{HasStepped, HasStopped}, FlushFrames.{FlushFrame, LeavesOldOrNew}, Parts.{parts_of}, Phases.{CanAdvance, GoesOn, KeepsIn, PaidIn, items_in}};

use crate::Hands;
use crate::one_move::make_move;
use crate::phase::Phase;
use disk_face::{Disk, DiskFault};

/// Makes the next move of a phase, in place, with the save before it where the checkpoint holds a byte of
/// its target. Answers whether there was one.
pub(crate) fn advance<D: Disk, const C: usize>(
    disk: &mut D,
    phase: &mut Phase<C>,
    hands: &mut Hands<C>,
) -> Result<bool, DiskFault>
    requires ready { IsTrue (D.state disk.old).is_ready }
    requires buffer { vec_len hands.old.buf ≡ 65536 }
    requires fits { C ≤ 32 }
    requires start { (f : FlushFrame) × CanAdvance f phase.old (parts_of hands.old) (D.state disk.old) }
    requires keeps { KeepsIn phase.old (items_in phase.old hands.old.table) }
    ensures goes { (f : FlushFrame) → CanAdvance f phase.old (parts_of hands.old) (D.state disk.old)
        → OnOk result (GoesOn f phase.new (parts_of hands.new) (D.state disk.new)) }
    ensures left { (f : FlushFrame) → CanAdvance f phase.old (parts_of hands.old) (D.state disk.old)
        → IsTrue (D.state disk.old).tells
        → LeavesOldOrNew f ((used_in hands.new.slots).sequence + 1) (D.state disk.old) (D.state disk.new) }
    ensures keeps { OnOk result (KeepsIn phase.new (items_in phase.new hands.new.table)) }
    ensures paid { (q : ℕ) → PaidIn q phase.old (parts_of hands.old)
        → OnOk result (PaidIn q phase.new (parts_of hands.new)) }
    ensures made { IfOk result (λ moved. HasStepped moved phase.old phase.new (parts_of hands.old)
        (parts_of hands.new) (D.state disk.old) (D.state disk.new)) }
    ensures none { IfOk result (λ moved. IsFalse moved → disk.new ≡ disk.old) }
    ensures stopped { OnErr result (HasStopped (parts_of hands.old) (parts_of hands.new)
        (D.state disk.old) (D.state disk.new)) }
    ensures cause { HasCause (D.state disk.old).faults (D.state disk.new).faults result }
{
    let Some(mv) = phase.next(&hands.table) else {
        return Ok(false);
    };
    make_move(disk, phase.saving(), &mv, hands)?;
    Ok(true)
}
