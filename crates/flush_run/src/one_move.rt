//! One move of a flush, with the save before it where its target is held.
ghost use Rattle.std.specs.Prelude.{◌≡◌, ◌+◌, ◌≤◌, vec_len, IsTrue, OnErr, OnOk};
ghost use Rattle.disk_face.specs.Counts.{HasCause};
ghost use Rattle.logged_pair.specs.Slots.{used_in};
ghost use Rattle.flush_model.specs.Phases.{PlanState, moved_by};
ghost use Rattle.flush_run.specs.{FlushFrames.{FlushFrame, LeavesOldOrNew}, Loops.{BetweenMoves}, MadeMoves.{CanMakeMove, HasMadeMove, HasNotMoved}, Parts.{parts_of}};

use crate::Hands;
use crate::moves::{free_target, move_one};
use disk_face::{Disk, DiskFault};
use flush_model::{Move, Numbers};
use span_math::Span;

/// Makes a move. Where the checkpoint holds a byte of its target, what stands now is saved before as a
/// moving table of the numbers; without numbers no byte of it is held.
pub(crate) fn make_move<D: Disk, const C: usize>(
    disk: &mut D,
    saving: Option<Numbers>,
    mv: &Move,
    hands: &mut Hands<C>,
) -> Result<(), DiskFault>
    requires ready { IsTrue (D.state disk.old).is_ready }
    requires buffer { vec_len hands.old.buf ≡ 65536 }
    requires fits { C ≤ 32 }
    requires start { (f : FlushFrame) × (p : PlanState)
        × CanMakeMove C f (parts_of hands.old) p saving mv.now (D.state disk.old) }
    ensures goes { (f : FlushFrame) (p : PlanState)
        → CanMakeMove C f (parts_of hands.old) p saving mv.now (D.state disk.old)
        → OnOk result (BetweenMoves C f (parts_of hands.new).caps (parts_of hands.new).grid
        (parts_of hands.new) (moved_by mv.now p) (D.state disk.new)) }
    ensures left { (f : FlushFrame) (p : PlanState)
        → CanMakeMove C f (parts_of hands.old) p saving mv.now (D.state disk.old)
        → IsTrue (D.state disk.old).tells
        → LeavesOldOrNew f ((used_in hands.new.slots).sequence + 1) (D.state disk.old) (D.state disk.new) }
    ensures made { OnOk result (HasMadeMove mv.now saving (D.state disk.old) (D.state disk.new)
        (parts_of hands.old) (parts_of hands.new)) }
    ensures failed { OnErr result (HasNotMoved mv.now (D.state disk.old) (D.state disk.new)
        (parts_of hands.old) (parts_of hands.new)) }
    ensures cause { HasCause (D.state disk.old).faults (D.state disk.new).faults result }
{
    let target = Span {
        place: mv.to,
        size: mv.size,
    };
    free_target(disk, saving, target, hands)?;
    move_one(disk, mv, hands)?;
    Ok(())
}
