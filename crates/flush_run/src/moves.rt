//! The two parts of a move: its target is freed of what the checkpoint holds, and the object goes there.
ghost use Rattle.std.specs.Prelude.{◌≡◌, ◌⊎◌, ◌+◌, ◌-◌, ◌<◌, ◌≤◌, ◌^◌, ℕ, List, All, length, vec_len, min, slice_index, slice_set, OnOk, OnErr, IfOk, IfSome, IsNone, IsTrue, IsFalse, Ok, Some};
ghost use Rattle.std.specs.FinMap as fin;
ghost use Rattle.disk_face.specs.Counts.{HasCause, counted};
ghost use Rattle.slot_codec.specs.{Choice.{InUse, slot_in_use}, Spelling.{head_len}};
ghost use Rattle.slot_pair.specs.Saves.{save_calls};
ghost use Rattle.logged_pair.specs.Slots.{used_in};
ghost use Rattle.size_class.specs.{Classes.{class_of}, Rows.{cells_of}};
ghost use Rattle.span_math.specs.Spans.{IsApart};
ghost use Rattle.segment_layout.specs.Layouts.{grid_of};
ghost use Rattle.extent_table.specs.Extents.{IsTable, records_of};
ghost use Rattle.data_area.specs.Pieces.{pieces};
ghost use Rattle.placement_model.specs.Held.{IsFreed, is_at};
ghost use Rattle.flush_model.specs.declared.item.Move.{Move as AnyMove};
ghost use Rattle.flush_run.specs.{FlushFrames.{IsMidFlush, FlushFrame, MidFlush, IsFreeSpace, LeavesOldOrNew}, MadeMoves.{CanSaveAs, HasHeader}, Moves.{CanMove, FreesTarget, HasMoved, HasMover}, Parts.{FitsVersion, KeepsOn, parts_of}};

use crate::Hands;
use crate::headers::moving_header;
use crate::save::save_mid_flush;
use data_area::move_object;
use disk_face::{Disk, DiskFault};
use extent_table::Table;
use flush_model::{Move, Numbers};
use span_math::Span;

/// Frees the target of a move: where the guard holds a byte of it, what stands now is saved as a moving
/// table of these numbers, and the guard is emptied. Without numbers no byte of it is held. Answers
/// whether it saved.
pub(crate) fn free_target<D: Disk, const C: usize>(
    disk: &mut D,
    saving: Option<Numbers>,
    target: Span,
    hands: &mut Hands<C>,
) -> Result<bool, DiskFault>
    requires ready { IsTrue (D.state disk.old).is_ready }
    requires room { 57856 ≤ vec_len hands.old.buf }
    requires fits { C ≤ 32 }
    requires header { IfSome saving (HasHeader C (grid_of hands.old.layout)) }
    requires apart { IsNone saving → All (λ other. IsApart other target) hands.old.guard.spans }
    requires version { FitsVersion (parts_of hands.old) }
    requires fresh { (used_in hands.old.slots).sequence < 2 ^ 62 - 1 }
    requires table { IsTable hands.old.table }
    requires long { IsTrue (D.state disk.old).tells
        → head_len (used_in hands.old.slots).block.names ≤ length (D.state disk.old).file }
    requires in_use { IsTrue (D.state disk.old).tells
        → slot_in_use (D.state disk.old).file ≡ Ok (used_in hands.old.slots) }
    ensures answer { IfOk result (λ saved. FreesTarget saved target (used_in hands.old.slots)
        (used_in hands.new.slots)
        hands.old.table hands.new.table hands.old.guard.spans hands.new.guard.spans) }
    ensures unsaved { IsNone saving → IfOk result (λ saved. IsFalse saved) }
    ensures flies { (f : FlushFrame) → IsTrue (D.state disk.old).tells
        → IfSome saving (CanSaveAs f (parts_of hands.old))
        → IsMidFlush f (used_in hands.old.slots) hands.old.table (D.state disk.old)
        → OnOk result (IsMidFlush f (used_in hands.new.slots) hands.new.table (D.state disk.new)) }
    ensures left { (f : FlushFrame) → IsTrue (D.state disk.old).tells
        → IfSome saving (CanSaveAs f (parts_of hands.old))
        → IsMidFlush f (used_in hands.old.slots) hands.old.table (D.state disk.old)
        → LeavesOldOrNew f ((used_in hands.old.slots).sequence + 1) (D.state disk.old) (D.state disk.new) }
    ensures most { (D.state disk.new).turn
        ≤ (D.state disk.old).turn + save_calls (length (records_of hands.old.table.now)) }
    ensures none { IfOk result (λ saved. IsFalse saved → (D.state disk.new).turn ≡ (D.state disk.old).turn) }
    ensures spots { hands.new.table.now ≡ hands.old.table.now }
    ensures keeps { KeepsOn (D.state disk.old) (D.state disk.new) (parts_of hands.old) (parts_of hands.new) }
    ensures moved { cells_of hands.new.ledger.moved ≡ cells_of hands.old.ledger.moved }
    ensures later { (used_in hands.old.slots).sequence ≤ (used_in hands.new.slots).sequence }
    ensures one { (used_in hands.new.slots).sequence ≤ (used_in hands.old.slots).sequence + 1 }
    ensures cause { HasCause (D.state disk.old).faults (D.state disk.new).faults result }
{
    let Some(numbers) = saving else {
        return Ok(false);
    };
    if !hands.guard.touches(target) {
        return Ok(false);
    }
    let header = moving_header(&hands.layout, numbers, hands.version);
    save_mid_flush(disk, &header, hands)?;
    Ok(true)
}

/// Moves one object to a free target: its bytes are copied, the table has it at its new place, and
/// the guard has its old one, if the checkpoint holds it.
pub(crate) fn move_one<D: Disk, const C: usize>(
    disk: &mut D,
    mv: &Move,
    hands: &mut Hands<C>,
) -> Result<(), DiskFault>
    requires ready { IsTrue (D.state disk.old).is_ready }
    requires some { vec_len hands.old.buf ≡ 65536 }
    requires fits { C ≤ 32 }
    requires low { 1 ≤ mv.now.size }
    requires class { class_of mv.now.size < C }
    requires small { hands.old.base < 2 ^ 62 }
    requires can { CanMove mv.now hands.old.table hands.old.guard.spans }
    requires from_within { IsTrue (D.state disk.old).tells
        → hands.old.base + mv.now.from + mv.now.size ≤ length (D.state disk.old).file }
    requires to_within { IsTrue (D.state disk.old).tells
        → hands.old.base + mv.now.to + mv.now.size ≤ length (D.state disk.old).file }
    requires room { hands.old.table.names ≤ hands.old.guard.room }
    ensures moved { OnOk result (HasMoved mv.now hands.old.table hands.new.table hands.old.guard.spans
        hands.new.guard.spans) }
    ensures flies { (f : FlushFrame) (u : InUse) → IsTrue (D.state disk.old).tells → f.base ≡ hands.old.base
        → IsFreeSpace hands.old.table.now hands.old.table.kept mv.now.to mv.now.size
        → mv.now.to + mv.now.size ≤ f.reach → IsMidFlush f u hands.old.table (D.state disk.old)
        → OnOk result (IsMidFlush f u hands.new.table (D.state disk.new)) }
    ensures left { (f : FlushFrame) (u : InUse) → IsTrue (D.state disk.old).tells → f.base ≡ hands.old.base
        → IsFreeSpace hands.old.table.now hands.old.table.kept mv.now.to mv.now.size
        → IsMidFlush f u hands.old.table (D.state disk.old)
        → LeavesOldOrNew f u.sequence (D.state disk.old) (D.state disk.new) }
    ensures most { (D.state disk.new).turn ≤ (D.state disk.old).turn + pieces 65536 mv.now.size }
    ensures ledger { OnOk result (cells_of hands.new.ledger.moved
        ≡ slice_set (cells_of hands.old.ledger.moved)
        (class_of mv.now.size) (min (slice_index (cells_of hands.old.ledger.moved) (class_of mv.now.size)
        + mv.now.size) (2 ^ 64 - 1))) }
    ensures table { OnErr result (hands.new.table ≡ hands.old.table) }
    ensures unmoved { OnErr result (cells_of hands.new.ledger.moved ≡ cells_of hands.old.ledger.moved) }
    ensures keeps { KeepsOn (D.state disk.old) (D.state disk.new) (parts_of hands.old) (parts_of hands.new) }
    ensures slots { hands.new.slots ≡ hands.old.slots }
    ensures cause { HasCause (D.state disk.old).faults (D.state disk.new).faults result }
{
    let from = Span {
        place: mv.from,
        size: mv.size,
    };
    move_object(
        disk,
        hands.base,
        from,
        mv.to,
        &mut hands.buf,
        &mut hands.ledger,
    )?;
    let stood = stands_kept(&hands.table, mv);
    hands.table.relocate(mv.key, mv.to);
    if stood {
        hands.guard.freed(from);
    }
    Ok(())
}

/// Whether the checkpoint holds the object of a move where it stands now.
fn stands_kept(table: &Table, mv: &Move) -> bool
    requires { HasMover table.now mv.now }
    ensures { (name : List ℕ) → fin.get table.now.keys name ≡ Some mv.now.key
        → result ≡ is_at (fin.get table.now.kept name) (record { place = mv.now.from; size = mv.now.size }) }
{
    match table.kept_spot(mv.key) {
        Some(kept) => kept.place == mv.from && kept.size == mv.size,
        None => false,
    }
}
