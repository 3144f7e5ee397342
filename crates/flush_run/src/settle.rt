//! The end of a flush: the settled table is saved, and the file is cut to where its layout ends.
ghost use Rattle.std.specs.Prelude.{◌≡◌, ◌+◌, ◌-◌, ◌<◌, ◌≤◌, ◌^◌, ℕ, false, [], length, vec_len, OnErr, OnOk, IsTrue, Ok};
ghost use Rattle.std.specs.FinMap as fin;
ghost use Rattle.disk_face.specs.{Counts.{HasCause}, Frames.{Calls}};
ghost use Rattle.slot_codec.specs.{Choice.{slot_in_use}, Reading.{all_in_range, is_version, worn_from}, Spelling.{cap, head_len}};
ghost use Rattle.slot_pair.specs.Saves.{next_in_use, save_calls};
ghost use Rattle.logged_pair.specs.Slots.{has_logs, used_in};
ghost use Rattle.extent_table.specs.Extents.{IsTable, records_of, with_now_kept};
ghost use Rattle.flush_run.specs.{FlushFrames.{IsMidFlush, FlushFrame, LeavesOldOrNew}, Saves.{IsSaveable}, Loops.{CanSave}, Settling.{CanCut, FlushEnds, IsSettled}, Parts.{KeepsOn, KeepsSettling, parts_of}, Shelved.{items_now, phase_now}};
ghost use Rattle.segment_layout.specs.Layouts.{caps_of, grid_of};
ghost use Rattle.size_class.specs.Rows.{cells_of};
ghost use Rattle.flush_plan.specs.Lays.{HasSettled};

use crate::Hands;
use crate::headers::settled_header;
use crate::save::save_mid_flush;
use disk_face::{Disk, DiskFault};
use flush_plan::Settled;
use slot_codec::Header;

/// Saves the settled table, cuts the file to a length, and syncs. At Ok a crash leaves only the
/// content, which opens to the map and the book of after.
pub(crate) fn settle_mid_flush<D: Disk, const C: usize>(
    disk: &mut D,
    header: &Header,
    len: u64,
    hands: &mut Hands<C>,
) -> Result<(), DiskFault>
    requires ready { IsTrue (D.state disk.old).is_ready }
    requires room { 57856 ≤ vec_len hands.old.buf }
    requires plain { has_logs hands.old.slots ≡ false }
    requires version { IsTrue (is_version header.now.version) }
    requires fresh { (used_in hands.old.slots).sequence + 1 < worn_from header.now.kind }
    requires ranges { IsTrue (all_in_range header.now) }
    requires table { IsTable hands.old.table }
    requires count { fin.len hands.old.table.now ≤ cap (used_in hands.old.slots).block.names
        header.now.version }
    requires long { IsTrue (D.state disk.old).tells
        → head_len (used_in hands.old.slots).block.names ≤ length (D.state disk.old).file }
    requires in_use { IsTrue (D.state disk.old).tells
        → slot_in_use (D.state disk.old).file ≡ Ok (used_in hands.old.slots) }
    ensures settled { (f : FlushFrame) (end : ℕ) → IsTrue (D.state disk.old).tells → f.base + end ≡ len
        → IsSaveable f (used_in hands.old.slots) hands.old.table header.now
        → CanCut f (used_in hands.old.slots) hands.old.table.now header.now end
        → IsMidFlush f (used_in hands.old.slots) hands.old.table (D.state disk.old)
        → OnOk result (IsSettled f (used_in hands.new.slots) hands.new.table.now end (D.state disk.new).file
        (D.state disk.new).may_leave) }
    ensures left { (f : FlushFrame) (end : ℕ) → IsTrue (D.state disk.old).tells → f.base + end ≡ len
        → IsSaveable f (used_in hands.old.slots) hands.old.table header.now
        → CanCut f (used_in hands.old.slots) hands.old.table.now header.now end
        → IsMidFlush f (used_in hands.old.slots) hands.old.table (D.state disk.old)
        → LeavesOldOrNew f ((used_in hands.old.slots).sequence + 1) (D.state disk.old) (D.state disk.new) }
    ensures pair { OnOk result (used_in hands.new.slots ≡ next_in_use (used_in hands.old.slots)) }
    ensures same_pair { OnErr result ((used_in hands.old.slots).sequence
        ≤ (used_in hands.new.slots).sequence) }
    ensures one { (used_in hands.new.slots).sequence ≤ (used_in hands.old.slots).sequence + 1 }
    ensures table { OnOk result (hands.new.table ≡ with_now_kept hands.old.table) }
    ensures guard { OnOk result (hands.new.guard.spans ≡ []) }
    ensures calls { Calls (save_calls (length (records_of hands.old.table.now)) + 2) (D.state disk.old)
        (D.state disk.new) result }
    ensures spots { hands.new.table.now ≡ hands.old.table.now }
    ensures keeps { KeepsOn (D.state disk.old) (D.state disk.new) (parts_of hands.old) (parts_of hands.new) }
    ensures ledger { hands.new.ledger ≡ hands.old.ledger }
{
    save_mid_flush(disk, header, hands)?;
    disk.set_len(len)?;
    disk.sync()
}

/// Lays the layout out anew for what was laid, saves it as a settled table, cuts the file to where the
/// layout ends, and syncs.
pub(crate) fn settle<D: Disk, const C: usize>(
    disk: &mut D,
    settled: &Settled<C>,
    hands: &mut Hands<C>,
) -> Result<(), DiskFault>
    requires ready { IsTrue (D.state disk.old).is_ready }
    requires buffer { vec_len hands.old.buf ≡ 65536 }
    requires fits { C ≤ 32 }
    requires start { (f : FlushFrame) × CanSave C f (caps_of hands.old.layout) (grid_of hands.old.layout)
        (parts_of hands.old) (phase_now settled.now.course hands.old.table) (D.state disk.old) }
    requires settled { HasSettled C settled.now (items_now settled.now.course hands.old.table) }
    ensures ends { (f : FlushFrame) → CanSave C f (caps_of hands.old.layout) (grid_of hands.old.layout)
        (parts_of hands.old) (phase_now settled.now.course hands.old.table) (D.state disk.old)
        → OnOk result (FlushEnds C f (parts_of hands.new) (D.state disk.new)) }
    ensures left { (f : FlushFrame) → CanSave C f (caps_of hands.old.layout) (grid_of hands.old.layout)
        (parts_of hands.old) (phase_now settled.now.course hands.old.table) (D.state disk.old)
        → IsTrue (D.state disk.old).tells
        → LeavesOldOrNew f ((used_in hands.old.slots).sequence + 1) (D.state disk.old) (D.state disk.new) }
    ensures pair { OnOk result (used_in hands.new.slots ≡ next_in_use (used_in hands.old.slots)) }
    ensures later { (used_in hands.old.slots).sequence ≤ (used_in hands.new.slots).sequence }
    ensures one { (used_in hands.new.slots).sequence ≤ (used_in hands.old.slots).sequence + 1 }
    ensures calls { Calls (save_calls (length (records_of hands.old.table.now)) + 2) (D.state disk.old)
        (D.state disk.new) result }
    ensures keeps { KeepsSettling (D.state disk.old) (D.state disk.new) (parts_of hands.old)
        (parts_of hands.new) }
    ensures spots { hands.new.table.now ≡ hands.old.table.now }
    ensures moved { cells_of hands.new.ledger.moved ≡ cells_of hands.old.ledger.moved }
    ensures cause { HasCause (D.state disk.old).faults (D.state disk.new).faults result }
{
    let numbers = settled.numbers();
    hands.layout.settle(numbers.boundary, &settled.volumes());
    let header = settled_header(&hands.layout, hands.version);
    let len = hands.base + hands.layout.end();
    settle_mid_flush(disk, &header, len, hands)?;
    Ok(())
}
