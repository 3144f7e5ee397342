//! A save as an entry behind the log of the slot in use.
ghost use Rattle.std.specs.Prelude.{◌≡◌, ◌*◌, ◌+◌, ◌-◌, ◌≤◌, true, false, Ok, IsTrue, OnOk, length};
ghost use Rattle.disk_face.specs.{Frames.{Asks, Calls, Unchanged, call_weight}, Writes.{KeepsDisk, WritesWithin}};
ghost use Rattle.slot_codec.specs.{Choice.{is_open}, Entries.{entry_room}, Spelling.{gate_at}};
ghost use Rattle.slot_pair.specs.{Appends.{append_calls, head_for}};
ghost use Rattle.logged_pair.specs.{Pairs.{in_log}, Saves.{AreSaved, CanSaveChanges, ChangesLeave, WritesEntry, appended, fits, one_if}};

use crate::LoggedPair;
use disk_face::{Disk, DiskFault};
use slot_codec::{Delta, EntryHead, Header};
use slot_pair::{append_entry, gate_at, header_is_whole};

/// Closes the other slot where it is open, without a sync of its own, and appends the entry that says a header
/// and what changed, with the head that `entry_head` answers, to the log of the slot in use.
pub(crate) fn append_changes<D: Disk, T: Delta>(
    disk: &mut D,
    pair: &LoggedPair,
    header: &Header,
    delta: &T,
    head: &EntryHead,
    buf: &mut [u8],
) -> Result<(), DiskFault>
    requires ready { IsTrue (D.state disk.old).is_ready }
    requires room { 57856 ≤ length buf.old }
    requires save { CanSaveChanges pair.now header.now (T.before delta.now) (T.records delta.now)
        (T.changes delta.now) }
    requires head { head.now ≡ head_for header.now (T.changes delta.now) }
    requires fits { fits pair.now head.now (length (T.records delta.now)) ≡ true }
    requires in_use { IsTrue (D.state disk.old).tells → in_log (D.state disk.old).file ≡ Ok pair.now }
    ensures calls { Calls (append_calls (entry_room head.now) + one_if pair.now.in_use.other_open)
        (D.state disk.old) (D.state disk.new) result }
    ensures asks { Asks (call_weight * (append_calls (entry_room head.now) + one_if pair.now.in_use.other_open)
        + (entry_room head.now + 1 + one_if pair.now.in_use.other_open)) 0 (D.state disk.old)
        (D.state disk.new) }
    ensures writes { WritesEntry pair.now (entry_room head.now) (D.state disk.old) (D.state disk.new) }
    ensures done { IsTrue (D.state disk.old).tells → OnOk result (AreSaved pair.now
        (appended pair.now head.now) header.now (T.before delta.now) (T.records delta.now)
        (D.state disk.old) (D.state disk.new)) }
    ensures left { IsTrue (D.state disk.old).tells → ChangesLeave pair.now (appended pair.now head.now)
        header.now (T.before delta.now) (T.records delta.now) (D.state disk.old) (D.state disk.new) }
    ensures frame { KeepsDisk (D.state disk.old) (D.state disk.new) }
{
    header_is_whole(header);
    close_first(disk, pair)?;
    append_entry(disk, pair.end, header, delta, head, buf)
}

/// Closes the slot that isn't in use where it is open, without a sync.
fn close_first<D: Disk>(disk: &mut D, pair: &LoggedPair) -> Result<(), DiskFault>
    requires ready { IsTrue (D.state disk.old).is_ready }
    requires in_use { IsTrue (D.state disk.old).tells → in_log (D.state disk.old).file ≡ Ok pair.now }
    ensures closed { IsTrue (D.state disk.old).tells → OnOk result (is_open (D.state disk.new).file
        (gate_at pair.now.in_use.block.names (1 - pair.now.in_use.slot)) ≡ false) }
    ensures same { pair.now.in_use.other_open ≡ false → Unchanged (D.state disk.old) (D.state disk.new) }
    ensures writes { WritesWithin (gate_at pair.now.in_use.block.names (1 - pair.now.in_use.slot)) 1
        (D.state disk.old) (D.state disk.new) }
    ensures calls { Calls (one_if pair.now.in_use.other_open) (D.state disk.old) (D.state disk.new) result }
    ensures asks { Asks (call_weight * one_if pair.now.in_use.other_open + one_if pair.now.in_use.other_open) 0
        (D.state disk.old) (D.state disk.new) }
{
    if pair.found.other_open {
        disk.write_at(gate_at(pair.found.block.names, 1 - pair.found.slot), &[0])?;
    }
    Ok(())
}
