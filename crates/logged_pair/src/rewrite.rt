//! A save as a whole table in the slot that isn't in use.
ghost use Rattle.std.specs.Prelude.{◌≡◌, ◌*◌, ◌+◌, ◌-◌, ◌≤◌, true, Ok, IsTrue, OnOk, length};
ghost use Rattle.disk_face.specs.{Frames.{Asks, Calls, call_weight}, Writes.{KeepsDisk}};
ghost use Rattle.slot_codec.specs.{Logs.{log_top}, Spelling.{slot_at}};
ghost use Rattle.slot_pair.specs.{Bases.{base_calls, base_len, closing_calls}};
ghost use Rattle.logged_pair.specs.{Pairs.{in_log}, Saves.{AreSaved, CanSaveChanges, ChangesLeave, one_if, rewritten}};

use crate::LoggedPair;
use disk_face::{Disk, DiskFault};
use slot_codec::{Delta, Header};
use slot_pair::{close_if_open, header_is_whole, log_top, open_gate, slot_at, write_base};

/// Closes the other slot where it is open, with a sync, writes the header and the records of a table into it
/// with a closed gate behind them, syncs, opens it, and syncs.
pub(crate) fn write_whole<D: Disk, T: Delta>(
    disk: &mut D,
    pair: &LoggedPair,
    header: &Header,
    delta: &T,
    buf: &mut [u8],
) -> Result<(), DiskFault>
    requires ready { IsTrue (D.state disk.old).is_ready }
    requires room { 57856 ≤ length buf.old }
    requires save { CanSaveChanges pair.now header.now (T.before delta.now) (T.records delta.now)
        (T.changes delta.now) }
    requires in_use { IsTrue (D.state disk.old).tells → in_log (D.state disk.old).file ≡ Ok pair.now }
    ensures calls { Calls (closing_calls pair.now.in_use.other_open + base_calls (length (T.records delta.now))
        + 2) (D.state disk.old) (D.state disk.new) result }
    ensures asks { Asks (call_weight * (closing_calls pair.now.in_use.other_open
        + base_calls (length (T.records delta.now)) + 2)
        + (base_len (slot_at pair.now.in_use.block.names (1 - pair.now.in_use.slot))
        (log_top pair.now.in_use.block.names (1 - pair.now.in_use.slot)) (length (T.records delta.now)) + 1
        + one_if pair.now.in_use.other_open)) 0 (D.state disk.old) (D.state disk.new) }
    ensures done { IsTrue (D.state disk.old).tells → OnOk result (AreSaved pair.now
        (rewritten pair.now (length (T.records delta.now))) header.now (T.before delta.now)
        (T.records delta.now) (D.state disk.old) (D.state disk.new)) }
    ensures left { IsTrue (D.state disk.old).tells → ChangesLeave pair.now
        (rewritten pair.now (length (T.records delta.now))) header.now (T.before delta.now)
        (T.records delta.now) (D.state disk.old) (D.state disk.new) }
    ensures frame { KeepsDisk (D.state disk.old) (D.state disk.new) }
{
    header_is_whole(header);
    let names = pair.found.block.names;
    let other = 1 - pair.found.slot;
    let next = Header {
        sequence: pair.found.sequence + 1,
        count: delta.count(),
        ..*header
    };
    close_if_open(disk, &pair.found)?;
    write_base(
        disk,
        slot_at(names, other),
        log_top(names, other),
        &next,
        delta,
        buf,
    )?;
    open_gate(disk, names, other)
}
