//! Appending an entry to a log. No file of the program has a log yet.
ghost use Rattle.std.specs.Prelude.{◌≡◌, ◌+◌, ◌*◌, ◌^◌, ◌<◌, ◌≤◌, OnOk, IsTrue, true, length};
ghost use Rattle.byte_ranges.specs.Ranges.{bytes_at};
ghost use Rattle.disk_face.specs.{Frames.{Asks, Calls, call_weight}, Moments.{Rests}, Writes.{WritesWithin}};
ghost use Rattle.slot_codec.specs.{Choice.{is_open}, Entries.{entry_room}};
ghost use Rattle.slot_pair.specs.Appends.{AppendLeaves, IsAppended, append_calls, entry_for, entry_text, head_for, pieces_of};

use crate::entry::write_entry;
use crate::save::write_and_sync;
use disk_face::{Disk, DiskFault};
use slot_codec::{Delta, EntryHead, GATE_OPEN, Header};

/// Appends the entry that says a header and what changed, with the head that `entry_head` answers, to a log
/// that ends at a position in bytes of the file, where its closed gate stands: the entry is written behind
/// that gate, up to 57,344 bytes in one write, with the closed gate of the entry after it; sync; the gate is
/// opened; sync. Before the first sync a crash leaves the log as it was beside an old data part, after it the
/// log as it was or with the entry beside what reads give. `buf` has at least 57,856 bytes: those of one
/// write and the longest item behind it.
pub fn append_entry<D: Disk, T: Delta>(
    disk: &mut D,
    at: u64,
    header: &Header,
    delta: &T,
    head: &EntryHead,
    buf: &mut [u8],
) -> Result<(), DiskFault>
    requires ready { IsTrue (D.state disk.old).is_ready }
    requires head { head.now ≡ head_for header.now (T.changes delta.now) }
    requires few { length (T.changes delta.now) ≤ 2 ^ 32 }
    requires room { 57856 ≤ length buf.old }
    requires fits { at + 1 + entry_room head.now < 2 ^ 63 }
    requires within { IsTrue (D.state disk.old).tells
        → at + 1 + entry_room head.now ≤ length (D.state disk.old).file }
    ensures appended { IsTrue (D.state disk.old).tells
        → OnOk result (IsAppended at (entry_for header.now (T.changes delta.now)) (D.state disk.new)) }
    ensures left { IsTrue (D.state disk.old).tells → AppendLeaves at (entry_for header.now
        (T.changes delta.now)) (D.state disk.old) (D.state disk.new) }
    ensures writes { WritesWithin at (entry_room head.now + 1) (D.state disk.old) (D.state disk.new) }
    ensures calls { Calls (append_calls (entry_room head.now)) (D.state disk.old) (D.state disk.new) result }
    ensures asks { Asks (call_weight * append_calls (entry_room head.now) + (entry_room head.now + 1)) 0
        (D.state disk.old) (D.state disk.new) }
{
    write_text(disk, at, header, delta, head, buf)?;
    open_entry(disk, at)
}

/// Writes the text of an entry behind its gate, and syncs.
fn write_text<D: Disk, T: Delta>(
    disk: &mut D,
    at: u64,
    header: &Header,
    delta: &T,
    head: &EntryHead,
    buf: &mut [u8],
) -> Result<(), DiskFault>
    requires ready { IsTrue (D.state disk.old).is_ready }
    requires head { head.now ≡ head_for header.now (T.changes delta.now) }
    requires few { length (T.changes delta.now) ≤ 2 ^ 32 }
    requires room { 57856 ≤ length buf.old }
    requires fits { at + 1 + entry_room head.now < 2 ^ 63 }
    requires within { IsTrue (D.state disk.old).tells
        → at + 1 + entry_room head.now ≤ length (D.state disk.old).file }
    ensures text { IsTrue (D.state disk.old).tells
        → OnOk result (bytes_at (D.state disk.new).file (at + 1) (entry_room head.now)
        ≡ entry_text (entry_for header.now (T.changes delta.now))) }
    ensures rests { IsTrue (D.state disk.old).tells → OnOk result (Rests (D.state disk.new)) }
    ensures writes { WritesWithin (at + 1) (entry_room head.now) (D.state disk.old) (D.state disk.new) }
    ensures calls { Calls (pieces_of (entry_room head.now) + 1) (D.state disk.old) (D.state disk.new) result }
    ensures asks { Asks (call_weight * (pieces_of (entry_room head.now) + 1) + entry_room head.now) 0
        (D.state disk.old) (D.state disk.new) }
{
    write_entry(disk, at, header, delta, head, buf)?;
    disk.sync()
}

/// Opens the gate of an entry, and syncs.
fn open_entry<D: Disk>(disk: &mut D, at: u64) -> Result<(), DiskFault>
    requires ready { IsTrue (D.state disk.old).is_ready }
    requires within { IsTrue (D.state disk.old).tells → at + 1 ≤ length (D.state disk.old).file }
    ensures opened { IsTrue (D.state disk.old).tells
        → OnOk result (is_open (D.state disk.new).file at ≡ true) }
    ensures rests { IsTrue (D.state disk.old).tells → OnOk result (Rests (D.state disk.new)) }
    ensures writes { WritesWithin at 1 (D.state disk.old) (D.state disk.new) }
    ensures calls { Calls 2 (D.state disk.old) (D.state disk.new) result }
    ensures asks { Asks 35 0 (D.state disk.old) (D.state disk.new) }
{
    write_and_sync(disk, at, &[GATE_OPEN])
}
