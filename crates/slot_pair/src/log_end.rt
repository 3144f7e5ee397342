//! Where the log of a slot ends, by its gates and heads alone. No file of the program has a log yet.
ghost use Rattle.std.specs.Prelude.{◌≡◌, ◌+◌, ◌^◌, ◌<◌, ◌≤◌, Some, None, Err, IfOk, IfSome, IsTrue, OnErr, if◌then◌else◌, length, nat_lt};
ghost use Rattle.disk_face.specs.Frames.{Unchanged};
ghost use Rattle.slot_codec.specs.{Logs.{goes_on, log_end, room_at}};
ghost use Rattle.slot_pair.specs.{Finding.{HasDiskCause}, LogEnds.{IsLogEnd, IsRoom}};

use crate::SlotFault;
use disk_face::{Disk, read};
use slot_codec::{
    DIGEST_LEN, ENTRY_HEAD_LEN, GATE_OPEN, NAME_LEN, PAIR_LEN, RECORD_LEN, number_at, up,
};

/// What an entry begins with, from its gate to the last of its four counts, has so many bytes.
const COUNTS_END: usize = 40;

/// Where a log ends.
#[derive(Clone, Copy, Debug, PartialEq, Eq)]
pub struct LogEnd {
    /// How many entries it has.
    pub entries: u64,
    /// Where the next entry would stand, in bytes of the file.
    pub end: u64,
}

/// Where the log ends whose first gate stands at a position of the file, and that stands below another
/// position, both in bytes. It reads 40 bytes of each entry, and of the one behind the last.
pub fn find_log_end<D: Disk>(disk: &mut D, at: u64, top: u64) -> Result<LogEnd, SlotFault>
    requires ready { IsTrue (D.state disk.old).is_ready }
    requires high { top ≤ 2 ^ 48 }
    requires within { IsTrue (D.state disk.old).tells → top ≤ length (D.state disk.old).file }
    ensures found { IsTrue (D.state disk.old).tells
        → IfOk result (λ log. log_end (D.state disk.old).file top at ≡ (log.entries, log.end)) }
    ensures place { IfOk result (IsLogEnd at top) }
    ensures only { OnErr result (result ≡ Err SlotFault.Disk) }
    ensures cause { HasDiskCause SlotFault.Disk (D.state disk.old).faults (D.state disk.new).faults result }
    ensures frame { Unchanged (D.state disk.old) (D.state disk.new) }
{
    let mut log = LogEnd {
        entries: 0,
        end: at,
    };
    'entries: while let Some(room) = room_of_open(disk, log.end, top)? {
        log.entries += 1;
        log.end += room;
    }
    Ok(log)
}

/// How long the entry at a position is with the gap behind it, where it is open and the next gate stands
/// below the top.
fn room_of_open<D: Disk>(disk: &mut D, at: u64, top: u64) -> Result<Option<u64>, SlotFault>
    requires ready { IsTrue (D.state disk.old).is_ready }
    requires high { top ≤ 2 ^ 48 }
    requires within { IsTrue (D.state disk.old).tells → top ≤ length (D.state disk.old).file }
    ensures room { IsTrue (D.state disk.old).tells
        → IfOk result (λ room. room ≡ (if goes_on (D.state disk.old).file top at
        then Some (room_at (D.state disk.old).file at) else None)) }
    ensures place { IfOk result (λ room. IfSome room (IsRoom at top)) }
    ensures only { OnErr result (result ≡ Err SlotFault.Disk) }
    ensures cause { HasDiskCause SlotFault.Disk (D.state disk.old).faults (D.state disk.new).faults result }
    ensures frame { Unchanged (D.state disk.old) (D.state disk.new) }
{
    let left = top.saturating_sub(at);
    if left < COUNTS_END as u64 {
        return Ok(None);
    }
    let mut start = [0u8; COUNTS_END];
    read(disk, at, &mut start).map_err(|_| SlotFault::Disk)?;
    if start[0] != GATE_OPEN {
        return Ok(None);
    }
    Ok(room_below(&start, left))
}

/// How long an entry is with the gap behind it, by its first 40 bytes, where that is less than `most`. Its
/// counts may be any numbers of 64 bits.
fn room_below(start: &[u8], most: u64) -> Option<u64>
    requires len { length start.now ≡ COUNTS_END }
    requires high { most ≤ 2 ^ 48 }
    ensures { result ≡ (if nat_lt (room_at start.now 0) most then Some (room_at start.now 0) else None) }
{
    let cells = number_at(start, 8);
    let moved = number_at(start, 16);
    let gone = number_at(start, 24);
    let puts = number_at(start, 32);
    if most <= cells || most <= moved || most <= gone || most <= puts {
        return None;
    }
    let room = up(
        1 + ENTRY_HEAD_LEN as u64
            + PAIR_LEN as u64 * (cells + moved)
            + NAME_LEN as u64 * gone
            + (RECORD_LEN + DIGEST_LEN) as u64 * puts,
    );
    if room < most { Some(room) } else { None }
}
