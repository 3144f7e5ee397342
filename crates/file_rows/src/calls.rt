//! The calls that a disk makes of a system, and calls that fail.
ghost use Rattle.std.specs.Prelude.{IsTrue, IsFalse};
ghost use Rattle.disk_file.specs.Bays.{bay_state};

use crate::bays::{mounts, word};
use crate::faulty::Faulty;
use disk_face::{Disk, Mounted};
use disk_file::{Cause, FileBay, Host, Kind, Use};
use std::io::ErrorKind;
use std::process::Abort;

/// What is seen where the system's call of a number fails: which changes fail, a 1 for each of `set_len`,
/// `write_at` and `sync`, and the cause after them; which of `read_at`, `len` and a second `sync` fail, and
/// the cause at the end; whether what was to be written was read; and the turns.
#[derive(Clone, Copy, PartialEq, Eq)]
struct Row {
    fails: u64,
    changes: [u8; 3],
    cause: &'static str,
    reads: [u8; 3],
    end: &'static str,
    is_read: bool,
    turns: u64,
}

macro_rules! rows {
    ($($fails:literal: $changes:expr, $cause:literal; $reads:expr, $end:literal, $is_read:literal
        => $turns:literal;)*) => {
        [$(Row {
            fails: $fails,
            changes: $changes,
            cause: $cause,
            reads: $reads,
            end: $end,
            is_read: $is_read,
            turns: $turns,
        }),*]
    };
}

const ROWS: &[Row] = &rows! {
    8: [1, 0, 0], "system"; [0, 0, 0], "system", true => 5;
    9: [0, 1, 0], "system"; [0, 0, 0], "system", false => 4;
    10: [0, 1, 0], "system"; [0, 0, 0], "system", false => 4;
    11: [0, 1, 0], "system"; [0, 0, 0], "system", false => 4;
    12: [0, 0, 1], "system"; [0, 0, 1], "lost", true => 4;
    13: [0, 0, 0], "none"; [0, 0, 0], "none", true => 4;
    14: [0, 0, 0], "none"; [1, 0, 0], "system", false => 4;
    15: [0, 0, 0], "none"; [1, 0, 0], "system", false => 4;
    16: [0, 0, 0], "none"; [1, 0, 0], "system", false => 4;
    17: [0, 0, 0], "none"; [0, 1, 0], "system", true => 4;
    18: [0, 0, 0], "none"; [0, 0, 1], "system", true => 4;
    19: [0, 0, 0], "none"; [0, 0, 0], "none", true => 4;
};

/// A call of the system that fails is a fault of the call that made it, and of no other but a sync
/// after a failed one.
#[test]
fn fails_where_the_system_fails(rt: HostRuntime) {
    for row in ROWS {
        tries(&rt, row);
    }
}

/// What is seen is what the row says.
fn tries(rt: &impl Abort, row: &Row) {
    assert!(rt; seen(rt, row.fails) == *row, "call {}", row.fails);
}

/// A system whose file has one byte, and of which the call of a number fails so.
fn of_one_byte(fails: u64, failing: ErrorKind) -> Faulty {
    let mut host = Faulty::new(Some(Kind::File), fails);
    host.failing = failing;
    host.len = 1;
    host
}

/// A bay that has mounted the file of a system, to change it.
fn bay_over(rt: &impl Abort, host: Faulty) -> FileBay<Faulty>
    ensures ready { IsTrue (bay_state result).is_ready }
    ensures untold { IsFalse (bay_state result).tells }
{
    let mut bay = FileBay::over(host, Use::Changing);
    mounts(rt, &mut bay, "f", false, Mounted::There);
    bay
}

/// Mounts a file of one byte and makes each call of a disk, where a call of the system fails.
fn seen(rt: &impl Abort, fails: u64) -> Row {
    let mut bay = bay_over(rt, of_one_byte(fails, ErrorKind::Other));
    let mut out = [0u8; 8];
    let changes = failed_changes(&mut bay);
    let cause = word(bay.cause());
    let reads = failed_reads(&mut bay, &mut out);
    Row {
        fails,
        changes,
        cause,
        reads,
        end: word(bay.cause()),
        is_read: out == *b"abcdefgh",
        turns: bay.turns(),
    }
}

/// Which changes fail. A length that isn't given is given again.
fn failed_changes<D: Disk>(disk: &mut D) -> [u8; 3]
    requires ready { IsTrue (D.state disk.old).is_ready }
    requires untold { IsFalse (D.state disk.old).tells }
    ensures ready { IsTrue (D.state disk.new).is_ready }
    ensures untold { IsFalse (D.state disk.new).tells }
{
    let mut failed = [0u8; 3];
    if disk.set_len(8).is_err() {
        failed[0] = 1 + u8::from(disk.set_len(8).is_err());
    }
    failed[1] = u8::from(disk.write_at(0, b"abcdefgh").is_err());
    failed[2] = u8::from(disk.sync().is_err());
    failed
}

/// Which of a read, of asking the length and of a sync fail.
fn failed_reads<D: Disk>(disk: &mut D, out: &mut [u8; 8]) -> [u8; 3]
    requires ready { IsTrue (D.state disk.old).is_ready }
    requires untold { IsFalse (D.state disk.old).tells }
{
    let read = u8::from(disk.read_at(0, out).is_err());
    let len = u8::from(disk.len().is_err());
    let sync = u8::from(disk.sync().is_err());
    [read, len, sync]
}

/// A sync of a file that its name leads to no more is a fault, and so is each later one.
#[test]
fn syncs_no_file_that_is_gone(rt: HostRuntime) {
    let mut host = Faulty::new(Some(Kind::File), 0);
    host.strays = true;
    let mut bay = bay_over(&rt, host);
    assert!(rt; sync_cause(&mut bay) == "gone");
    assert!(rt; sync_cause(&mut bay) == "lost");
}

/// The cause of a sync that fails.
fn sync_cause<H: Host>(bay: &mut FileBay<H>) -> &'static str
    requires ready { IsTrue (bay_state bay.old).is_ready }
    ensures ready { IsTrue (bay_state bay.new).is_ready }
{
    match bay.sync() {
        Ok(()) => "synced",
        Err(_) => word(bay.cause()),
    }
}

/// A read past the end and a write past what the system takes are faults with their causes.
#[test]
fn tells_why_a_part_is_missing(rt: HostRuntime) {
    let mut bay = bay_over(&rt, Faulty::new(Some(Kind::File), 0));
    assert!(rt; causes(&mut bay) == ["none", "ended", "none taken"]);
}

/// The causes after a file is given four bytes, after eight of them are read, and after eight are written.
fn causes<H: Host>(bay: &mut FileBay<H>) -> [&'static str; 3]
    requires ready { IsTrue (bay_state bay.old).is_ready }
    requires untold { IsFalse (bay_state bay.old).tells }
{
    let mut out = [0u8; 8];
    let _ = bay.set_len(4);
    let sized = word(bay.cause());
    let _ = bay.read_at(0, &mut out);
    let read = word(bay.cause());
    let _ = bay.write_at(0, b"abcdefgh");
    [sized, read, word(bay.cause())]
}

/// What is told where there is no room for a change: the number of the system's call that fails, how it
/// fails, and how much was asked for and had. The calls after the mount are one of a length of sixteen bytes,
/// and three that write the eight from position 4 on.
type Lack = (u64, ErrorKind, u64, Option<u64>);

const FULL: &[Lack] = &[
    (8, ErrorKind::FileTooLarge, 16, None),
    (9, ErrorKind::StorageFull, 12, Some(4)),
    (10, ErrorKind::QuotaExceeded, 12, Some(7)),
    (11, ErrorKind::StorageFull, 12, Some(10)),
];

#[test]
fn tells_what_there_was_no_room_for(rt: HostRuntime) {
    for row in FULL {
        lacks(&rt, row);
    }
}

/// The cause is what the row says.
fn lacks(rt: &impl Abort, row: &Lack) {
    let cause = full_cause(rt, row.0, row.1);
    assert!(rt; is_lack(cause, row), "call {}", row.0);
}

/// The cause of a change that fails where the system's call of a number does.
fn full_cause(rt: &impl Abort, fails: u64, failing: ErrorKind) -> Option<Cause> {
    let mut bay = bay_over(rt, of_one_byte(fails, failing));
    assert!(rt; !grows(&mut bay));
    bay.cause()
}

/// Whether the file is given sixteen bytes, and eight of them are written.
fn grows<D: Disk>(disk: &mut D) -> bool
    requires ready { IsTrue (D.state disk.old).is_ready }
    requires untold { IsFalse (D.state disk.old).tells }
{
    disk.set_len(16).is_ok() && disk.write_at(4, b"abcdefgh").is_ok()
}

/// Whether a cause has the word and the numbers of a row.
fn is_lack(cause: Option<Cause>, row: &Lack) -> bool {
    match cause {
        Some(Cause::NoRoom(room)) => {
            Cause::NoRoom(room).word() == "no-room"
                && (room.error.kind(), room.asked, room.had) == (row.1, row.2, row.3)
        }
        _ => false,
    }
}

#[test]
fn reads_and_writes_in_pieces(rt: HostRuntime) {
    let mut host = Faulty::new(Some(Kind::File), 0);
    host.stutters = true;
    host.len = 10;
    let mut bay = bay_over(&rt, host);
    let mut out = [0u8; 8];
    let is_ok = pieces(&mut bay, &mut out);
    assert!(rt; is_ok == [true, true, false, true, false]);
    assert!(rt; out == *b"12345678");
    assert!(rt; &bay.host().bytes[..10] == b"01aABCDEFG".as_slice());
}

/// Which of these end well: a write of all ten bytes, a read of eight within them and one past them, a
/// write of eight within them and one past them.
fn pieces<D: Disk>(disk: &mut D, out: &mut [u8; 8]) -> [bool; 5]
    requires ready { IsTrue (D.state disk.old).is_ready }
    requires untold { IsFalse (D.state disk.old).tells }
{
    let mut past = [0u8; 8];
    [
        disk.write_at(0, b"0123456789").is_ok(),
        disk.read_at(1, out).is_ok(),
        disk.read_at(3, &mut past).is_ok(),
        disk.write_at(2, b"abcdefgh").is_ok(),
        disk.write_at(3, b"ABCDEFGH").is_ok(),
    ]
}
