//! The log of a slot, gone through entry by entry.
ghost use Rattle.std.specs.Prelude.{◌≡◌, ◌+◌, ◌-◌, ◌*◌, ◌^◌, ◌<◌, ◌≤◌, Ok, Some, IfOk, IfErr, IfSome, OnOk, IsTrue, length, option_map};
ghost use Rattle.disk_face.specs.Frames.{Unchanged};
ghost use Rattle.slot_codec.specs.{Entries.{IsEntryHead, entry_room}, Logs.{begun, read_log}, Reading.{log_worn_from}};
ghost use Rattle.slot_pair.specs.Finding.{HasDiskCause, Refuses};
ghost use Rattle.extent_table.specs.Extents.{IsTable};
ghost use Rattle.reopen.specs.declared.items.Part.TheVariants.{Gap};
ghost use Rattle.reopen.specs.{Entries.{EndWithin, IsOrderly, first_of, parts_of, read_head, read_next, read_parts, read_rest}, Items.{KeepsMaking, Passing, Stands, Taken}, Logs.{IsMaking, IsPlace, KeepsBase, logged_of}};

use crate::items::{Items, Part, Progress, take_part};
use disk_face::{Disk, read};
use extent_table::BulkLoad;
use slot_codec::{
    CodecFault, ENTRY_HEAD_LEN, EntryHead, GATE_OPEN, Header, Kind, NAME_LEN, PAIR_LEN,
    read_entry_head,
};
use slot_pair::SlotFault;

/// Goes through the log of a slot for `cap` records, whose first gate stands at `at` and which must end below
/// `top`. A header and a table in the making are those before the log, and come to be those behind its last
/// open entry. Answers where the next entry would stand. `buf` is to have room for 512 records.
pub(crate) fn read_log<D: Disk>(
    disk: &mut D,
    at: u64,
    top: u64,
    cap: u64,
    header: &mut Header,
    load: &mut BulkLoad,
    buf: &mut [u8],
) -> Result<u64, SlotFault>
    requires ready { IsTrue (D.state disk.old).is_ready }
    requires place { IsPlace at top }
    requires within { IsTrue (D.state disk.old).tells → top ≤ length (D.state disk.old).file }
    requires making { IsMaking cap header.old load.old }
    requires room { 112 * 512 ≤ length buf.old }
    ensures read { IsTrue (D.state disk.old).tells → IfOk result (λ end. read_log cap top
        (D.state disk.old).file at (logged_of header.old load.old)
        ≡ Ok (logged_of header.new load.new, end)) }
    ensures refused { IsTrue (D.state disk.old).tells → IfErr result (Refuses (read_log cap top
        (D.state disk.old).file at (logged_of header.old load.old))) }
    ensures end { IfOk result (λ end. (at ≤ end) × IsPlace end top) }
    ensures making { OnOk result (IsMaking cap header.new load.new) }
    ensures rest { KeepsBase header.old header.new load.old load.new }
    ensures cause { HasDiskCause SlotFault.Disk (D.state disk.old).faults (D.state disk.new).faults result }
    ensures frame { Unchanged (D.state disk.old) (D.state disk.new) }
{
    let mut end = at;
    'entries: while let Some(next) = next_entry(disk, end, top, cap, header, load, buf)? {
        end = next;
    }
    Ok(end)
}

/// Takes the entry whose gate stands at a position, and answers where the next gate stands; none where the
/// gate isn't open.
fn next_entry<D: Disk>(
    disk: &mut D,
    at: u64,
    top: u64,
    cap: u64,
    header: &mut Header,
    load: &mut BulkLoad,
    buf: &mut [u8],
) -> Result<Option<u64>, SlotFault>
    requires ready { IsTrue (D.state disk.old).is_ready }
    requires place { IsPlace at top }
    requires within { IsTrue (D.state disk.old).tells → top ≤ length (D.state disk.old).file }
    requires making { IsMaking cap header.old load.old }
    requires room { 112 * 512 ≤ length buf.old }
    ensures read { IsTrue (D.state disk.old).tells → IfOk result (λ next. read_next cap top
        (D.state disk.old).file at (logged_of header.old load.old)
        ≡ Ok (option_map (λ end. (logged_of header.new load.new, end)) next)) }
    ensures refused { IsTrue (D.state disk.old).tells → IfErr result (Refuses (read_next cap top
        (D.state disk.old).file at (logged_of header.old load.old))) }
    ensures none { IfOk result (λ next. next ≡ None → (header.new ≡ header.old) × (load.new ≡ load.old)) }
    ensures next { IfOk result (λ next. IfSome next (λ end. (at + 512 ≤ end) × IsPlace end top)) }
    ensures making { OnOk result (IsMaking cap header.new load.new) }
    ensures rest { KeepsBase header.old header.new load.old load.new }
    ensures cause { HasDiskCause SlotFault.Disk (D.state disk.old).faults (D.state disk.new).faults result }
    ensures frame { Unchanged (D.state disk.old) (D.state disk.new) }
{
    let Some(head) = next_head(disk, at, top, cap, header.count, buf)? else {
        return Ok(None);
    };
    if log_worn_from(head.kind) <= header.sequence + 1 {
        return Err(SlotFault::Codec(CodecFault::Worn, at));
    }
    take_entry(disk, at, &head, cap, header, load, buf)?;
    Ok(Some(at + head.room()))
}

/// The head of the entry whose gate stands at a position, behind a table of `count` names; none where the
/// gate isn't open.
fn next_head<D: Disk>(
    disk: &mut D,
    at: u64,
    top: u64,
    cap: u64,
    count: u64,
    buf: &mut [u8],
) -> Result<Option<EntryHead>, SlotFault>
    requires ready { IsTrue (D.state disk.old).is_ready }
    requires place { IsPlace at top }
    requires within { IsTrue (D.state disk.old).tells → top ≤ length (D.state disk.old).file }
    requires cap { cap ≤ 2 ^ 32 }
    requires count { count ≤ 2 ^ 32 }
    requires room { 56 ≤ length buf.old }
    ensures read { IsTrue (D.state disk.old).tells
        → IfOk result (λ head. read_head cap count top (D.state disk.old).file at ≡ Ok head) }
    ensures refused { IsTrue (D.state disk.old).tells
        → IfErr result (Refuses (read_head cap count top (D.state disk.old).file at)) }
    ensures ranges { IfOk result (λ head. IfSome head (IsEntryHead cap count (top - at))) }
    ensures cause { HasDiskCause SlotFault.Disk (D.state disk.old).faults (D.state disk.new).faults result }
    ensures frame { Unchanged (D.state disk.old) (D.state disk.new) }
{
    let text = &mut buf[..1 + ENTRY_HEAD_LEN];
    if read(disk, at, text).is_err() {
        return Err(SlotFault::Disk);
    }
    if text[0] != GATE_OPEN {
        return Ok(None);
    }
    match read_entry_head(&text[1..], cap, count, top - at) {
        Ok(head) => Ok(Some(head)),
        Err(fault) => Err(SlotFault::Codec(fault, at)),
    }
}

/// Takes the parts of the entry whose gate stands at a position, behind its head.
fn take_entry<D: Disk>(
    disk: &mut D,
    at: u64,
    head: &EntryHead,
    cap: u64,
    header: &mut Header,
    load: &mut BulkLoad,
    buf: &mut [u8],
) -> Result<(), SlotFault>
    requires ready { IsTrue (D.state disk.old).is_ready }
    requires small { at + entry_room head.now < 2 ^ 63 }
    requires within { IsTrue (D.state disk.old).tells
        → at + entry_room head.now ≤ length (D.state disk.old).file }
    requires making { IsMaking cap header.old load.old }
    requires head { IsEntryHead cap header.old.count (entry_room head.now + 1) head.now }
    requires fresh { header.old.sequence + 1 < log_worn_from head.now.kind }
    requires room { 112 * 512 ≤ length buf.old }
    ensures read { IsTrue (D.state disk.old).tells → OnOk result (read_rest cap (D.state disk.old).file at
        (logged_of header.old load.old) head.now ≡ Ok (logged_of header.new load.new)) }
    ensures refused { IsTrue (D.state disk.old).tells → IfErr result (Refuses (read_rest cap
        (D.state disk.old).file at (logged_of header.old load.old) head.now)) }
    ensures making { OnOk result (IsMaking cap header.new load.new) }
    ensures rest { KeepsBase header.old header.new load.old load.new }
    ensures cause { HasDiskCause SlotFault.Disk (D.state disk.old).faults (D.state disk.new).faults result }
    ensures frame { Unchanged (D.state disk.old) (D.state disk.new) }
{
    begin(header, head);
    let mut progress = Progress {
        next: 0,
        over: false,
    };
    take_parts(
        disk,
        &parts_of(head, at),
        cap,
        &mut progress,
        header,
        load,
        buf,
    )?;
    if progress.over {
        return Err(SlotFault::Codec(CodecFault::Count, at));
    }
    header.count = load.count();
    Ok(())
}

/// Takes parts of an entry, one after another.
fn take_parts<D: Disk>(
    disk: &mut D,
    parts: &[Items],
    cap: u64,
    progress: &mut Progress,
    header: &mut Header,
    load: &mut BulkLoad,
    buf: &mut [u8],
) -> Result<(), SlotFault>
    requires ready { IsTrue (D.state disk.old).is_ready }
    requires table { IsTable load.old }
    requires names { cap ≤ load.old.names }
    requires orderly { IsOrderly parts.now }
    requires small { EndWithin parts.now (2 ^ 63 - 1) }
    requires within { IsTrue (D.state disk.old).tells
        → EndWithin parts.now (length (D.state disk.old).file) }
    requires room { 112 * 512 ≤ length buf.old }
    ensures taken { IsTrue (D.state disk.old).tells → (p : Passing)
        → Stands (first_of parts.now) cap p progress.old header.old load.old → OnOk result (Taken Gap cap
        (read_parts parts.now (D.state disk.old).file p) progress.new header.new load.new) }
    ensures refused { IsTrue (D.state disk.old).tells → (p : Passing)
        → Stands (first_of parts.now) cap p progress.old header.old load.old
        → IfErr result (Refuses (read_parts parts.now (D.state disk.old).file p)) }
    ensures rest { KeepsMaking cap header.old header.new load.old load.new }
    ensures cause { HasDiskCause SlotFault.Disk (D.state disk.old).faults (D.state disk.new).faults result }
    ensures frame { Unchanged (D.state disk.old) (D.state disk.new) }
{
    'parts: for items in parts {
        take_part(disk, *items, cap, progress, header, load, buf)?;
    }
    Ok(())
}

/// Where the parts of the entry stand whose gate stands at a position.
fn parts_of(head: &EntryHead, at: u64) -> [Items; 5]
    requires small { at + entry_room head.now < 2 ^ 63 }
    requires cells { head.now.cells ≤ 1056 }
    requires moved { head.now.moved ≤ 2 ^ 32 }
    requires gone { head.now.gone ≤ 2 ^ 32 }
    requires puts { head.now.puts ≤ 2 ^ 32 }
    ensures { result ≡ parts_of head.now at }
{
    let cells = at + 1 + ENTRY_HEAD_LEN as u64;
    let moved = cells + PAIR_LEN as u64 * head.cells;
    let gone = moved + PAIR_LEN as u64 * head.moved;
    let puts = gone + NAME_LEN as u64 * head.gone;
    let gap = at + head.len();
    [
        Items {
            part: Part::Cells,
            at: cells,
            count: head.cells,
        },
        Items {
            part: Part::Moved,
            at: moved,
            count: head.moved,
        },
        Items {
            part: Part::Gone,
            at: gone,
            count: head.gone,
        },
        Items {
            part: Part::Puts,
            at: puts,
            count: head.puts,
        },
        Items {
            part: Part::Gap,
            at: gap,
            count: head.room() - head.len(),
        },
    ]
}

/// Gives a header what the head of an entry says, the next sequence, and 0 in each cell.
fn begin(header: &mut Header, head: &EntryHead)
    requires { header.old.sequence < 2 ^ 62 }
    ensures { header.new ≡ begun header.old head.now }
{
    header.kind = head.kind;
    header.boundary = head.boundary;
    header.sequence += 1;
    header.wall = head.wall;
    header.slack = head.slack;
    header.caps = [0; 32];
    header.used = [[0; 32]; 32];
}

/// Where the sequence of an entry is worn out: earlier for a moving table, since its opening saves again.
fn log_worn_from(kind: Kind) -> u64
    ensures { result ≡ log_worn_from kind }
{
    match kind {
        Kind::Settled => 1 << 62,
        Kind::Moving => (1 << 62) - (1 << 26),
    }
}
