//! The pair of slots of an open file whose slots have logs.
ghost use Rattle.std.specs.Prelude.{◌≡◌, ◌*◌, ◌+◌, ◌^◌, ◌<◌, ◌≤◌, true, Ok, Err, IfErr, IfOk, IsTrue, OnErr, OnOk, if◌then◌else◌, length};
ghost use Rattle.disk_face.specs.{Frames.{Asks, Calls, Unchanged, call_weight}, Writes.{KeepsDisk}};
ghost use Rattle.slot_codec.specs.{Choice.{chosen_in, is_open, slot_in}, Entries.{entry_room}, Logs.{first_gate}, Readable.{IsSuperBlockIn}, Spelling.{cap}};
ghost use Rattle.slot_pair.specs.{Appends.{head_for}, Finding.{HasDiskCause, Refuses, in_use_of}};
ghost use Rattle.logged_pair.specs.{Pairs.{in_log, top_of}, Saves.{AreSaved, CanSaveChanges, ChangesLeave, IsNextInLog, IsSmall, WritesEntry, change_bytes, change_calls, fits, next_in_log}};

use crate::append::append_changes;
use crate::rewrite::write_whole;
use disk_face::{Disk, DiskFault, read};
use slot_codec::{
    DIGEST_LEN, Delta, EntryHead, GATE_OPEN, HEADER_LEN, Header, RECORD_LEN, SuperBlock, up,
};
use slot_pair::{Found, SlotFault, entry_head, find_log_end, log_top, read_header_in, slot_at};
use std::marker::Model;

/// The length of a record of version 3, in bytes.
const LONG_LEN: u64 = (RECORD_LEN + DIGEST_LEN) as u64;

/// The two slots of a file whose slots have logs, which one is in use, and where its log ends. Contracts see
/// it as the slot in use, with the sequence behind its log, and where the next entry would stand.
#[derive(Drop)]
pub struct LoggedPair {
    /// Its sequence is the one behind the log.
    pub(crate) found: Found,
    /// In bytes of the file; 0 where no entry may be appended.
    pub(crate) end: u64,
}

impl Model for LoggedPair {
    ghost use Rattle.std.specs.Prelude.{◌≤◌, ◌<◌, true};
    ghost use Rattle.slot_codec.specs.{Readable.{IsSuperBlockIn}};
    ghost use Rattle.slot_pair.specs.Finding.{in_use_of};
    ghost use Rattle.logged_pair.specs.Pairs.{InLog, top_of};

    ghost Value = { InLog };

    ghost view = { λ pair. record { in_use = in_use_of pair.found; end = pair.end } };

    ghost invariant = { λ pair. IsSuperBlockIn true pair.found.block × (pair.found.slot ≤ 1)
        × (pair.end < top_of (in_use_of pair.found)) };
}

impl LoggedPair {
    /// The pair of a file whose slots have logs, of which `choose_by_mark` found the slot in use: where its log
    /// ends is found by gates and heads, without a change. The fault is that of the slot's header, or that the
    /// disk failed.
    pub fn find<D: Disk>(disk: &mut D, found: &Found) -> Result<LoggedPair, SlotFault>
        requires ready { IsTrue (D.state disk.old).is_ready }
        requires ranges { IsSuperBlockIn true found.now.block }
        requires slot { found.now.slot ≤ 1 }
        requires found { IsTrue (D.state disk.old).tells
            → slot_in true (D.state disk.old).file ≡ Ok (in_use_of found.now) }
        ensures found { IsTrue (D.state disk.old).tells
            → IfOk result (λ pair. in_log (D.state disk.old).file ≡ Ok pair) }
        ensures refused { IsTrue (D.state disk.old).tells
            → IfErr result (Refuses (chosen_in true (D.state disk.old).file)) }
        ensures block { IfOk result (λ pair. pair.in_use.block ≡ found.now.block) }
        ensures cause { HasDiskCause SlotFault.Disk (D.state disk.old).faults (D.state disk.new).faults
            result }
        ensures frame { Unchanged (D.state disk.old) (D.state disk.new) }
    {
        let header = read_header_in(disk, found, true)?;
        let gate = first_gate(found.block.names, found.slot, header.count);
        let top = log_top(found.block.names, found.slot);
        if top <= gate {
            return Ok(LoggedPair::of(found, header.sequence, 0));
        }
        let log = find_log_end(disk, gate, top)?;
        let end = end_at(disk, log.end)?;
        Ok(LoggedPair::of(found, header.sequence + log.entries, end))
    }

    /// The pair of a file of which this was found, where its log leads to a sequence and the next entry would
    /// stand at `end`, in bytes of the file: 0 where none may be appended.
    pub fn of(found: &Found, sequence: u64, end: u64) -> LoggedPair
        requires ranges { IsSuperBlockIn true found.now.block }
        requires slot { found.now.slot ≤ 1 }
        requires end { end < top_of (in_use_of found.now) }
        ensures { result ≡ record { in_use = record (in_use_of found.now) { sequence = sequence }; end = end } }
    {
        LoggedPair {
            found: Found { sequence, ..*found },
            end,
        }
    }

    /// The superblock of the file.
    pub fn block(&self) -> SuperBlock
        ensures { result ≡ self.now.in_use.block }
    {
        self.found.block
    }

    /// The sequence behind the log of the slot in use.
    pub fn sequence(&self) -> u64
        ensures { result ≡ self.now.in_use.sequence }
    {
        self.found.sequence
    }

    /// Saves the next checkpoint, and answers its sequence, which is one greater than the pair's. Its header is
    /// the one given, but for the sequence and the count; its records are those of the delta. Where the entry
    /// that says what changed fits behind the log, it is appended, and the other slot is closed in front of it;
    /// else the other slot is closed, the whole table is written into it, and it is opened. `buf` has at least
    /// 57,856 bytes: those of one write and the longest item behind it. Before the first sync a crash leaves
    /// the old table beside an old data part, after it the old table or the new one beside what reads give.
    /// After a fault nothing but opening the file again leads on.
    pub fn save<D: Disk, T: Delta>(
        &mut self,
        disk: &mut D,
        header: &Header,
        delta: &T,
        buf: &mut [u8],
    ) -> Result<u64, DiskFault>
        requires ready { IsTrue (D.state disk.old).is_ready }
        requires room { 57856 ≤ length buf.old }
        requires save { CanSaveChanges self.old header.now (T.before delta.now) (T.records delta.now)
            (T.changes delta.now) }
        requires in_use { IsTrue (D.state disk.old).tells → in_log (D.state disk.old).file ≡ Ok self.old }
        ensures pair { IfOk result (IsNextInLog self.old self.new (head_for header.now (T.changes delta.now))
            (length (T.records delta.now))) }
        ensures same_pair { OnErr result (self.new ≡ self.old) }
        ensures calls { Calls (change_calls self.old (head_for header.now (T.changes delta.now))
            (length (T.records delta.now))) (D.state disk.old) (D.state disk.new) result }
        ensures asks { Asks (call_weight * change_calls self.old (head_for header.now (T.changes delta.now))
            (length (T.records delta.now)) + change_bytes self.old (head_for header.now (T.changes delta.now))
            (length (T.records delta.now))) 0 (D.state disk.old) (D.state disk.new) }
        ensures writes { fits self.old (head_for header.now (T.changes delta.now))
            (length (T.records delta.now)) ≡ true → WritesEntry self.old
            (entry_room (head_for header.now (T.changes delta.now))) (D.state disk.old) (D.state disk.new) }
        ensures done { IsTrue (D.state disk.old).tells → OnOk result (AreSaved self.old self.new header.now
            (T.before delta.now) (T.records delta.now) (D.state disk.old) (D.state disk.new)) }
        ensures left { IsTrue (D.state disk.old).tells → ChangesLeave self.old (next_in_log self.old
            (head_for header.now (T.changes delta.now)) (length (T.records delta.now))) header.now
            (T.before delta.now) (T.records delta.now) (D.state disk.old) (D.state disk.new) }
        ensures frame { KeepsDisk (D.state disk.old) (D.state disk.new) }
    {
        let head = entry_head(header, delta);
        let next = self.after(&head, delta.count());
        self.write(disk, header, delta, &head, buf)?;
        *self = next;
        Ok(self.found.sequence)
    }

    /// Writes the next checkpoint, of which the entry has this head.
    fn write<D: Disk, T: Delta>(
        &self,
        disk: &mut D,
        header: &Header,
        delta: &T,
        head: &EntryHead,
        buf: &mut [u8],
    ) -> Result<(), DiskFault>
        requires ready { IsTrue (D.state disk.old).is_ready }
        requires room { 57856 ≤ length buf.old }
        requires save { CanSaveChanges self.now header.now (T.before delta.now) (T.records delta.now)
            (T.changes delta.now) }
        requires head { head.now ≡ head_for header.now (T.changes delta.now) }
        requires small { IsSmall head.now }
        requires in_use { IsTrue (D.state disk.old).tells → in_log (D.state disk.old).file ≡ Ok self.now }
        ensures calls { Calls (change_calls self.now head.now (length (T.records delta.now)))
            (D.state disk.old) (D.state disk.new) result }
        ensures asks { Asks (call_weight * change_calls self.now head.now (length (T.records delta.now))
            + change_bytes self.now head.now (length (T.records delta.now))) 0 (D.state disk.old)
            (D.state disk.new) }
        ensures writes { fits self.now head.now (length (T.records delta.now)) ≡ true
            → WritesEntry self.now (entry_room head.now) (D.state disk.old) (D.state disk.new) }
        ensures done { IsTrue (D.state disk.old).tells → OnOk result (AreSaved self.now
            (next_in_log self.now head.now (length (T.records delta.now))) header.now (T.before delta.now)
            (T.records delta.now) (D.state disk.old) (D.state disk.new)) }
        ensures left { IsTrue (D.state disk.old).tells → ChangesLeave self.now
            (next_in_log self.now head.now (length (T.records delta.now))) header.now (T.before delta.now)
            (T.records delta.now) (D.state disk.old) (D.state disk.new) }
        ensures frame { KeepsDisk (D.state disk.old) (D.state disk.new) }
    {
        if self.fits(head, delta.count()) {
            return append_changes(disk, self, header, delta, head, buf);
        }
        write_whole(disk, self, header, delta, buf)
    }

    /// Whether an entry with this head may be appended, by a save of so many records.
    fn fits(&self, head: &EntryHead, count: u64) -> bool
        requires head { IsSmall head.now }
        requires count { count ≤ cap self.now.in_use.block.names 3 }
        ensures { result ≡ fits self.now head.now count }
    {
        self.end != 0
            && head.len() <= HEADER_LEN as u64 + LONG_LEN * count
            && self.end + head.room() < log_top(self.found.block.names, self.found.slot)
    }

    /// The pair after a save of so many records, of which the entry has this head.
    fn after(&self, head: &EntryHead, count: u64) -> LoggedPair
        requires head { IsSmall head.now }
        requires count { count ≤ cap self.now.in_use.block.names 3 }
        requires fresh { self.now.in_use.sequence < 2 ^ 62 }
        ensures { result ≡ next_in_log self.now head.now count }
    {
        let sequence = self.found.sequence + 1;
        if self.fits(head, count) {
            return LoggedPair {
                found: Found {
                    sequence,
                    other_open: false,
                    ..self.found
                },
                end: self.end + head.room(),
            };
        }
        let names = self.found.block.names;
        let slot = 1 - self.found.slot;
        let gate = first_gate(names, slot, count);
        LoggedPair {
            found: Found {
                slot,
                sequence,
                other_open: true,
                ..self.found
            },
            end: if gate < log_top(names, slot) { gate } else { 0 },
        }
    }
}

/// Where the first gate of a slot's log stands, behind so many records.
fn first_gate(names: u64, slot: u8, count: u64) -> u64
    requires low { 16 ≤ names }
    requires high { names ≤ 65536 }
    requires slot { slot ≤ 1 }
    requires count { count ≤ 65536 }
    ensures { result ≡ first_gate names slot count }
{
    up(slot_at(names, slot) + HEADER_LEN as u64 + LONG_LEN * count)
}

/// Where the next entry would stand, of a log that ends at a position: 0 where the gate there is open.
fn end_at<D: Disk>(disk: &mut D, at: u64) -> Result<u64, SlotFault>
    requires ready { IsTrue (D.state disk.old).is_ready }
    requires within { IsTrue (D.state disk.old).tells → at < length (D.state disk.old).file }
    ensures end { IsTrue (D.state disk.old).tells
        → IfOk result (λ end. end ≡ (if is_open (D.state disk.old).file at then 0 else at)) }
    ensures low { IfOk result (λ end. end ≤ at) }
    ensures only { OnErr result (result ≡ Err SlotFault.Disk) }
    ensures cause { HasDiskCause SlotFault.Disk (D.state disk.old).faults (D.state disk.new).faults result }
    ensures frame { Unchanged (D.state disk.old) (D.state disk.new) }
{
    let mut gate = [0u8; 1];
    read(disk, at, &mut gate).map_err(|_| SlotFault::Disk)?;
    Ok(if gate[0] == GATE_OPEN { 0 } else { at })
}
