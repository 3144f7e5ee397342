//! The slots of an open file, whether they have logs or have none, and one save for both.
ghost use Rattle.std.specs.Prelude.{◌≡◌, ◌≤◌, Ok, IfOk, IsTrue, OnErr, OnOk, length};
ghost use Rattle.disk_face.specs.{Frames.{Asks, Calls}, Writes.{KeepsDisk}};
ghost use Rattle.slot_pair.specs.Appends.{head_for};
ghost use Rattle.logged_pair.specs.Slots.{AreNextSlots, CanSaveTable, IsTableSaved, TableSaveLeaves, has_logs, next_slots, slots_in, table_calls, table_weight, used_in};

use crate::LoggedPair;
use disk_face::{Disk, DiskFault};
use slot_codec::{Delta, Header, SuperBlock};
use slot_pair::SlotPair;

/// The two slots of an open file.
#[derive(Drop)]
pub enum Slots {
    /// Of a file whose slots have no logs.
    Plain(SlotPair),
    /// Of a file whose slots have logs.
    Logged(LoggedPair),
}

impl Slots {
    /// The superblock of the file.
    pub fn block(&self) -> SuperBlock
        ensures { result ≡ (used_in self.now).block }
    {
        match self {
            Slots::Plain(pair) => pair.block(),
            Slots::Logged(pair) => pair.block(),
        }
    }

    /// The sequence of the last checkpoint.
    pub fn sequence(&self) -> u64
        ensures { result ≡ (used_in self.now).sequence }
    {
        match self {
            Slots::Plain(pair) => pair.sequence(),
            Slots::Logged(pair) => pair.sequence(),
        }
    }

    /// Saves the next checkpoint, and answers its sequence, which is one greater than before. Its header is
    /// the one given, but for the sequence and the count; its records are those of the delta. The whole table
    /// is written into the slot that isn't in use, as `SlotPair::save` says; where the slots have logs, an
    /// entry that says what changed is appended where it fits, as `LoggedPair::save` says. `buf` has at least
    /// 57,856 bytes. Before the first sync a crash leaves the old table beside an old data part, after it the
    /// old table or the new one beside what reads give. After a fault nothing but opening the file again leads
    /// on.
    pub fn save<D: Disk, T: Delta>(
        &mut self,
        disk: &mut D,
        header: &Header,
        delta: &T,
        buf: &mut [u8],
    ) -> Result<u64, DiskFault>
        requires ready { IsTrue (D.state disk.old).is_ready }
        requires room { 57856 ≤ length buf.old }
        requires save { CanSaveTable self.old header.now (T.before delta.now) (T.records delta.now)
            (T.changes delta.now) }
        requires slots { IsTrue (D.state disk.old).tells
            → slots_in (has_logs self.old) (D.state disk.old).file ≡ Ok self.old }
        ensures slots { IfOk result (AreNextSlots self.old self.new (head_for header.now
            (T.changes delta.now)) (length (T.records delta.now))) }
        ensures same_slots { OnErr result (self.new ≡ self.old) }
        ensures calls { Calls (table_calls self.old (head_for header.now (T.changes delta.now))
            (length (T.records delta.now))) (D.state disk.old) (D.state disk.new) result }
        ensures asks { Asks (table_weight self.old header.now.version (head_for header.now
            (T.changes delta.now)) (length (T.records delta.now))) 0 (D.state disk.old) (D.state disk.new) }
        ensures done { IsTrue (D.state disk.old).tells → OnOk result (IsTableSaved self.old self.new
            header.now (T.before delta.now) (T.records delta.now) (D.state disk.old) (D.state disk.new)) }
        ensures left { IsTrue (D.state disk.old).tells → TableSaveLeaves self.old (next_slots self.old
            (head_for header.now (T.changes delta.now)) (length (T.records delta.now))) header.now
            (T.before delta.now) (T.records delta.now) (D.state disk.old) (D.state disk.new) }
        ensures frame { KeepsDisk (D.state disk.old) (D.state disk.new) }
    {
        match self {
            Slots::Plain(pair) => pair.save(disk, header, delta, buf),
            Slots::Logged(pair) => pair.save(disk, header, delta, buf),
        }
    }
}
