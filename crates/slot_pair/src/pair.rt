//! The pair of slots of an open file.
ghost use Rattle.std.specs.Prelude.{◌≡◌, ◌≤◌, Ok, IfOk, IfErr, IsTrue, OnErr, OnOk, length};
ghost use Rattle.disk_face.specs.{Frames.{Asks, Calls, Unchanged}, Writes.{KeepsDisk}};
ghost use Rattle.slot_codec.specs.{Choice.{chosen, slot_in_use}, Readable.{IsSuperBlock}, Spelling.{head_len, slot_at}};
ghost use Rattle.slot_pair.specs.{Finding.{HasDiskCause, Refuses, chosen_header, in_use_of}, Saves.{CanSave, IsNextPair, IsSaveDone, SaveLeaves, save_calls, save_weight}};

use crate::body::write_table;
use crate::find::{choose, read_chosen_header};
use crate::save::{close_other, header_is_whole, open_gate};
use crate::{Found, SlotFault, slot_at};
use disk_face::{Disk, DiskFault};
use slot_codec::{Header, Roll, SuperBlock};
use std::marker::Model;

/// The two slots of a file and which one is in use. Contracts see it as the slot in use: the
/// superblock, the slot, its sequence, and whether the gate of the other slot is open.
#[derive(Drop)]
pub struct SlotPair {
    found: Found,
}

impl Model for SlotPair {
    ghost use Rattle.std.specs.Prelude.{◌≤◌};
    ghost use Rattle.slot_codec.specs.{Choice.{InUse}, Readable.{IsSuperBlock}};
    ghost use Rattle.slot_pair.specs.Finding.{in_use_of};

    ghost Value = { InUse };

    ghost view = { λ pair. in_use_of pair.found };

    ghost invariant = { λ pair. IsSuperBlock pair.found.block × (pair.found.slot ≤ 1) };
}

impl SlotPair {
    /// Finds the slot in use of a file whose header is that of a table. Nothing is changed. The fault
    /// is the first that the length, the superblock, the gates, the sequences and the header of that
    /// slot show, or that the disk failed.
    pub fn find<D: Disk>(disk: &mut D) -> Result<Found, SlotFault>
        requires ready { IsTrue (D.state disk.old).is_ready }
        ensures found { IsTrue (D.state disk.old).tells
            → IfOk result (λ found. slot_in_use (D.state disk.old).file ≡ Ok (in_use_of found)) }
        ensures header { IsTrue (D.state disk.old).tells
            → IfOk result (λ found. chosen_header (D.state disk.old).file found) }
        ensures refused { IsTrue (D.state disk.old).tells
            → IfErr result (Refuses (chosen (D.state disk.old).file)) }
        ensures long { IsTrue (D.state disk.old).tells
            → IfOk result (λ found. head_len found.block.names ≤ length (D.state disk.old).file) }
        ensures ranges { IfOk result (λ found. IsSuperBlock found.block) }
        ensures slot { IfOk result (λ found. found.slot ≤ 1) }
        ensures cause { HasDiskCause SlotFault.Disk (D.state disk.old).faults (D.state disk.new).faults
            result }
        ensures frame { Unchanged (D.state disk.old) (D.state disk.new) }
    {
        let found = choose(disk)?;
        let _ = read_chosen_header(disk, &found)?;
        Ok(found)
    }

    /// The pair of a file of which this was found.
    pub fn of(found: &Found) -> SlotPair
        requires ranges { IsSuperBlock found.now.block }
        requires slot { found.now.slot ≤ 1 }
        ensures { result ≡ in_use_of found.now }
    {
        SlotPair { found: *found }
    }

    /// The superblock of the file.
    pub fn block(&self) -> SuperBlock
        ensures { result ≡ self.now.block }
    {
        self.found.block
    }

    /// The sequence of the slot in use.
    pub fn sequence(&self) -> u64
        ensures { result ≡ self.now.sequence }
    {
        self.found.sequence
    }

    /// Where the slot in use begins, in bytes from the start of the file.
    pub fn place(&self) -> u64
        ensures { result ≡ slot_at self.now.block.names self.now.slot }
    {
        slot_at(self.found.block.names, self.found.slot)
    }

    /// Saves the next checkpoint into the slot that isn't in use, and answers its sequence, which is
    /// one greater than the pair's. Its header is the one given, but for the sequence and the count;
    /// its records are those of the roll, in order, with their digests in version 2. `buf` has at least
    /// 57,344 bytes, those of 512 records of version 2. The changing
    /// calls come in a fixed order: the other gate is closed where it is open, else zeros are written
    /// over the sequence behind it; sync; the header; the records, up to 512 in one write; sync; the
    /// gate is opened; sync. Before the first sync a crash leaves the old table beside an old data
    /// part, after it the old table or the new one beside what reads give. After a fault nothing but
    /// opening the file again leads on.
    pub fn save<D: Disk, R: Roll>(
        &mut self,
        disk: &mut D,
        header: &Header,
        roll: &R,
        buf: &mut [u8],
    ) -> Result<u64, DiskFault>
        requires ready { IsTrue (D.state disk.old).is_ready }
        requires room { 57344 ≤ length buf.old }
        requires save { CanSave self.old header.now (R.records roll.now) }
        requires in_use { IsTrue (D.state disk.old).tells
            → slot_in_use (D.state disk.old).file ≡ Ok self.old }
        ensures pair { IfOk result (IsNextPair self.old self.new) }
        ensures same_pair { OnErr result (self.new ≡ self.old) }
        ensures calls { Calls (save_calls (length (R.records roll.now))) (D.state disk.old) (D.state disk.new)
            result }
        ensures asks { Asks (save_weight header.now.version (length (R.records roll.now))) 0
            (D.state disk.old) (D.state disk.new) }
        ensures done { IsTrue (D.state disk.old).tells
            → OnOk result (IsSaveDone self.old header.now (R.records roll.now) (D.state disk.new)) }
        ensures left { IsTrue (D.state disk.old).tells
            → SaveLeaves self.old header.now (R.records roll.now) (D.state disk.old) (D.state disk.new) }
        ensures frame { KeepsDisk (D.state disk.old) (D.state disk.new) }
    {
        header_is_whole(header);
        let names = self.found.block.names;
        let other = 1 - self.found.slot;
        let sequence = self.found.sequence + 1;
        let next = Header {
            sequence,
            count: roll.count(),
            ..*header
        };
        close_other(disk, &self.found)?;
        write_table(disk, slot_at(names, other), &next, roll, buf)?;
        open_gate(disk, names, other)?;
        self.found = Found {
            slot: other,
            sequence,
            other_open: true,
            ..self.found
        };
        Ok(sequence)
    }
}
