//! A disk in memory that records each changing call, and so knows all that a crash may leave.
ghost use Rattle.std.specs.Prelude.{◌≡◌, ◌≤◌, ◌+◌, [], length, OnOk, OnErr, IfOk, IsOk};
ghost use Rattle.byte_ranges.specs.Ranges.{bytes_at, SameOutside};
ghost use Rattle.disk_face.specs.{Counts.{HasCause}, Moments.{ResizedImage, Follows, Only, NoMore, Elapses}};
ghost use Rattle.disk_history.specs.{Changes.RecordedCall.{Wrote, Sized, Synced}, Histories.{fresh, done, undone, file_of, MayLeave, LeftSince, history_state}};
ghost use Rattle.disk_mem.specs.Turns.{LeftAt, image_at};

use crate::image::{Choice, build};
use crate::record::{Call, Entry, keep, keep_length, keep_write};
use crate::replay::{cut_or_grow, put};
use disk_face::{Disk, DiskFault};
use slot_codec::NoMemory;
use std::alloc::Global;
use std::marker::Model;

/// A file in memory with the record of its calls.
#[derive(Drop)]
pub struct MemDisk {
    base: Vec<u8>,
    calls: Vec<Entry>,
    bytes: Vec<u8>,
    turn: u64,
    faults: u64,
}

impl Model for MemDisk {
    ghost use Rattle.std.specs.Prelude.{◌≡◌};
    ghost use Rattle.disk_history.specs.{Changes.{content_after}, Histories.{History, EndedBy}};
    ghost use Rattle.disk_mem.specs.Entries.{newest_first};

    ghost Value = { History };

    ghost view = { λ d. record {
      base = d.base.items;
      calls = newest_first d.calls.items;
      turn = d.turn;
      faults = d.faults;
    } };

    ghost invariant = { λ d. (d.bytes.items ≡ content_after d.base.items (newest_first d.calls.items))
        × EndedBy d.turn (newest_first d.calls.items) };
}

impl MemDisk {
    /// An empty disk.
    #[tactic(auto, using(crate::proofs::Records::newest_first_none))]
    pub fn new(alloc: Global) -> MemDisk
        ensures { result ≡ fresh [] }
    {
        MemDisk {
            base: Vec::new(alloc),
            calls: Vec::new(alloc),
            bytes: Vec::new(alloc),
            turn: 0,
            faults: 0,
        }
    }

    /// A disk that holds these bytes, synced.
    #[tactic(auto, using(crate::proofs::Records::newest_first_none))]
    pub fn from_bytes(alloc: Global, bytes: &[u8]) -> Result<MemDisk, NoMemory>
        ensures value { IfOk result (λ disk. disk ≡ fresh bytes.now) }
        ensures rests { IfOk result (λ disk. Only bytes.now (MayLeave disk)) }
    {
        let (Ok(base), Ok(copy)) = (Vec::from_slice(alloc, bytes), Vec::from_slice(alloc, bytes))
        else {
            return Err(NoMemory);
        };
        Ok(MemDisk {
            base,
            calls: Vec::new(alloc),
            bytes: copy,
            turn: 0,
            faults: 0,
        })
    }

    /// Builds an image of a turn, which a crash might have left at a moment of it. The turn is at
    /// most `turns()`.
    pub fn image(&self, turn: u64, choice: Choice) -> Result<Vec<u8>, NoMemory>
        requires { turn ≤ self.now.turn }
        ensures is_image { IfOk result (λ image. LeftAt self.now turn image.items) }
        ensures since { IfOk result (λ image. LeftSince self.now turn image.items) }
        ensures exact { IfOk result (λ image. image.items ≡ image_at self.now turn choice) }
    {
        match build(
            *self.base.allocator(),
            &self.base,
            &self.calls,
            turn,
            choice,
        ) {
            Ok(image) => Ok(image),
            Err(_) => Err(NoMemory),
        }
    }
}

impl Disk for MemDisk {
    ghost use Rattle.disk_history.specs.Lawful.{history_lawful};

    ghost state = { history_state };

    ghost lawful = { history_lawful };

    fn len(&mut self) -> Result<u64, DiskFault>
        ensures ok { IsOk result }
        ensures length { IfOk result (λ n. n ≡ length (file_of self.old)) }
        ensures same { self.new ≡ self.old }
    {
        Ok(self.bytes.len() as u64)
    }

    fn read_at(&mut self, pos: u64, out: &mut [u8]) -> Result<(), DiskFault>
        requires { pos + length out.old ≤ length (file_of self.old) }
        ensures ok { IsOk result }
        ensures bytes { out.new ≡ bytes_at (file_of self.old) pos (length out.old) }
        ensures same { self.new ≡ self.old }
    {
        let start = pos as usize;
        out.copy_from_slice(&self.bytes[start..start + out.len()]);
        Ok(())
    }

    fn write_at(&mut self, pos: u64, bytes: &[u8]) -> Result<(), DiskFault>
        requires { pos + length bytes.now ≤ length (file_of self.old) }
        ensures ok { OnOk result (self.new ≡ done (Wrote pos bytes.now) self.old) }
        ensures err { OnErr result (self.new ≡ undone self.old) }
        ensures images { Follows (SameOutside pos (length bytes.now)) (MayLeave self.old)
            (MayLeave self.new) }
        ensures time { Elapses (history_state self.old) (history_state self.new) (MayLeave self.new) }
        ensures cause { HasCause self.old.faults self.new.faults result }
    {
        let began = self.turn;
        self.turn = self.turn.saturating_add(1);
        if keep_write(&mut self.calls, began, pos, bytes).is_err() {
            self.faults = self.faults.saturating_add(1);
            return Err(DiskFault);
        }
        put(&mut self.bytes, pos, bytes);
        Ok(())
    }

    fn set_len(&mut self, n: u64) -> Result<(), DiskFault>
        ensures ok { OnOk result (self.new ≡ done (Sized n) self.old) }
        ensures err { OnErr result (self.new ≡ undone self.old) }
        ensures images { Follows (ResizedImage n) (MayLeave self.old) (MayLeave self.new) }
        ensures time { Elapses (history_state self.old) (history_state self.new) (MayLeave self.new) }
        ensures cause { HasCause self.old.faults self.new.faults result }
    {
        let began = self.turn;
        self.turn = self.turn.saturating_add(1);
        if keep_length(&mut self.calls, began, &mut self.bytes, n).is_err() {
            self.faults = self.faults.saturating_add(1);
            return Err(DiskFault);
        }
        cut_or_grow(&mut self.bytes, n);
        Ok(())
    }

    fn sync(&mut self) -> Result<(), DiskFault>
        ensures ok { OnOk result (self.new ≡ done Synced self.old) }
        ensures err { OnErr result (self.new ≡ undone self.old) }
        ensures rests { OnOk result (Only (file_of self.old) (MayLeave self.new)) }
        ensures images { NoMore (MayLeave self.old) (MayLeave self.new) }
        ensures time { Elapses (history_state self.old) (history_state self.new) (MayLeave self.old) }
        ensures cause { HasCause self.old.faults self.new.faults result }
    {
        let began = self.turn;
        self.turn = self.turn.saturating_add(1);
        if keep(&mut self.calls, began, Call::Sync).is_err() {
            self.faults = self.faults.saturating_add(1);
            return Err(DiskFault);
        }
        Ok(())
    }

    fn turns(&self) -> u64 {
        self.turn
    }
}
