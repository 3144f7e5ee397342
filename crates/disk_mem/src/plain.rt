//! A disk in memory that keeps no record.
ghost use Rattle.std.specs.Prelude.{◌≡◌, ◌<◌, ◌≤◌, ◌+◌, ◌↔◌, [], length, OnOk, OnErr, IfOk, IsOk, IsErr};
ghost use Rattle.byte_ranges.specs.Ranges.{bytes_at, overwritten, resized};
ghost use Rattle.disk_face.specs.Counts.{HasCause};
ghost use Rattle.disk_mem.specs.{Plain.{plain_after, plain_failed, plain_state}, Lawful.{plain_lawful}};

use crate::replay::{cut_or_grow, put};
use disk_face::{Disk, DiskFault};
use slot_codec::NoMemory;
use std::alloc::Global;
use std::marker::Model;

/// A file in memory, of a length up to a room that it took when it was made. It tells no images.
#[derive(Drop)]
pub struct PlainDisk {
    bytes: Vec<u8>,
    room: u64,
    turn: u64,
    faults: u64,
}

impl Model for PlainDisk {
    ghost use Rattle.std.specs.Prelude.{◌≤◌, vec_capacity};
    ghost use Rattle.disk_mem.specs.Plain.{Plain};

    ghost Value = { Plain };

    ghost view = { λ d. record { content = d.bytes.items; room = d.room; turn = d.turn; faults = d.faults } };

    ghost invariant = { λ d. d.room ≤ vec_capacity d.bytes };
}

impl PlainDisk {
    /// An empty disk that takes memory for `room` bytes.
    pub fn with_room(alloc: Global, room: u64) -> Result<PlainDisk, NoMemory>
        ensures { IfOk result (λ disk. disk ≡ record { content = []; room = room; turn = 0; faults = 0 }) }
    {
        let Ok(bytes) = Vec::with_capacity(alloc, room as usize) else {
            return Err(NoMemory);
        };
        Ok(PlainDisk {
            bytes,
            room,
            turn: 0,
            faults: 0,
        })
    }
}

impl Disk for PlainDisk {
    ghost state = { plain_state };

    ghost lawful = { plain_lawful };

    fn len(&mut self) -> Result<u64, DiskFault>
        ensures ok { IsOk result }
        ensures length { IfOk result (λ n. n ≡ length self.old.content) }
        ensures same { self.new ≡ self.old }
    {
        Ok(self.bytes.len() as u64)
    }

    fn read_at(&mut self, pos: u64, out: &mut [u8]) -> Result<(), DiskFault>
        requires { pos + length out.old ≤ length self.old.content }
        ensures ok { IsOk result }
        ensures bytes { out.new ≡ bytes_at self.old.content pos (length out.old) }
        ensures same { self.new ≡ self.old }
    {
        let start = pos as usize;
        out.copy_from_slice(&self.bytes[start..start + out.len()]);
        Ok(())
    }

    fn write_at(&mut self, pos: u64, bytes: &[u8]) -> Result<(), DiskFault>
        requires { pos + length bytes.now ≤ length self.old.content }
        ensures ok { IsOk result }
        ensures written { self.new ≡ plain_after (overwritten self.old.content pos bytes.now) self.old }
    {
        self.turn = self.turn.saturating_add(1);
        put(&mut self.bytes, pos, bytes);
        Ok(())
    }

    fn set_len(&mut self, n: u64) -> Result<(), DiskFault>
        ensures fails { IsErr result ↔ (self.old.room < n) }
        ensures ok { OnOk result (self.new ≡ plain_after (resized self.old.content n) self.old) }
        ensures err { OnErr result (self.new ≡ plain_failed self.old) }
        ensures cause { HasCause self.old.faults self.new.faults result }
    {
        self.turn = self.turn.saturating_add(1);
        if n > self.room {
            self.faults = self.faults.saturating_add(1);
            return Err(DiskFault);
        }
        cut_or_grow(&mut self.bytes, n);
        Ok(())
    }

    fn sync(&mut self) -> Result<(), DiskFault>
        ensures ok { IsOk result }
        ensures same { self.new ≡ plain_after self.old.content self.old }
    {
        self.turn = self.turn.saturating_add(1);
        Ok(())
    }

    fn turns(&self) -> u64 {
        self.turn
    }
}
