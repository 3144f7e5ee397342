//! A file in memory as a disk.
ghost use Rattle.std.specs.Prelude.{◌≡◌, ◌⊎◌, ◌≤◌, ◌<◌, ◌+◌, ◌↔◌, length, take, OnOk, OnErr, IfOk, IsOk, IsErr, IsTrue};
ghost use Rattle.byte_ranges.specs.Ranges.{bytes_at, overwritten, resized};
ghost use Rattle.disk_face.specs.{Counts.{HasCause}, Frames.{AfterLength, AfterRead, AfterSync, AfterWrite}, Moments.{Only}};
ghost use Rattle.disk_history.specs.{Changes.RecordedCall.{Wrote, Sized, Synced}, Histories.{EndedBy, MayLeave}};
ghost use Rattle.lent_disk.specs.{Calls.{entry_head}, Notings.{IsLog, LacksSpace, content, emptied, lent, made, refused}};

use crate::course::Course;
use crate::log::Log;
use crate::room::Room;
use crate::trail::Trail;
use disk_face::{Disk, DiskFault};
use std::marker::Model;
use std::snapshot::Snapshot;

/// A file at the front of a room, and the calls on it, of which the log has those since it was emptied last.
/// What was asked for since then, made or refused, clauses alone read.
#[derive(Drop)]
pub struct LentDisk {
    course: Course,
    start: Snapshot<Course>,
    asked: Trail,
    room: Room,
    log: Log,
}

impl Model for LentDisk {
    ghost use Rattle.lent_disk.specs.Notings.{Noting, IsNoting, changes};

    ghost Value = { Noting };

    ghost view = { λ d. record {
      history = d.course;
      start = d.start.value;
      text = d.log.text;
      asked = changes d.asked.history.calls;
      room = d.room.most;
      log_room = d.log.most;
    } };

    ghost invariant = { λ d. IsNoting (record {
      history = d.course;
      start = d.start.value;
      text = d.log.text;
      asked = changes d.asked.history.calls;
      room = d.room.most;
      log_room = d.log.most;
    }) d.room.file };
}

impl LentDisk {
    /// A file that is at rest on its device; nothing is noted yet.
    pub fn new(room: Room, log: Log) -> LentDisk
        ensures { result ≡ lent room.entry.file room.entry.most log.entry.most }
    {
        let course = Course::at_rest(&room);
        let mut log = log;
        log.clear();
        LentDisk {
            start: Snapshot::of(&course),
            course,
            asked: Trail::new(),
            room,
            log,
        }
    }

    /// Empties the log. All its calls were made on the device, in order.
    pub fn empty_log(&mut self)
        ensures { self.new ≡ emptied self.old }
    {
        self.start = Snapshot::of(&self.course);
        self.asked = Trail::new();
        self.log.clear();
    }

    /// What is known of each of them: the log spells the calls since it was emptied last, and one of those
    /// that were asked for failed only for want of room.
    pub fn is_noted(&self)
        ensures log { IsLog self.now.start self.now.history self.now.text }
        ensures ended { EndedBy self.now.history.turn self.now.history.calls }
        ensures cause { self.now.start.faults < self.now.history.faults → LacksSpace self.now }
    {
        let _ = self.log.text();
    }

    /// The number of bytes in the file.
    pub fn end(&self) -> usize
        ensures { result ≡ length (content self.now) }
    {
        self.room.end()
    }

    /// What the log spells.
    pub fn text(&self) -> &[u8]
        ensures { result.now ≡ self.now.text }
    {
        self.log.text()
    }

    /// How many bytes the file may have.
    pub fn most(&self) -> usize
        ensures { result ≡ self.now.room }
    {
        self.room.most()
    }

    /// The file.
    pub fn room(&self) -> &Room
        ensures { result.now.file ≡ content self.now }
    {
        &self.room
    }
}

impl Disk for LentDisk {
    ghost use Rattle.lent_disk.specs.Disks.{lent_state, image_lawful};

    ghost state = { lent_state };

    ghost lawful = { image_lawful };

    fn len(&mut self) -> Result<u64, DiskFault>
        ensures ok { IsOk result }
        ensures length { IfOk result (λ n. n ≡ length (content self.old)) }
        ensures same { self.new ≡ self.old }
        ensures frame { AfterRead (lent_state self.old) (lent_state self.new) }
        ensures cause { HasCause self.old.history.faults self.new.history.faults result }
    {
        Ok(self.room.end() as u64)
    }

    fn read_at(&mut self, pos: u64, out: &mut [u8]) -> Result<(), DiskFault>
        requires within { IsTrue (lent_state self.old).tells
            → pos + length out.old ≤ length (lent_state self.old).file }
        ensures ok { IsOk result }
        ensures bytes { OnOk result (out.new ≡ bytes_at (content self.old) pos (length out.old)) }
        ensures same { self.new ≡ self.old }
        ensures frame { AfterRead (lent_state self.old) (lent_state self.new) }
        ensures cause { HasCause self.old.history.faults self.new.history.faults result }
    {
        self.room.get(pos as usize, out);
        Ok(())
    }

    fn write_at(&mut self, pos: u64, bytes: &[u8]) -> Result<(), DiskFault>
        requires within { IsTrue (lent_state self.old).tells
            → pos + length bytes.now ≤ length (lent_state self.old).file }
        ensures fails { IsErr result
            ↔ (self.old.log_room < length self.old.text + entry_head + length bytes.now) }
        ensures ok { OnOk result (self.new ≡ made (Wrote pos bytes.now) self.old) }
        ensures err { OnErr result (self.new ≡ refused (Wrote pos bytes.now) self.old) }
        ensures written { OnOk result (content self.new ≡ overwritten (content self.old) pos bytes.now) }
        ensures frame { AfterWrite pos (length bytes.now) (lent_state self.old) (lent_state self.new) }
        ensures cause { HasCause self.old.history.faults self.new.history.faults result }
    {
        self.asked.write(pos, bytes);
        if !self.log.fits(bytes.len()) {
            self.course.fail();
            return Err(DiskFault);
        }
        self.course.write(pos, bytes);
        self.log.add(1, pos, bytes);
        self.room.put(pos as usize, bytes);
        Ok(())
    }

    fn set_len(&mut self, n: u64) -> Result<(), DiskFault>
        ensures fails { IsErr result ↔ ((self.old.room < n)
            ⊎ (self.old.log_room < length self.old.text + entry_head)) }
        ensures ok { OnOk result (self.new ≡ made (Sized n) self.old) }
        ensures err { OnErr result (self.new ≡ refused (Sized n) self.old) }
        ensures resized { OnOk result (content self.new ≡ resized (content self.old) n) }
        ensures either { OnErr result ((content self.new ≡ content self.old)
            ⊎ (content self.new ≡ resized (content self.old) n)) }
        ensures frame { AfterLength n (lent_state self.old) (lent_state self.new) }
        ensures cause { HasCause self.old.history.faults self.new.history.faults result }
    {
        self.asked.set_len(n);
        if n > self.room.most() as u64 || !self.log.fits(0) {
            self.course.fail();
            return Err(DiskFault);
        }
        self.course.set_len(n);
        self.log.add(2, n, &[]);
        self.room.resize(n as usize);
        Ok(())
    }

    fn sync(&mut self) -> Result<(), DiskFault>
        ensures fails { IsErr result ↔ (self.old.log_room < length self.old.text + entry_head) }
        ensures ok { OnOk result (self.new ≡ made Synced self.old) }
        ensures err { OnErr result (self.new ≡ refused Synced self.old) }
        ensures rests { OnOk result (Only (content self.old) (MayLeave self.new.history)) }
        ensures frame { AfterSync (lent_state self.old) (lent_state self.new) }
        ensures cause { HasCause self.old.history.faults self.new.history.faults result }
    {
        self.asked.sync();
        if !self.log.fits(0) {
            self.course.fail();
            return Err(DiskFault);
        }
        self.course.sync();
        self.log.add(3, 0, &[]);
        Ok(())
    }

    fn turns(&self) -> u64 {
        self.course.turns()
    }
}
