//! A file in memory that is read alone.
ghost use Rattle.std.specs.Prelude.{◌≡◌, IsErr};
ghost use Rattle.disk_face.specs.Counts.{HasCause, counted};

use crate::room::Room;
use disk_face::{Disk, DiskFault};

/// A file as a disk that only reads: each changing call fails, and changes nothing.
#[derive(Drop)]
pub struct FileView<'a> {
    room: &'a Room,
    refused: u64,
}

impl<'a> FileView<'a> {
    /// Of this file; nothing was refused yet.
    pub fn of(room: &'a Room) -> FileView<'a>
        ensures file { result.room.now.file ≡ room.now.file }
        ensures none { result.refused ≡ 0 }
    {
        FileView { room, refused: 0 }
    }

    /// A changing call is refused.
    fn refuse(&mut self) -> Result<(), DiskFault>
        ensures err { IsErr result }
        ensures file { self.new.room.now.file ≡ self.old.room.now.file }
        ensures one { self.new.refused ≡ counted self.old.refused 1 }
        ensures cause { HasCause self.old.refused self.new.refused result }
    {
        self.refused = self.refused.saturating_add(1);
        Err(DiskFault)
    }
}

impl Disk for FileView<'_> {
    ghost use Rattle.lent_disk.specs.Views.{view_lawful, view_state};

    ghost state = { λ v. view_state v.room.now.file v.refused };

    ghost lawful = { λ v. view_lawful v.room.now.file v.refused };

    fn len(&mut self) -> Result<u64, DiskFault> {
        Ok(self.room.end() as u64)
    }

    fn read_at(&mut self, pos: u64, out: &mut [u8]) -> Result<(), DiskFault> {
        let start = pos as usize;
        self.room.get(start, out);
        Ok(())
    }

    fn write_at(&mut self, _pos: u64, _bytes: &[u8]) -> Result<(), DiskFault> {
        self.refuse()
    }

    fn set_len(&mut self, _n: u64) -> Result<(), DiskFault> {
        self.refuse()
    }

    fn sync(&mut self) -> Result<(), DiskFault> {
        self.refuse()
    }

    fn turns(&self) -> u64 {
        self.refused
    }
}
