//! A bay of one file, round a disk.
ghost use Rattle.std.specs.Prelude.{◌≡◌, ◌≤◌, ◌+◌, ◌&&◌, [], refl, length, string_bytes, Some, None, Ok, OnOk, OnErr, IfOk, IsErr, IsTrue, IsFalse};
ghost use Rattle.disk_face.specs.{Counts.{counted, HasCause}, Mounts.{is_mounted}};
ghost use Rattle.disk_mem.specs.LastMounts.{mount_of, own_answer};

use disk_face::{Bay, Disk, DiskFault, Mounted};
use std::alloc::Global;

/// The last mount that was answered, if any. One of another name found no file.
#[derive(Drop)]
enum Last {
    Never,
    Own(bool, Mounted),
    Other(String),
}

/// A bay whose one file is a disk.
#[derive(Drop)]
pub struct MemBay<D: Disk> {
    alloc: Global,
    name: String,
    there: bool,
    last: Last,
    disk: D,
    faults: u64,
    ghost ready: { IsTrue (D.state disk).is_ready },
    ghost found: { IsTrue (is_mounted (mount_of (string_bytes name) last)) → IsTrue there },
    ghost empty: { IsFalse there → IsTrue (D.state disk).tells → (D.state disk).file ≡ [] },
}

impl<D: Disk> MemBay<D> {
    ghost use Rattle.disk_mem.specs.Bays.{disk_of, name_of, has_its_file, own_faults, last_mount_of};

    /// A bay of the one file `name`, which is there or not. Nothing is mounted.
    pub fn new(alloc: Global, name: String, there: bool, disk: D) -> MemBay<D>
        requires ready { IsTrue (D.state disk).is_ready }
        requires empty { IsFalse there → IsTrue (D.state disk).tells → length (D.state disk).file ≡ 0 }
        ensures disk { disk_of result ≡ disk }
        ensures name { name_of result ≡ string_bytes name }
        ensures there { has_its_file result ≡ there }
        ensures faults { own_faults result ≡ 0 }
        ensures none { last_mount_of result ≡ None }
    {
        MemBay {
            alloc,
            name,
            there,
            last: Last::Never,
            disk,
            faults: 0,
        }
    }

    /// The disk inside.
    pub fn disk(&self) -> &D
        ensures { result.now ≡ disk_of self.now }
    {
        &self.disk
    }

    /// Gives the disk up.
    pub fn into_disk(self) -> D
        ensures ready { IsTrue (D.state result).is_ready }
        ensures disk { result ≡ disk_of self }
    {
        let MemBay {
            alloc: _,
            name: _,
            there: _,
            last: _,
            disk,
            faults: _,
        } = self;
        disk
    }
}

impl<D: Disk> Disk for MemBay<D> {
    ghost use Rattle.std.specs.Prelude.{◌⊎◌};
    ghost use Rattle.byte_ranges.specs.Ranges.{bytes_at, overwritten, resized};
    ghost use Rattle.disk_face.specs.{Frames.{AfterLength, AfterRead, AfterSync, AfterWrite}, Moments.{Only}};
    ghost use Rattle.disk_mem.specs.Bays.{bay_state, SameBay};

    ghost state = { bay_state };

    ghost lawful = { λ bay. let l = D.lawful bay.disk in
        record {
          has_content = l.has_content;
          both_told = l.both_told;
          counts_now = l.counts_now;
          only_now = l.only_now;
          turn_fits = l.turn_fits;
        } };

    fn len(&mut self) -> Result<u64, DiskFault>
        requires { IsTrue (bay_state self.old).is_ready }
        ensures length { IsTrue (bay_state self.old).tells
            → IfOk result (λ n. n ≡ length (bay_state self.old).file) }
        ensures frame { AfterRead (bay_state self.old) (bay_state self.new) }
        ensures cause { HasCause (bay_state self.old).faults (bay_state self.new).faults result }
        ensures bay { SameBay self.old self.new }
    {
        self.disk.len()
    }

    fn read_at(&mut self, pos: u64, out: &mut [u8]) -> Result<(), DiskFault>
        requires ready { IsTrue (bay_state self.old).is_ready }
        requires within { IsTrue (bay_state self.old).tells
            → pos + length out.old ≤ length (bay_state self.old).file }
        ensures bytes { IsTrue (bay_state self.old).tells
            → OnOk result (out.new ≡ bytes_at (bay_state self.old).file pos (length out.old)) }
        ensures frame { AfterRead (bay_state self.old) (bay_state self.new) }
        ensures cause { HasCause (bay_state self.old).faults (bay_state self.new).faults result }
        ensures bay { SameBay self.old self.new }
    {
        self.disk.read_at(pos, out)
    }

    fn write_at(&mut self, pos: u64, bytes: &[u8]) -> Result<(), DiskFault>
        requires ready { IsTrue (bay_state self.old).is_ready }
        requires within { IsTrue (bay_state self.old).tells
            → pos + length bytes.now ≤ length (bay_state self.old).file }
        ensures written { IsTrue (bay_state self.old).tells
            → OnOk result ((bay_state self.new).file ≡ overwritten (bay_state self.old).file pos bytes.now) }
        ensures frame { AfterWrite pos (length bytes.now) (bay_state self.old) (bay_state self.new) }
        ensures cause { HasCause (bay_state self.old).faults (bay_state self.new).faults result }
        ensures bay { SameBay self.old self.new }
    {
        self.disk.write_at(pos, bytes)
    }

    fn set_len(&mut self, n: u64) -> Result<(), DiskFault>
        requires { IsTrue (bay_state self.old).is_ready }
        ensures resized { IsTrue (bay_state self.old).tells
            → OnOk result ((bay_state self.new).file ≡ resized (bay_state self.old).file n) }
        ensures either { IsTrue (bay_state self.old).tells
            → OnErr result (((bay_state self.new).file ≡ (bay_state self.old).file)
            ⊎ ((bay_state self.new).file ≡ resized (bay_state self.old).file n)) }
        ensures frame { AfterLength n (bay_state self.old) (bay_state self.new) }
        ensures cause { HasCause (bay_state self.old).faults (bay_state self.new).faults result }
        ensures bay { SameBay self.old self.new }
    {
        self.disk.set_len(n)
    }

    fn sync(&mut self) -> Result<(), DiskFault>
        requires { IsTrue (bay_state self.old).is_ready }
        ensures rests { OnOk result (Only (bay_state self.old).file (bay_state self.new).may_leave) }
        ensures frame { AfterSync (bay_state self.old) (bay_state self.new) }
        ensures cause { HasCause (bay_state self.old).faults (bay_state self.new).faults result }
        ensures bay { SameBay self.old self.new }
    {
        self.disk.sync()
    }

    fn turns(&self) -> u64 {
        self.disk.turns()
    }
}

impl<D: Disk> Bay for MemBay<D> {
    ghost use Rattle.std.specs.Prelude.{if◌then◌else◌, is_ok};
    ghost use Rattle.disk_mem.specs.Bays.{MountsByName, bay_state, disk_of, name_of, own_faults, last_mount_of, names_of};

    ghost names = { names_of };

    ghost ready_if_mounted = { λ _. refl };

    /// A mount of its own name doesn't fail. One of another name finds no file, and fails where the
    /// file is to be made, or where there is no memory for a copy of the name.
    fn mount(&mut self, name: &str, make: bool) -> Result<Mounted, DiskFault>
        requires { last_mount_of self.old ≡ None }
        ensures mounted { IfOk result (λ answer. last_mount_of self.new
            ≡ Some (record { name = name.now; make = make; answer = answer })) }
        ensures none { OnErr result (last_mount_of self.new ≡ None) }
        ensures made { result ≡ Ok Mounted.Made
            → IsTrue make × (IsTrue (bay_state self.new).tells → (bay_state self.new).file ≡ []) }
        ensures cause { HasCause (bay_state self.old).faults (bay_state self.new).faults result }
        ensures disk { disk_of self.new ≡ disk_of self.old }
        ensures name { name_of self.new ≡ name_of self.old }
        ensures by_name { MountsByName name.now make self.old self.new result }
        ensures faults { own_faults self.new
            ≡ (if is_ok result then own_faults self.old else counted (own_faults self.old) 1) }
    {
        if self.name.as_str() == name {
            let answer = if self.there {
                Mounted::There
            } else if make {
                Mounted::Made
            } else {
                Mounted::Absent
            };
            self.there = self.there || make;
            self.last = Last::Own(make, answer);
            return Ok(answer);
        }
        if !make {
            if let Ok(copy) = String::from_str(self.alloc, name) {
                self.last = Last::Other(copy);
                return Ok(Mounted::Absent);
            }
        }
        self.faults = self.faults.saturating_add(1);
        Err(DiskFault)
    }
}
