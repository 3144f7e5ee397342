//! A bay of real files.
ghost use Rattle.std.specs.Prelude.{◌≡◌, ◌≤◌, ◌+◌, ◌<◌, ◌⊎◌, ◌↔◌, None, Some, Ok, refl, [], length, is_ok, is_some, if◌then◌else◌, IfOk, IfSome, IsErr, IsOk, OnErr, OnOk, IsTrue, IsFalse};
ghost use Rattle.byte_ranges.specs.Ranges.{bytes_at, overwritten, resized};
ghost use Rattle.disk_face.specs.{Counts.{counted, last}, Frames.{AfterLength, AfterMount, AfterRead, AfterSync, AfterWrite}, Moments.{Only}, Mounts.{has_file, is_mounted}};
ghost use Rattle.disk_file.specs.{Mounted.{CanMount, IsTaken, mount_of}, Words.{AsksFor}};

use crate::calls::{resize, sync, write};
use crate::cause::Cause;
use crate::host::{Host, Use};
use crate::mounts::find_or_make;
use crate::positions::fill;
use crate::system::SystemFile;
use arrayvec::ArrayString;
use disk_face::{Bay, Disk, DiskFault, Mounted};
use std::fs::{File, Files};

/// A mount that was answered. A name has at most 4,095 bytes, as many as a system takes.
#[derive(Drop)]
struct Last {
    name: ArrayString<4095>,
    make: bool,
    answer: Mounted,
}

/// The name of the file that was mounted last, or nothing.
fn name_of(last: &Option<Last>) -> &str
    ensures { IfSome (mount_of last.now) (λ mount. result.now ≡ mount.name) }
{
    match last {
        Some(last) => last.name.as_str(),
        None => "",
    }
}

/// The files of a system. It tells what its system tells: of real files neither content nor images,
/// for what a real file holds is no matter of proof. Each error of the system is a fault, and so is a
/// read that ends early.
#[derive(Drop)]
pub struct FileBay<H: Host> {
    host: H,
    usage: Use,
    last: Option<Last>,
    faults: u64,
    cause: Option<Cause>,
    has_lost: bool,
    ghost open_if_mounted: { IsTrue (is_mounted (mount_of last)) → IsTrue (H.state host).is_ready },
}

impl<'a, R: Files<File = File>> FileBay<SystemFile<'a, R>> {
    /// A bay of the runtime's files that has mounted nothing, and whose file may be changed.
    pub fn new(rt: &'a R) -> FileBay<SystemFile<'a, R>>
        ensures none { mount_of result.last ≡ None }
    {
        FileBay::over(SystemFile::new(rt), Use::Changing)
    }

    /// A bay of the runtime's files that has mounted nothing, and whose file is only read.
    pub fn reading(rt: &'a R) -> FileBay<SystemFile<'a, R>>
        ensures none { mount_of result.last ≡ None }
    {
        FileBay::over(SystemFile::new(rt), Use::Reading)
    }
}

impl<H: Host> FileBay<H> {
    ghost use Rattle.disk_file.specs.Bays.{SameBay, bay_state, cause_of, has_lost, host_of, marks_of, use_of};

    /// A bay over a system, that has mounted nothing.
    pub fn over(host: H, usage: Use) -> FileBay<H>
        ensures none { mount_of result.last ≡ None }
        ensures faults { result.faults ≡ 0 }
        ensures whole { IsFalse (has_lost result) }
        ensures usage { use_of result ≡ usage }
        ensures host { host_of result ≡ host }
    {
        FileBay {
            host,
            usage,
            last: None,
            faults: 0,
            cause: None,
            has_lost: false,
        }
    }

    /// The system.
    pub fn host(&self) -> &H
        ensures { result.now ≡ host_of self.now }
    {
        &self.host
    }

    /// Why the last failed call failed.
    pub fn cause(&self) -> Option<Cause>
        ensures { result ≡ cause_of self.now }
    {
        self.cause
    }

    /// Counts a failure and keeps its cause.
    fn fail(&mut self, cause: Cause) -> DiskFault
        ensures faults { self.new.faults ≡ counted self.old.faults 1 }
        ensures later { self.old.faults ≤ self.new.faults }
        ensures cause { self.new.cause ≡ Some cause }
        ensures host { self.new.host ≡ self.old.host }
        ensures last { self.new.last ≡ self.old.last }
        ensures usage { self.new.usage ≡ self.old.usage }
        ensures lost { self.new.has_lost ≡ self.old.has_lost }
    {
        self.faults = self.faults.saturating_add(1);
        self.cause = Some(cause);
        DiskFault
    }
}

impl<H: Host> Disk for FileBay<H> {
    ghost use Rattle.disk_file.specs.Bays.{LosesSync, NotesFault, SameBay, bay_state, cause_of, has_lost, marks_of, use_of};

    ghost state = { bay_state };

    ghost lawful = { λ bay. let l = H.lawful bay.host in
        record {
          has_content = l.has_content;
          both_told = l.both_told;
          counts_now = l.counts_now;
          only_now = l.only_now;
          turn_fits = l.turn_fits;
        } };

    fn len(&mut self) -> Result<u64, DiskFault>
        requires { IsTrue (bay_state self.old).is_ready }
        ensures length { IsTrue (bay_state self.old).tells
            → IfOk result (λ n. n ≡ length (bay_state self.old).file) }
        ensures frame { AfterRead (bay_state self.old) (bay_state self.new) }
        ensures noted { NotesFault self.old self.new result }
        ensures serves { IsFalse (marks_of self.old).may_fail → IsOk result }
        ensures bay { SameBay self.old self.new }
    {
        match self.host.length() {
            Ok(length) => Ok(length),
            Err(error) => Err(self.fail(Cause::System(error))),
        }
    }

    fn read_at(&mut self, pos: u64, out: &mut [u8]) -> Result<(), DiskFault>
        requires ready { IsTrue (bay_state self.old).is_ready }
        requires within { IsTrue (bay_state self.old).tells
            → pos + length out.old ≤ length (bay_state self.old).file }
        ensures bytes { IsTrue (bay_state self.old).tells
            → OnOk result (out.new ≡ bytes_at (bay_state self.old).file pos (length out.old)) }
        ensures frame { AfterRead (bay_state self.old) (bay_state self.new) }
        ensures noted { NotesFault self.old self.new result }
        ensures serves { IsFalse (marks_of self.old).may_fail → IsTrue (bay_state self.old).tells
            → pos + length out.old ≤ last → IsOk result }
        ensures bay { SameBay self.old self.new }
    {
        match fill(&self.host, pos, out) {
            Ok(()) => Ok(()),
            Err(cause) => Err(self.fail(cause)),
        }
    }

    fn write_at(&mut self, pos: u64, bytes: &[u8]) -> Result<(), DiskFault>
        requires ready { IsTrue (bay_state self.old).is_ready }
        requires within { IsTrue (bay_state self.old).tells
            → pos + length bytes.now ≤ length (bay_state self.old).file }
        ensures written { IsTrue (bay_state self.old).tells
            → OnOk result ((bay_state self.new).file ≡ overwritten (bay_state self.old).file pos bytes.now) }
        ensures frame { AfterWrite pos (length bytes.now) (bay_state self.old) (bay_state self.new) }
        ensures noted { NotesFault self.old self.new result }
        ensures serves { IsFalse (marks_of self.old).may_fail → IsTrue (bay_state self.old).tells
            → pos + length bytes.now ≤ last → IsOk result }
        ensures room { OnErr result (IfSome (cause_of self.new) (AsksFor (counted pos (length bytes.now)))) }
        ensures bay { SameBay self.old self.new }
    {
        match write(&mut self.host, pos, bytes) {
            Ok(()) => Ok(()),
            Err(cause) => Err(self.fail(cause)),
        }
    }

    fn set_len(&mut self, n: u64) -> Result<(), DiskFault>
        requires { IsTrue (bay_state self.old).is_ready }
        ensures resized { IsTrue (bay_state self.old).tells
            → OnOk result ((bay_state self.new).file ≡ resized (bay_state self.old).file n) }
        ensures either { IsTrue (bay_state self.old).tells
            → OnErr result (((bay_state self.new).file ≡ (bay_state self.old).file)
            ⊎ ((bay_state self.new).file ≡ resized (bay_state self.old).file n)) }
        ensures frame { AfterLength n (bay_state self.old) (bay_state self.new) }
        ensures noted { NotesFault self.old self.new result }
        ensures serves { IsFalse (marks_of self.old).may_fail → n ≤ (marks_of self.old).room → IsOk result }
        ensures room { OnErr result (IfSome (cause_of self.new) (AsksFor n)) }
        ensures bay { SameBay self.old self.new }
    {
        match resize(&mut self.host, n) {
            Ok(()) => Ok(()),
            Err(cause) => Err(self.fail(cause)),
        }
    }

    /// Reaches the device, for a change of the length too. After a sync that failed each later one
    /// fails: the system may have let go of what it could not write, and would say that all is well. So does
    /// one of a file that its name leads to no more: nobody would find what was synced.
    fn sync(&mut self) -> Result<(), DiskFault>
        requires { IsTrue (bay_state self.old).is_ready }
        ensures rests { OnOk result (Only (bay_state self.old).file (bay_state self.new).may_leave) }
        ensures frame { AfterSync (bay_state self.old) (bay_state self.new) }
        ensures noted { NotesFault self.old self.new result }
        ensures loses { LosesSync self.old self.new result }
        ensures serves { IsFalse (marks_of self.old).may_fail → IsFalse (has_lost self.old) → IsOk result }
        ensures marks { marks_of self.new ≡ marks_of self.old }
        ensures usage { use_of self.new ≡ use_of self.old }
    {
        match sync(&mut self.host, name_of(&self.last), self.has_lost) {
            Ok(()) => Ok(()),
            Err(cause) => {
                self.has_lost = true;
                Err(self.fail(cause))
            }
        }
    }

    fn turns(&self) -> u64 {
        self.host.turns()
    }
}

impl<H: Host> Bay for FileBay<H> {
    ghost use Rattle.disk_file.specs.{Hosts.{names_of}, Bays.{Mounts, NotesFault, SameMeans, bay_state, marks_of, use_of}};

    ghost names = { λ bay. names_of (marks_of bay) };

    ghost ready_if_mounted = { λ _. refl };

    /// Looks what has the name, opens it if it is a file, and takes its lock. A file that may be changed
    /// is then brought to rest: it is synced.
    fn mount(&mut self, name: &str, make: bool) -> Result<Mounted, DiskFault>
        requires { (bay_state self.old).last_mount ≡ None }
        ensures mounts { Mounts name.now make self.old self.new result }
        ensures frame { AfterMount (bay_state self.old) (bay_state self.new) }
        ensures noted { NotesFault self.old self.new result }
        ensures taken { IfOk result (λ answer. IsTaken (use_of self.old) answer (marks_of self.old)
            (marks_of self.new) (bay_state self.new)) }
        ensures serves { IsFalse (marks_of self.old).may_fail → 0 < length name.now → length name.now ≤ 4095
            → CanMount (use_of self.old) make name.now (marks_of self.old) → IsOk result }
        ensures bay { SameMeans self.old self.new }
    {
        if name.is_empty() {
            return Err(self.fail(Cause::NoName));
        }
        let Ok(copy) = ArrayString::from(name) else {
            return Err(self.fail(Cause::LongName));
        };
        match find_or_make(&mut self.host, name, self.usage, make) {
            Ok(answer) => {
                self.last = Some(Last {
                    name: copy,
                    make,
                    answer,
                });
                Ok(answer)
            }
            Err(cause) => Err(self.fail(cause)),
        }
    }
}
