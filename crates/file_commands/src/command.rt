//! Each command, but for the fault line.
ghost use Rattle.std.specs.Prelude.{◌≡◌, ◌≢◌, ◌≤◌, false, true, None, Ok, Err, IfErr, IsTrue, length};
ghost use Rattle.disk_face.specs.Frames.{Untouched};
ghost use Rattle.file_commands.specs.{Getting.{IsObject}, Formatting.{Formats, IsDone, format_answer}, Dumped.{Dumps, PutsNoDump}, Texts.{IsChecked, IsMapped}};
ghost use Rattle.command_face.specs.{Mounting.{IsMounted}, Layers.{Answers, IsCommandReason, KeepsAt, PutsNone}};

use crate::check::check;
use crate::dump::dump;
use crate::get::get;
use crate::map::map;
use command_face::{StopReason, mount_there, put_whole};
use disk_face::{Bay, Disk, Mounted, Sink, length_of};
use slot_codec::Name;
use slot_pair::SlotPair;
use std::alloc::Global;

/// `get FILE NAME`.
#[inline(never)]
pub fn get_from<B: Bay, O: Sink>(
    alloc: Global,
    bay: &mut B,
    file: &str,
    name: &Name,
    output: &mut O,
) -> Result<(), StopReason>
    requires { (B.state bay.old).last_mount ≡ None }
    ensures words { result ≢ Err StopReason.Words }
    ensures mounted { IsMounted file.now false (B.state bay.new).last_mount
        (result ≡ Err StopReason.Disk)
        (result ≡ Err StopReason.NoFile) }
    ensures answers { IsTrue (B.state bay.old).tells
        → Answers (IsObject name.now (B.state bay.old).file) (O.state output.old) (O.state output.new)
        result }
    ensures nothing_put { PutsNone output.old output.new result }
    ensures plain { IfErr result IsCommandReason }
    ensures frame { Untouched (B.state bay.old) (B.state bay.new) }
    ensures keeps { KeepsAt (B.state bay.old) (B.state bay.new) (O.state output.old) (O.state output.new)
        result }
{
    mount_there(bay, file)?;
    get(alloc, bay, name, output)
}

/// `check FILE`.
#[inline(never)]
pub fn check_from<B: Bay, O: Sink>(
    alloc: Global,
    bay: &mut B,
    file: &str,
    output: &mut O,
) -> Result<(), StopReason>
    requires { (B.state bay.old).last_mount ≡ None }
    ensures words { result ≢ Err StopReason.Words }
    ensures mounted { IsMounted file.now false (B.state bay.new).last_mount (result ≡ Err StopReason.Disk)
        (result ≡ Err StopReason.NoFile) }
    ensures answers { IsTrue (B.state bay.old).tells
        → Answers (IsChecked (B.state bay.old).file) (O.state output.old) (O.state output.new) result }
    ensures plain { IfErr result IsCommandReason }
    ensures nothing_put { PutsNone output.old output.new result }
    ensures frame { Untouched (B.state bay.old) (B.state bay.new) }
    ensures keeps { KeepsAt (B.state bay.old) (B.state bay.new) (O.state output.old) (O.state output.new)
        result }
{
    mount_there(bay, file)?;
    check(alloc, bay, output)
}

/// `map FILE`.
#[inline(never)]
pub fn map_from<B: Bay, O: Sink>(
    alloc: Global,
    bay: &mut B,
    file: &str,
    output: &mut O,
) -> Result<(), StopReason>
    requires { (B.state bay.old).last_mount ≡ None }
    ensures words { result ≢ Err StopReason.Words }
    ensures mounted { IsMounted file.now false (B.state bay.new).last_mount (result ≡ Err StopReason.Disk)
        (result ≡ Err StopReason.NoFile) }
    ensures answers { IsTrue (B.state bay.old).tells
        → Answers (IsMapped (B.state bay.old).file) (O.state output.old) (O.state output.new) result }
    ensures plain { IfErr result IsCommandReason }
    ensures nothing_put { PutsNone output.old output.new result }
    ensures frame { Untouched (B.state bay.old) (B.state bay.new) }
    ensures keeps { KeepsAt (B.state bay.old) (B.state bay.new) (O.state output.old) (O.state output.new)
        result }
{
    mount_there(bay, file)?;
    map(alloc, bay, output)
}

/// `dump FILE`.
#[inline(never)]
pub fn dump_from<B: Bay, O: Sink>(
    alloc: Global,
    bay: &mut B,
    file: &str,
    output: &mut O,
) -> Result<(), StopReason>
    requires { (B.state bay.old).last_mount ≡ None }
    ensures words { result ≢ Err StopReason.Words }
    ensures mounted { IsMounted file.now false (B.state bay.new).last_mount (result ≡ Err StopReason.Disk)
        (result ≡ Err StopReason.NoFile) }
    ensures dumps { IsTrue (B.state bay.old).tells
        → Dumps (B.state bay.old).file (O.state output.old) (O.state output.new) result }
    ensures plain { IfErr result IsCommandReason }
    ensures nothing_put { PutsNoDump output.old output.new result }
    ensures frame { Untouched (B.state bay.old) (B.state bay.new) }
    ensures keeps { KeepsAt (B.state bay.old) (B.state bay.new) (O.state output.old) (O.state output.new)
        result }
{
    mount_there(bay, file)?;
    dump(alloc, bay, output)
}

/// `format FILE K NAMES`. An empty file is formatted; another one stays as it is.
#[inline(never)]
pub fn format_in<B: Bay, O: Sink>(
    bay: &mut B,
    file: &str,
    k: u64,
    names: u64,
    output: &mut O,
) -> Result<(), StopReason>
    requires none { (B.state bay.old).last_mount ≡ None }
    requires sizes { (2 ≤ k) × (k ≤ 64) × (16 ≤ names) × (names ≤ 65536) }
    ensures never { (result ≢ Err StopReason.Words) × (result ≢ Err StopReason.NoMemory) }
    ensures mounted { IsMounted file.now true (B.state bay.new).last_mount
        (result ≡ Err StopReason.Disk) (result ≡ Err StopReason.NoFile) }
    ensures answers { IsTrue (B.state bay.old).tells
        → Answers (λ answer. answer ≡ format_answer (B.state bay.old).file) (O.state output.old)
        (O.state output.new) result }
    ensures nothing_put { PutsNone output.old output.new result }
    ensures plain { IfErr result IsCommandReason }
    ensures formats { IsTrue (B.state bay.old).tells → length (B.state bay.old).file ≡ 0
        → Formats k names (B.state bay.old) (B.state bay.new) (IsDone result) }
    ensures silent { result ≡ Err StopReason.Disk → output.new ≡ output.old }
    ensures keeps { KeepsAt (B.state bay.old) (B.state bay.new) (O.state output.old) (O.state output.new)
        result }
{
    match bay.mount(file, true) {
        Err(_) => Err(StopReason::Disk),
        Ok(Mounted::Absent) => Err(StopReason::NoFile),
        Ok(Mounted::There | Mounted::Made) => format(bay, k, names, output),
    }
}

/// Formats the file that is mounted, if it is empty.
fn format<D: Disk, O: Sink>(
    disk: &mut D,
    k: u64,
    names: u64,
    output: &mut O,
) -> Result<(), StopReason>
    requires ready { IsTrue (D.state disk.old).is_ready }
    requires divisor { (2 ≤ k) × (k ≤ 64) }
    requires low { 16 ≤ names }
    requires high { names ≤ 65536 }
    ensures words { (result ≢ Err StopReason.Words) × (result ≢ Err StopReason.NoFile) }
    ensures memory { result ≢ Err StopReason.NoMemory }
    ensures answers { IsTrue (D.state disk.old).tells
        → Answers (λ answer. answer ≡ format_answer (D.state disk.old).file) (O.state output.old)
        (O.state output.new) result }
    ensures nothing_put { PutsNone output.old output.new result }
    ensures plain { IfErr result IsCommandReason }
    ensures formats { IsTrue (D.state disk.old).tells → length (D.state disk.old).file ≡ 0
        → Formats k names (D.state disk.old) (D.state disk.new) (IsDone result) }
    ensures silent { result ≡ Err StopReason.Disk → output.new ≡ output.old }
    ensures mount { (D.state disk.new).last_mount ≡ (D.state disk.old).last_mount }
    ensures keeps { KeepsAt (D.state disk.old) (D.state disk.new) (O.state output.old) (O.state output.new)
        result }
{
    let length = length_of(disk).map_err(|_| StopReason::Disk)?;
    if length != 0 {
        return Err(StopReason::Taken(length));
    }
    SlotPair::format(disk, k, names).map_err(|_| StopReason::Disk)?;
    put_whole(output, b"formatted\n")
}
