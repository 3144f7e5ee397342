//! The command `load`: a file that is made of a dump.
ghost use Rattle.std.specs.Prelude.{◌≡◌, ◌≤◌, true, None, Err, IsTrue, length};
ghost use Rattle.disk_face.specs.Devices.{devices};
ghost use Rattle.slot_codec.specs.Readable.{IsSuperBlock};
ghost use Rattle.slot_pair.specs.Formats.{block_for};
ghost use Rattle.command_face.specs.{Mounting.{IsMounted}, Outcomes.{status_at}};
ghost use Rattle.load_command.specs.{Doing.{IsLoading, reason_of}, Loading.{LoadAlways, LoadPromise, LoadReads}};

use command_face::{DISK_FAILED, NO_FILE, Outcome, StopReason, finish, put_whole};
use disk_face::{Bay, Disk, Mounted, Sink, Source, length_of};
use load_stream::{LoadFault, load};
use std::alloc::Global;

/// What is put once the file has the dump's map.
const LINE: &str = "loaded\n";

/// `load FILE K NAMES`: makes a store of an empty file, with the map of the dump that the input is, and puts
/// `loaded`. The file is made where it isn't there; one that has bytes stays as it is. Status 2 tells where
/// the input stops being a dump, by 0 for its first line and else by the number of the object; 14 tells that
/// its first line has more names than NAMES.
#[inline(never)]
pub fn load_file<B: Bay, I: Source, O: Sink>(
    alloc: Global,
    bay: &mut B,
    file: &str,
    k: u64,
    names: u64,
    input: &mut I,
    output: &mut O,
) -> Outcome
    requires none { (B.state bay.old).last_mount ≡ None }
    requires sizes { (2 ≤ k) × (k ≤ 64) × (16 ≤ names) × (names ≤ 65536) }
    ensures loads { LoadPromise k names result.status (devices (B.state bay.old) (O.state output.old))
        (devices (B.state bay.new) (O.state output.new)) (I.state input.old) (I.state input.new) }
    ensures mounted { IsMounted file.now true (B.state bay.new).last_mount (result.status ≡ DISK_FAILED)
        (result.status ≡ NO_FILE) }
    ensures keeps { LoadAlways result.status (devices (B.state bay.old) (O.state output.old))
        (devices (B.state bay.new) (O.state output.new)) }
    ensures reads { LoadReads result.status (I.state input.old) (I.state input.new) (input.new ≡ input.old) }
    ensures numbers { (result.done ≡ 0) × (result.kept_done ≡ 0) × (result.kept_turn ≡ 0) }
{
    let end = load_over(alloc, bay, file, k, names, input, output);
    finish(end, output)
}

/// Mounts the file, and loads the dump where it is empty.
fn load_over<B: Bay, I: Source, O: Sink>(
    alloc: Global,
    bay: &mut B,
    file: &str,
    k: u64,
    names: u64,
    input: &mut I,
    output: &mut O,
) -> Result<(), StopReason>
    requires none { (B.state bay.old).last_mount ≡ None }
    requires ranges { IsSuperBlock (block_for k names) }
    ensures loads { IsLoading k names (devices (B.state bay.old) (O.state output.old))
        (devices (B.state bay.new) (O.state output.new)) (I.state input.old) (I.state input.new)
        (input.new ≡ input.old) result }
    ensures mounted { IsMounted file.now true (B.state bay.new).last_mount (status_at result ≡ DISK_FAILED)
        (status_at result ≡ NO_FILE) }
{
    match bay.mount(file, true) {
        Err(_) => Err(StopReason::Disk),
        Ok(Mounted::Absent) => Err(StopReason::NoFile),
        Ok(Mounted::There | Mounted::Made) => load_mounted(alloc, bay, k, names, input, output),
    }
}

/// Loads the dump into the file that is mounted, if it is empty.
fn load_mounted<D: Disk, I: Source, O: Sink>(
    alloc: Global,
    disk: &mut D,
    k: u64,
    names: u64,
    input: &mut I,
    output: &mut O,
) -> Result<(), StopReason>
    requires ready { IsTrue (D.state disk.old).is_ready }
    requires ranges { IsSuperBlock (block_for k names) }
    ensures loads { IsLoading k names (devices (D.state disk.old) (O.state output.old))
        (devices (D.state disk.new) (O.state output.new)) (I.state input.old) (I.state input.new)
        (input.new ≡ input.old) result }
    ensures mount { (D.state disk.new).last_mount ≡ (D.state disk.old).last_mount }
{
    let Ok(length) = length_of(disk) else {
        return Err(StopReason::Disk);
    };
    if length != 0 {
        return Err(StopReason::Taken(length));
    }
    load_empty(alloc, disk, k, names, input, output)
}

/// Loads the dump into a file of length 0, and puts the line that tells so.
fn load_empty<D: Disk, I: Source, O: Sink>(
    alloc: Global,
    disk: &mut D,
    k: u64,
    names: u64,
    input: &mut I,
    output: &mut O,
) -> Result<(), StopReason>
    requires ready { IsTrue (D.state disk.old).is_ready }
    requires ranges { IsSuperBlock (block_for k names) }
    requires empty { IsTrue (D.state disk.old).tells → length (D.state disk.old).file ≡ 0 }
    ensures loads { IsLoading k names (devices (D.state disk.old) (O.state output.old))
        (devices (D.state disk.new) (O.state output.new)) (I.state input.old) (I.state input.new)
        (input.new ≡ input.old) result }
    ensures mount { (D.state disk.new).last_mount ≡ (D.state disk.old).last_mount }
{
    match load(alloc, disk, k, names, input) {
        Ok(()) => put_whole(output, LINE.as_bytes()),
        Err(fault) => Err(reason_of(fault)),
    }
}

/// What a fault of a load is to the command.
fn reason_of(fault: LoadFault) -> StopReason
    ensures { result ≡ reason_of fault }
{
    match fault {
        LoadFault::Line(number) => StopReason::Line(number),
        LoadFault::TooMany(count) => StopReason::TooManyNames(count),
        LoadFault::NoMemory => StopReason::NoMemory,
        LoadFault::Disk => StopReason::Disk,
        LoadFault::Source => StopReason::Source,
    }
}
