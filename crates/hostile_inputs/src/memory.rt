//! Tries a command of the program where one growth of memory is refused: `hostile_inputs COUNT IMAGE COMMAND
//! FILE ..` makes COUNT growths, and then does the command as the program does. So of the growths of the
//! command another one is refused with another COUNT, where `rt try --fail-alloc` refuses always the one of
//! the same number. One line tells how the command ended, and what a session then finds in the file.
ghost use Rattle.std.specs.Prelude.{◌≡◌, None, IfOk};
ghost use Rattle.disk_mem.specs.Bays.{last_mount_of};

mod command;
mod growths;

use command::{Attempt, attempted, reopened};
use costore_top::may_change;
use disk_face::{Bay, Disk};
use disk_file::FileBay;
use disk_mem::{MemBay, MemDisk, MemSink};
use row_vectors::images::{MOVING, disk};
use std::alloc::Global;
use std::str::from_utf8;
use std::test::Fail;

/// The name of a file in memory.
const NAME: &str = "f";

/// Room for what a command or a session puts.
const ROOM: u64 = 4096;

/// Does a command after so many growths of memory, on a file of one of the images.
pub fn try_one(rt: &HostRuntime, count: &str, image: &str, command: &[&str]) -> Result<(), Fail> {
    let count = count.parse::<usize>()?;
    match image {
        "file" => on_file(rt, count, command),
        "none" => in_memory(rt, count, MemDisk::new(rt.alloc())),
        "hello" => in_memory(rt, count, disk(rt.alloc(), 19_608, &[], &[])?),
        "moving" => in_memory(rt, count, disk(rt.alloc(), 19_857, &MOVING, &[])?),
        _ => Err("an image of none, hello, moving and file")?,
    }
}

/// Does the command on a disk in memory, the file `f`, which is there where it isn't empty.
fn in_memory(rt: &HostRuntime, count: usize, disk: MemDisk) -> Result<(), Fail> {
    let mut bay = bay_of(rt.alloc(), disk)?;
    let mut output = sink(rt.alloc())?;
    let Ok(ended) = attempted(rt, count, &mut bay, &mut output) else {
        println!(rt; "before")?;
        return Ok(());
    };
    let mut bay = bay_of(rt.alloc(), bay.into_disk())?;
    tell(rt, ended, &output, &mut bay, NAME)
}

/// A bay of the file `f`, which is there where the disk isn't empty.
fn bay_of(alloc: Global, disk: MemDisk) -> Result<MemBay<MemDisk>, Fail>
    ensures { IfOk result (λ bay. last_mount_of bay ≡ None) }
{
    let mut disk = disk;
    let name = String::from_str(alloc, NAME)?;
    let is_there = disk.len()? != 0;
    Ok(MemBay::new(alloc, name, is_there, disk))
}

/// An empty sink.
fn sink(alloc: Global) -> Result<MemSink, Fail> {
    Ok(MemSink::with_room(alloc, ROOM, Vec::new(alloc))?)
}

/// Does the command on a real file, which its second word names.
fn on_file(rt: &HostRuntime, count: usize, command: &[&str]) -> Result<(), Fail> {
    let mut bay = if may_change(command) {
        FileBay::new(rt)
    } else {
        FileBay::reading(rt)
    };
    let mut output = sink(rt.alloc())?;
    let first = attempted(rt, count, &mut bay, &mut output);
    drop(bay);
    let Ok(ended) = first else {
        println!(rt; "before")?;
        return Ok(());
    };
    let file = command.get(1).copied().unwrap_or("");
    tell(rt, ended, &output, &mut FileBay::new(rt), file)
}

/// Prints whether a growth was refused only after the command, how it ended and what it put, and then how
/// a session on its file ends and what that puts.
fn tell<B: Bay>(
    rt: &HostRuntime,
    ended: Attempt,
    output: &MemSink,
    bay: &mut B,
    file: &str,
) -> Result<(), Fail>
    requires { (B.state bay.old).last_mount ≡ None }
{
    let mut later = sink(rt.alloc())?;
    let status = reopened(rt.alloc(), bay, file, &mut later)?;
    let when = if ended.refused_after {
        "after"
    } else {
        "not after"
    };
    let put = from_utf8(output.bytes())?;
    let found = from_utf8(later.bytes())?;
    println!(rt; "{when}: {} {put:?}, then {status} {found:?}", ended.status)?;
    Ok(())
}
