//! Runs of the program on a disk, or on the bytes of a file.
ghost use Rattle.std.specs.Prelude.{◌≡◌, IfOk, IsTrue, IsFalse, length};

use crate::{Outcome, serve};
use disk_face::Disk;
use disk_mem::{MemBay, MemDisk, MemSink, MemSource};
use std::alloc::Global;
use std::test::Fail;

/// What a run left: its status and numbers, what it put, and its disk.
#[derive(Drop)]
pub struct Ran<D: Disk> {
    pub outcome: Outcome,
    pub put: Vec<u8>,
    pub disk: D,
}

/// Runs the program on a disk as the file `f`, which is there or not, with an input and a sink of room
/// for 2 MiB that fails the listed calls.
pub fn run_with<D: Disk + Drop>(
    alloc: Global,
    words: &[&str],
    there: bool,
    disk: D,
    input: MemSource,
    fails: Vec<u64>,
) -> Result<Ran<D>, Fail>
    requires ready { IsTrue (D.state disk).is_ready }
    requires empty { IsFalse there → IsTrue (D.state disk).tells → length (D.state disk).file ≡ 0 }
    ensures { IfOk result (λ ran. IsTrue (D.state ran.disk).is_ready) }
{
    let mut bay = MemBay::new(alloc, String::from_str(alloc, "f")?, there, disk);
    let mut source = input;
    let mut output = MemSink::with_room(alloc, 1 << 21, fails)?;
    let outcome = serve(alloc, words, &mut bay, &mut source, &mut output);
    Ok(Ran {
        outcome,
        put: output.bytes().to_vec(alloc)?,
        disk: bay.into_disk(),
    })
}

/// Runs the program with no input.
pub fn run_on<D: Disk + Drop>(
    alloc: Global,
    words: &[&str],
    there: bool,
    disk: D,
    fails: Vec<u64>,
) -> Result<Ran<D>, Fail>
    requires ready { IsTrue (D.state disk).is_ready }
    requires empty { IsFalse there → IsTrue (D.state disk).tells → length (D.state disk).file ≡ 0 }
    ensures { IfOk result (λ ran. IsTrue (D.state ran.disk).is_ready) }
{
    let input = MemSource::new(Vec::new(alloc), 1, Vec::new(alloc));
    run_with(alloc, words, there, disk, input, fails)
}

/// Runs the program on a file `f` of these bytes, with no input.
pub fn run(alloc: Global, words: &[&str], bytes: &[u8]) -> Result<Ran<MemDisk>, Fail> {
    let disk = MemDisk::from_bytes(alloc, bytes)?;
    run_on(alloc, words, true, disk, Vec::new(alloc))
}

/// The words of a session.
const RUN: &[&str] = &["run", "f"];

/// Serves an input by `run f`. It comes in pieces of at most so many bytes, which is not 0.
pub fn session<D: Disk + Drop>(
    alloc: Global,
    disk: D,
    input: &[u8],
    piece: usize,
) -> Result<Ran<D>, Fail>
    requires ready { IsTrue (D.state disk).is_ready }
    ensures { IfOk result (λ ran. IsTrue (D.state ran.disk).is_ready) }
{
    if piece == 0 {
        return Err("pieces of some bytes")?;
    }
    let source = MemSource::new(input.to_vec(alloc)?, piece, Vec::new(alloc));
    run_with(alloc, RUN, true, disk, source, Vec::new(alloc))
}

/// A disk on which an absent file `f` was formatted, with a divisor and 16 names.
pub fn formatted(alloc: Global, k: &str) -> Result<MemDisk, Fail> {
    let words = ["format", "f", k, "16"];
    let ran = run_on(alloc, &words, false, MemDisk::new(alloc), Vec::new(alloc))?;
    if ran.outcome.status != 0 {
        return Err("a format")?;
    }
    Ok(ran.disk)
}

/// How a command other than `run` ends: its status, and three numbers of nothing.
pub fn ended(status: u8) -> Outcome {
    Outcome {
        status,
        done: 0,
        kept_done: 0,
        kept_turn: 0,
    }
}

/// Parts of an input or an output, one behind the other.
pub fn joined(alloc: Global, parts: &[&str]) -> Result<Vec<u8>, Fail> {
    let mut bytes = Vec::new(alloc);
    for part in parts {
        bytes.extend_from_slice(part.as_bytes())?;
    }
    Ok(bytes)
}
