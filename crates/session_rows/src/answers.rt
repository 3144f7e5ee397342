//! What a run put, how it ended and what it left, beside what its row expects.
ghost use Rattle.std.specs.Prelude.{IsTrue};

pub use crate::rows::{got, try_bytes, try_holds, try_number, try_outcome};
use disk_face::Disk;
use disk_mem::{MemDisk, MemSource};
use row_vectors::Outcome;
use row_vectors::runs::{Ran, ended, formatted, joined, run_on, run_with, session};
use std::alloc::Global;
use std::fmt::Debug;
use std::process::Abort;

/// The words of the commands that tell what a file is.
pub const CHECK: &[&str] = &["check", "f"];

pub const MAP: &[&str] = &["map", "f"];

/// What was put, by its parts.
pub fn try_puts(rt: &impl Abort, alloc: Global, put: &[u8], puts: &[&str], row: &impl Debug) {
    let expected = got(rt, joined(alloc, puts));
    try_bytes(rt, put, &expected, row);
}

/// What a run put, by its parts, and its numbers.
pub fn try_ran<D: Disk>(
    rt: &impl Abort,
    alloc: Global,
    ran: &Ran<D>,
    puts: &[&str],
    outcome: Outcome,
    row: &impl Debug,
) {
    try_outcome(rt, ran.outcome, outcome, row);
    try_puts(rt, alloc, &ran.put, puts, row);
}

/// The text that a run put, and its numbers.
pub fn try_text<D: Disk>(
    rt: &impl Abort,
    ran: &Ran<D>,
    text: &str,
    outcome: Outcome,
    row: &impl Debug,
) {
    try_outcome(rt, ran.outcome, outcome, row);
    try_bytes(rt, &ran.put, text.as_bytes(), row);
}

/// The text that a command other than `run` put, and its status.
pub fn try_end<D: Disk>(rt: &impl Abort, ran: &Ran<D>, status: u8, text: &str, row: &impl Debug) {
    try_text(rt, ran, text, ended(status), row);
}

/// Runs a command that reads no input on a file that is there.
pub fn told<D: Disk + Drop>(rt: &impl Abort, alloc: Global, disk: D, words: &[&str]) -> Ran<D>
    requires ready { IsTrue (D.state disk).is_ready }
    ensures { IsTrue (D.state result.disk).is_ready }
{
    got(rt, run_on(alloc, words, true, disk, Vec::new(alloc)))
}

/// What a command that reads no input puts of a file that is there, and its status. The disk is given back.
pub fn try_command<D: Disk + Drop>(
    rt: &impl Abort,
    alloc: Global,
    disk: D,
    words: &[&str],
    status: u8,
    text: &str,
) -> D
    requires ready { IsTrue (D.state disk).is_ready }
    ensures { IsTrue (D.state result).is_ready }
{
    let ran = told(rt, alloc, disk, words);
    try_end(rt, &ran, status, text, &text);
    ran.disk
}

/// What `check` or `map` puts of a file, which is a store. The disk is given back.
pub fn try_told<D: Disk + Drop>(
    rt: &impl Abort,
    alloc: Global,
    disk: D,
    words: &[&str],
    text: &str,
    row: &impl Debug,
) -> D
    requires ready { IsTrue (D.state disk).is_ready }
    ensures { IsTrue (D.state result).is_ready }
{
    let ran = told(rt, alloc, disk, words);
    try_end(rt, &ran, 0, text, row);
    ran.disk
}

/// Runs a command on a file that is there, with an input, by its parts, in pieces of 7 bytes. The source and
/// the sink fail the listed calls.
pub fn played<D: Disk + Drop>(
    rt: &impl Abort,
    alloc: Global,
    disk: D,
    words: &[&str],
    parts: &[&str],
    takes: Vec<u64>,
    puts: Vec<u64>,
) -> Ran<D>
    requires ready { IsTrue (D.state disk).is_ready }
    ensures { IsTrue (D.state result.disk).is_ready }
{
    let source = MemSource::new(got(rt, joined(alloc, parts)), 7, takes);
    got(rt, run_with(alloc, words, true, disk, source, puts))
}

/// Serves an input, by its parts, in pieces of at most so many bytes.
pub fn serve_parts<D: Disk + Drop>(
    rt: &impl Abort,
    alloc: Global,
    disk: D,
    parts: &[&str],
    piece: usize,
) -> Ran<D>
    requires ready { IsTrue (D.state disk).is_ready }
{
    let input = got(rt, joined(alloc, parts));
    got(rt, session(alloc, disk, &input, piece))
}

/// A fresh file of a divisor of 9 and 16 names.
pub fn fresh(rt: &impl Abort, alloc: Global) -> MemDisk {
    got(rt, formatted(alloc, "9"))
}

/// A fresh file that served these requests.
pub fn stored(rt: &impl Abort, alloc: Global, requests: &[&str]) -> MemDisk {
    serve_parts(rt, alloc, fresh(rt, alloc), requests, 64).disk
}

/// The number of one call.
pub fn numbered(rt: &impl Abort, alloc: Global, call: u64) -> Vec<u64> {
    vec![in alloc; call].expect(rt, "memory")
}
