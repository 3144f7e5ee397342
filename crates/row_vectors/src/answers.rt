//! What a command put, and how it ended.
use crate::images::{Change, MOVING};
pub(crate) use crate::rows::{got, try_bytes, try_holds, try_number, try_outcome};
use crate::runs::{Ran, ended, run, run_on};
use disk_face::Disk;
use disk_mem::MemDisk;
use std::alloc::Global;
use std::process::Abort;

/// The words of a command, its status, and all that it puts.
#[derive(Clone, Copy)]
pub struct Told {
    pub words: &'static [&'static str],
    pub status: u8,
    pub puts: &'static str,
}

/// Lines of a table of commands.
macro_rules! told {
    ($([$($word:literal),*] => $status:literal $puts:expr;)*) => {
        [$(Told { words: &[$($word),*], status: $status, puts: $puts }),*]
    };
}

pub(crate) use told;

/// The words of some commands.
pub const GET: &[&str] = &["get", "f", "a"];

pub const CHECK: &[&str] = &["check", "f"];

pub const MAP: &[&str] = &["map", "f"];

pub const DUMP: &[&str] = &["dump", "f"];

pub const FORMAT: &[&str] = &["format", "f", "9", "16"];

/// The changes to the moving table.
pub const MOVED: &[Change] = &MOVING;

/// What a command put, its status and its numbers, which are 0.
pub fn try_answer<D: Disk>(rt: &impl Abort, ran: &Ran<D>, status: u8, puts: &str) {
    try_bytes(rt, &ran.put, puts.as_bytes(), &puts);
    try_outcome(rt, ran.outcome, ended(status), &puts);
}

/// What a command puts of a file that is there. The disk is given back.
pub fn try_command(
    rt: &impl Abort,
    alloc: Global,
    file: MemDisk,
    words: &[&str],
    status: u8,
    puts: &str,
) -> MemDisk {
    let ran = got(rt, run_on(alloc, words, true, file, Vec::new(alloc)));
    try_answer(rt, &ran, status, puts);
    ran.disk
}

/// The number of one call.
pub fn numbered(rt: &impl Abort, alloc: Global, call: u64) -> Vec<u64> {
    vec![in alloc; call].expect(rt, "memory")
}

/// What a command puts of a file of some bytes, which it doesn't change.
pub fn try_unchanged(
    rt: &impl Abort,
    alloc: Global,
    bytes: &[u8],
    words: &[&str],
    status: u8,
    puts: &str,
) {
    let ran = got(rt, run(alloc, words, bytes));
    try_answer(rt, &ran, status, puts);
    try_number(rt, ran.disk.turns(), 0, &puts);
}

/// `get` of an object of so many bytes, of which the first is `<` and the last `>`. It changes nothing. The
/// disk is given back.
pub fn try_ends(rt: &impl Abort, alloc: Global, name: &str, file: MemDisk, length: u64) -> MemDisk {
    let turns = file.turns();
    let ran = got(
        rt,
        run_on(alloc, &["get", "f", name], true, file, Vec::new(alloc)),
    );
    try_outcome(rt, ran.outcome, ended(0), &name);
    try_number(rt, ran.disk.turns(), turns, &name);
    try_marks(rt, &ran.put, length, name);
    ran.disk
}

/// An object of so many bytes, of which the first is `<` and the last `>`.
fn try_marks(rt: &impl Abort, bytes: &[u8], length: u64, name: &str) {
    try_number(rt, bytes.len() as u64, length, &name);
    try_holds(rt, has_ends(bytes), &name);
}

/// Whether the first byte is `<` and the last `>`.
fn has_ends(bytes: &[u8]) -> bool {
    bytes.starts_with(b"<") && bytes.ends_with(b">")
}

/// The bytes that tell the pieces of the object of 160,000 bytes, and where they stand.
const TELLING: &[Change] = &[(0, b'h'), (65_536, b'i'), (131_072, b'j'), (159_999, b'k')];

/// Whether bytes are a front, of some length, of the object of 160,000 bytes, by the bytes that tell its
/// pieces.
pub fn is_front_of_long(bytes: &[u8], length: usize) -> bool {
    for (at, byte) in TELLING {
        let expected = if *at < length { Some(*byte) } else { None };
        if bytes.get(*at).copied() != expected {
            return false;
        }
    }
    bytes.len() == length
}
