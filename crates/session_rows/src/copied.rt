//! Files whose dump is loaded into another file: for other numbers, of version 2, within a flush, and with
//! objects of more than one piece. And files into which nothing is loaded, since they have bytes.
ghost use Rattle.std.specs.Prelude.{◌<◌, IsTrue};

use crate::answers::{CHECK, got, told, try_bytes, try_end, try_number, try_outcome, try_told};
use crate::loaded::{EMPTY, HEAD, LOAD, PARTS, WHOLE};
use disk_face::Disk;
use disk_mem::{MemDisk, MemSource};
use row_vectors::images::{Change, HELLO_DIGESTED, MOVING, disk};
use row_vectors::inputs::{PUT_A, PUT_B};
use row_vectors::runs::{Ran, ended, joined, run_with};
use std::alloc::Global;
use std::process::Abort;

const DUMP: &[&str] = &["dump", "f"];

/// Runs a command on a file that is there, with an input in pieces of 64 bytes.
fn run_there(
    rt: &impl Abort,
    alloc: Global,
    words: &[&str],
    file: MemDisk,
    input: &[u8],
) -> Ran<MemDisk> {
    let bytes = input.to_vec(alloc).expect(rt, "memory");
    let source = MemSource::new(bytes, 64, Vec::new(alloc));
    got(
        rt,
        run_with(alloc, words, true, file, source, Vec::new(alloc)),
    )
}

/// A file by the changes to the hand-made one and its length, the numbers for which it is copied, and what
/// `check` puts of the copy.
#[derive(Clone, Copy)]
struct Row {
    base: &'static [Change],
    length: usize,
    words: &'static [&'static str],
    checks: &'static str,
}

const ROWS: &[Row] = &[
    // One object, also where the file has its digest.
    Row {
        base: &[],
        length: 19_608,
        words: &["load", "f", "64", "17"],
        checks: "store 64 17 1 5 5 2 still\n",
    },
    Row {
        base: HELLO_DIGESTED,
        length: 19_608,
        words: LOAD,
        checks: "store 9 16 1 5 5 2 still\n",
    },
    // A file in the middle of a flush: its buffers are halves of their segments, or none.
    Row {
        base: &MOVING,
        length: 19_857,
        words: &["load", "f", "2", "1024"],
        checks: "store 2 1024 3 115 172 2 still\n",
    },
    Row {
        base: &MOVING,
        length: 19_857,
        words: &["load", "f", "64", "16"],
        checks: "store 64 16 3 115 116 2 still\n",
    },
];

/// The dump of a file, which isn't changed by it.
fn dumped(rt: &impl Abort, alloc: Global, file: MemDisk) -> Vec<u8> {
    let ran = told(rt, alloc, file, DUMP);
    try_outcome(rt, ran.outcome, ended(0), &"dump");
    try_number(rt, ran.disk.turns(), 0, &"turns");
    ran.put
}

/// The dump of a copy is the one that was loaded.
fn try_copy(rt: &impl Abort, alloc: Global, copy: MemDisk, text: &[u8]) {
    let again = told(rt, alloc, copy, DUMP);
    try_bytes(rt, &again.put, text, &"again");
}

/// The dump of a file is loaded, and the copy has the same dump.
fn try_row(rt: &impl Abort, alloc: Global, row: &Row) {
    let file = got(rt, disk(alloc, row.length, row.base, &[]));
    let text = dumped(rt, alloc, file);
    let ran = run_there(rt, alloc, row.words, MemDisk::new(alloc), &text);
    try_bytes(rt, &ran.put, b"loaded\n", &row.words);
    let copy = try_told(rt, alloc, ran.disk, CHECK, row.checks, &row.words);
    try_copy(rt, alloc, copy, &text);
}

#[test]
fn copies_a_map(rt: HostRuntime) {
    for row in ROWS {
        try_row(&rt, rt.alloc(), row);
    }
}

/// Objects without bytes of 17 names.
const NAMES: &[&str] = &[
    "dump 17 0 0 0 0 0 0 0 0 0 0 0 0 0 0 0 0 0 0 0 0 0 0 0 0 0 0 0\n",
    "put a 0\n\nput b 0\n\nput c 0\n\nput d 0\n\nput e 0\n\nput f 0\n\nput g 0\n\nput h 0\n\nput i 0\n\n",
    "put j 0\n\nput k 0\n\nput l 0\n\nput m 0\n\nput n 0\n\nput o 0\n\nput p 0\n\nput q 0\n\n",
];

/// For 16 names there are too many, and the file is left without bytes; for 17 there are not.
#[test]
fn has_room_for_as_many_names(rt: HostRuntime) {
    let text = got(&rt, joined(rt.alloc(), NAMES));
    let new = MemDisk::new(rt.alloc());
    let ran = run_there(&rt, rt.alloc(), LOAD, new, &text);
    try_bytes(&rt, &ran.put, b"fault too many 17\n", &"16");
    let ran = run_there(&rt, rt.alloc(), &["load", "f", "9", "17"], ran.disk, &text);
    try_bytes(&rt, &ran.put, b"loaded\n", &"17");
}

/// The dump of one object of 200,000 bytes, whose class is 17, up to its bytes.
const LONG: &str =
    "dump 1 0 0 0 0 0 0 0 0 0 0 0 0 0 0 0 0 0 200000 0 0 0 0 0 0 0 0 0\nput a 200000\n";

/// That dump.
fn long(rt: &impl Abort, alloc: Global) -> Vec<u8> {
    let mut text = got(rt, joined(alloc, &[LONG]));
    for n in 0..200_000usize {
        text.push((n % 251) as u8).expect(rt, "memory");
    }
    text.push(b'\n').expect(rt, "memory");
    text
}

/// It is written in four pieces, and is put as it was.
#[test]
fn writes_a_large_object_in_pieces(rt: HostRuntime) {
    let text = long(&rt, rt.alloc());
    let new = MemDisk::new(rt.alloc());
    let ran = run_there(&rt, rt.alloc(), LOAD, new, &text);
    try_number(&rt, ran.disk.turns(), 22, &"turns");
    try_copy(&rt, rt.alloc(), ran.disk, &text);
}

/// The dump without its last object.
const CUT: &[&str] = &[HEAD, PUT_A, PUT_B];

/// What a load of these leaves is no file to load into.
const LEFT: &[(&[&str], &str)] = &[(CUT, EMPTY), (PARTS, WHOLE)];

/// A load of some parts, and once more.
fn try_taken(rt: &impl Abort, alloc: Global, parts: &[&str], checks: &str) {
    let text = got(rt, joined(alloc, parts));
    let file = run_there(rt, alloc, LOAD, MemDisk::new(alloc), &text).disk;
    let turns = file.turns();
    let ran = run_there(rt, alloc, LOAD, file, &text);
    try_end(rt, &ran, 5, "fault taken 19730\n", &checks);
    try_number(rt, ran.disk.turns(), turns, &checks);
    try_told(rt, alloc, ran.disk, CHECK, checks, &checks);
}

#[test]
fn loads_into_no_file_that_has_bytes(rt: HostRuntime) {
    for (parts, checks) in LEFT {
        try_taken(&rt, rt.alloc(), *parts, *checks);
    }
}

/// A file of one byte.
#[test]
fn leaves_a_file_of_one_byte(rt: HostRuntime) {
    let text = got(&rt, joined(rt.alloc(), PARTS));
    let file = MemDisk::from_bytes(rt.alloc(), b"x").expect(&rt, "memory");
    let ran = run_there(&rt, rt.alloc(), LOAD, file, &text);
    try_bytes(&rt, &ran.put, b"fault taken 1\n", &"one");
    try_number(&rt, ran.disk.turns(), 0, &"one");
}
