//! Runs over a disk that fails at one call.
use crate::answers::{
    FORMAT, GET, got, is_front_of_long, numbered, try_answer, try_command, try_holds, try_outcome,
};
use crate::images::{Change, LONG, LONG_DIGESTED, disk, image};
use crate::runs::{Ran, ended, run_on};
use disk_mem::{Fuse, MemDisk};
use plain_layout::put;
use std::alloc::Global;
use std::process::Abort;

/// `get f a` of a file over a fuse that fails the read of a number.
fn get_failing(rt: &impl Abort, alloc: Global, file: MemDisk, number: u64) -> Ran<Fuse<MemDisk>> {
    let fuse = Fuse::listed(file, Vec::new(alloc), numbered(rt, alloc, number));
    got(rt, run_on(alloc, GET, true, fuse, Vec::new(alloc)))
}

/// What that puts of the object of 5 bytes, which is read by the tenth call, in one piece.
fn try_read(rt: &impl Abort, alloc: Global, number: u64) {
    let file = got(rt, disk(alloc, 19608, &[], &[]));
    let ran = get_failing(rt, alloc, file, number);
    let (status, puts) = if number <= 10 {
        (7, "fault disk\n")
    } else {
        (0, "hello")
    };
    try_answer(rt, &ran, status, puts);
}

#[test]
fn tells_each_failing_read(rt: HostRuntime) {
    for number in 1..12 {
        try_read(&rt, rt.alloc(), number);
    }
}

/// The number of a read that fails, the status, and how much is put of the object of 160,000 bytes.
const PIECES: &[(u64, u8, usize)] = &[
    (10, 7, 0),
    (11, 7, 65_536),
    (12, 7, 131_072),
    (13, 0, 160_000),
];

/// The same of a file of version 2, whose object has its digest: it is read once before any of it is put.
const CHECKED_PIECES: &[(u64, u8, usize)] = &[
    (10, 7, 0),
    (11, 7, 0),
    (12, 7, 0),
    (13, 7, 0),
    (14, 7, 65_536),
    (15, 7, 131_072),
    (16, 0, 160_000),
];

/// What a read puts of the object of 160,000 bytes before the fault line.
fn try_long(
    rt: &impl Abort,
    alloc: Global,
    then: &[Change],
    number: u64,
    status: u8,
    front: usize,
) {
    let file = got(rt, disk(alloc, 197_380, LONG, then));
    let ran = get_failing(rt, alloc, file, number);
    let line = if status == 7 { "fault disk\n" } else { "" };
    try_outcome(rt, ran.outcome, ended(status), &number);
    let is_front = is_front_and_line(&ran.put, front, line);
    try_holds(rt, is_front, &number);
}

/// Whether bytes are a front of that object, and then a line.
fn is_front_and_line(bytes: &[u8], front: usize, line: &str) -> bool {
    match bytes.strip_suffix(line.as_bytes()) {
        Some(given) => is_front_of_long(given, front),
        None => false,
    }
}

#[test]
fn puts_what_it_read_before_a_failing_read(rt: HostRuntime) {
    for (number, status, front) in PIECES {
        try_long(&rt, rt.alloc(), &[], *number, *status, *front);
    }
}

#[test]
fn puts_nothing_before_it_read_for_the_digest(rt: HostRuntime) {
    for (number, status, front) in CHECKED_PIECES {
        try_long(&rt, rt.alloc(), LONG_DIGESTED, *number, *status, *front);
    }
}

/// An object of three pieces whose last byte was changed, over a disk whose read of a number fails, and what
/// `get f a` comes to. It is read once.
const DAMAGED_PIECES: &[(u64, u8, &str)] = &[(12, 7, "fault disk\n"), (13, 13, "fault damaged\n")];

/// That file.
fn damaged(rt: &impl Abort, alloc: Global) -> MemDisk {
    let mut bytes = got(rt, image(alloc, 197_380, LONG, LONG_DIGESTED));
    put(&mut bytes, &[(179_602, b'l')]);
    MemDisk::from_bytes(alloc, &bytes).expect(rt, "memory")
}

fn try_damaged(rt: &impl Abort, alloc: Global, number: u64, status: u8, puts: &str) {
    let ran = get_failing(rt, alloc, damaged(rt, alloc), number);
    try_answer(rt, &ran, status, puts);
}

#[test]
fn puts_nothing_of_a_damaged_object(rt: HostRuntime) {
    for (number, status, puts) in DAMAGED_PIECES {
        try_damaged(&rt, rt.alloc(), *number, *status, *puts);
    }
}

/// The number of the changing call of a format that failed, and what `get f a` then comes to. After the
/// tenth, the last sync, reads give a store that a crash might not leave.
const FORMATS: &[(u64, u8, &str)] = &[
    (1, 4, "fault store slot 1\n"),
    (2, 4, "fault store codec 1 at 0\n"),
    (3, 4, "fault store slot 1\n"),
    (4, 4, "fault store slot 1\n"),
    (5, 4, "fault store slot 1\n"),
    (6, 4, "fault store slot 1\n"),
    (7, 4, "fault store slot 1\n"),
    (8, 4, "fault store slot 1\n"),
    (9, 4, "fault store slot 2\n"),
    (10, 6, "fault missing\n"),
];

/// A format of which the changing call of a number failed, and what `get f a` then comes to.
fn try_format(rt: &impl Abort, alloc: Global, number: u64, status: u8, puts: &str) {
    let none = MemDisk::new(alloc);
    let fuse = Fuse::listed(none, numbered(rt, alloc, number), Vec::new(alloc));
    let ran = got(rt, run_on(alloc, FORMAT, false, fuse, Vec::new(alloc)));
    try_answer(rt, &ran, 7, "fault disk\n");
    let file = ran.disk.into_inner();
    try_command(rt, alloc, file, GET, status, puts);
}

#[test]
fn tells_no_format_whose_call_failed(rt: HostRuntime) {
    for (number, status, puts) in FORMATS {
        try_format(&rt, rt.alloc(), *number, *status, *puts);
    }
}
