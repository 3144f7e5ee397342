//! Formats, what they leave of a file, and formats that stop.
use crate::answers::{
    FORMAT, GET, Told, got, told, try_answer, try_command, try_holds, try_number,
};
use crate::images::image;
use crate::runs::run_on;
use disk_face::Disk;
use disk_mem::{Choice, Fuse, MemDisk};
use std::alloc::Global;
use std::process::Abort;

/// What the commands put of a new store.
const NEW: &[Told] = &told! {
    ["get", "f", "a"] => 6 "fault missing\n";
    ["check", "f"] => 0 "store 9 16 0 0 0 1 still\n";
    ["map", "f"] => 0 "";
};

/// A format of a file that isn't there, in ten changing calls, and how long the file is then. The disk is
/// given back.
pub(crate) fn try_format(rt: &impl Abort, alloc: Global, words: &[&str], length: u64) -> MemDisk {
    let ran = got(
        rt,
        run_on(alloc, words, false, MemDisk::new(alloc), Vec::new(alloc)),
    );
    try_answer(rt, &ran, 0, "formatted\n");
    let mut file = ran.disk;
    try_number(rt, file.turns(), 10, &"turns");
    try_number(rt, file.len().expect(rt, "a length"), length, &"length");
    file
}

/// What the commands put of the new store. The disk is given back.
fn try_new(rt: &impl Abort, alloc: Global, new: MemDisk) -> MemDisk {
    let mut file = new;
    for row in NEW {
        file = try_command(rt, alloc, file, row.words, row.status, row.puts);
    }
    file
}

#[test]
fn formats_a_file_that_is_not_there(rt: HostRuntime) {
    let new = try_format(&rt, rt.alloc(), FORMAT, 19_603);
    let file = try_new(&rt, rt.alloc(), new);
    try_number(&rt, file.turns(), 10, &"commands");
}

/// The lengths of files that aren't empty, and what a format puts of them.
const TAKEN: &[(usize, &str)] = &[
    (1, "fault taken 1\n"),
    (64, "fault taken 64\n"),
    (19608, "fault taken 19608\n"),
];

/// A format of a file of some bytes, which leaves each of them.
fn try_taken(rt: &impl Abort, alloc: Global, length: usize, puts: &str) {
    let bytes = got(rt, image(alloc, length, &[], &[]));
    let before = MemDisk::from_bytes(alloc, &bytes).expect(rt, "memory");
    let after = try_command(rt, alloc, before, FORMAT, 5, puts);
    try_holds(rt, bytes.len() == length, &puts);
    try_kept(rt, &after, &bytes);
}

/// A file that is as it was.
fn try_kept(rt: &impl Abort, file: &MemDisk, bytes: &[u8]) {
    try_number(rt, file.turns(), 0, &"turns");
    let kept = file.image(0, Choice::Newest).expect(rt, "memory");
    try_holds(rt, kept.as_slice() == bytes, &"bytes");
}

#[test]
fn leaves_a_file_that_is_not_empty(rt: HostRuntime) {
    for (length, puts) in TAKEN {
        try_taken(&rt, rt.alloc(), *length, *puts);
    }
}

/// What a format over a disk that makes so many changing calls comes to, and then `get f a` of what is left.
#[derive(Clone, Copy)]
struct Stop {
    calls: u64,
    formats: (u8, &'static str),
    gets: (u8, &'static str),
}

macro_rules! stops {
    ($($calls:literal => $status:literal $formats:literal, $gets:literal $puts:literal;)*) => {
        [$(Stop { calls: $calls, formats: ($status, $formats), gets: ($gets, $puts) }),*]
    };
}

/// Each number of calls.
const STOPS: &[Stop] = &stops! {
    0 => 7 "fault disk\n", 4 "fault store slot 1\n";
    1 => 7 "fault disk\n", 4 "fault store codec 1 at 0\n";
    2 => 7 "fault disk\n", 4 "fault store slot 1\n";
    3 => 7 "fault disk\n", 4 "fault store slot 1\n";
    4 => 7 "fault disk\n", 4 "fault store slot 1\n";
    5 => 7 "fault disk\n", 4 "fault store slot 1\n";
    6 => 7 "fault disk\n", 4 "fault store slot 1\n";
    7 => 7 "fault disk\n", 4 "fault store slot 1\n";
    8 => 7 "fault disk\n", 4 "fault store slot 2\n";
    9 => 7 "fault disk\n", 6 "fault missing\n";
    10 => 0 "formatted\n", 6 "fault missing\n";
};

/// Formats over a disk that fails after so many changing calls.
fn try_stop(rt: &impl Abort, alloc: Global, stop: &Stop) {
    let fuse = Fuse::stop_after(MemDisk::new(alloc), stop.calls);
    let ran = got(rt, run_on(alloc, FORMAT, false, fuse, Vec::new(alloc)));
    try_answer(rt, &ran, stop.formats.0, stop.formats.1);
    let file = ran.disk.into_inner();
    try_number(rt, file.turns(), stop.calls, &"turns");
    try_command(rt, alloc, file, GET, stop.gets.0, stop.gets.1);
}

#[test]
fn is_no_store_where_a_format_stopped(rt: HostRuntime) {
    for stop in STOPS {
        try_stop(&rt, rt.alloc(), stop);
    }
}
