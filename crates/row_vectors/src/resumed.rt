//! A hand-made file that stopped within a flush, and what a session without a request makes of it.
use crate::Outcome;
use crate::answers::{
    CHECK, MAP, MOVED, got, try_bytes, try_command, try_ends, try_number, try_outcome,
};
use crate::images::{Change, disk};
use crate::runs::session;
use disk_face::Disk;
use disk_mem::MemDisk;
use std::alloc::Global;
use std::process::Abort;

/// What `map` puts once the flush is done.
const SETTLED: &str = "class 2 5 0 0\nclass 3 10 1 0\nclass 6 100 11 0\n\
    object a 16 100\nobject b 5 10\nobject c 0 5\n";

/// How that session ends: after three moves, seven calls of a save, the cut and its sync.
const RESUMED: Outcome = Outcome {
    status: 0,
    done: 0,
    kept_done: 0,
    kept_turn: 12,
};

/// The file, changed further, as `check` finds it. The disk is given back.
fn try_stopped(rt: &impl Abort, alloc: Global, marks: &[Change]) -> MemDisk {
    let file = got(rt, disk(alloc, 19_857, MOVED, marks));
    let stopped = "store 9 16 3 115 254 1 moving\n";
    let file = try_command(rt, alloc, file, CHECK, 0, stopped);
    try_number(rt, file.turns(), 0, &"check");
    file
}

/// Goes on with the flush of the file. The disk is given back.
fn try_session(rt: &impl Abort, alloc: Global, file: MemDisk) -> MemDisk {
    let ran = got(rt, session(alloc, file, b"", 1));
    try_bytes(rt, &ran.put, b"", &"session");
    try_outcome(rt, ran.outcome, RESUMED, &"session");
    try_number(rt, ran.disk.turns(), 12, &"session");
    ran.disk
}

/// The file once the flush is done. The disk is given back.
fn try_settled(rt: &impl Abort, alloc: Global, resumed: MemDisk) -> MemDisk {
    let opened = "store 9 16 3 115 127 2 still\n";
    let mut file = try_command(rt, alloc, resumed, CHECK, 0, opened);
    try_number(rt, file.len().expect(rt, "a length"), 19_730, &"length");
    try_command(rt, alloc, file, MAP, 0, SETTLED)
}

/// All three. The disk is given back.
fn try_resumed(rt: &impl Abort, alloc: Global, marks: &[Change]) -> MemDisk {
    let file = try_stopped(rt, alloc, marks);
    let file = try_session(rt, alloc, file);
    try_settled(rt, alloc, file)
}

#[test]
fn goes_on_with_a_hand_made_flush(rt: HostRuntime) {
    try_resumed(&rt, rt.alloc(), &[]);
}

/// The first and the last byte of each object.
const MARKS: &[Change] = &[
    (19_742, b'<'),
    (19_841, b'>'),
    (19_842, b'<'),
    (19_851, b'>'),
    (19_852, b'<'),
    (19_856, b'>'),
];

/// The objects and their lengths.
const OBJECTS: &[(&str, u64)] = &[("a", 100), ("b", 10), ("c", 5)];

/// Each object has its bytes.
fn try_objects(rt: &impl Abort, alloc: Global, settled: MemDisk) {
    let mut file = settled;
    for (name, length) in OBJECTS {
        file = try_ends(rt, alloc, *name, file, *length);
    }
}

#[test]
fn brings_each_object_with_its_bytes(rt: HostRuntime) {
    let file = try_resumed(&rt, rt.alloc(), MARKS);
    try_objects(&rt, rt.alloc(), file);
}
