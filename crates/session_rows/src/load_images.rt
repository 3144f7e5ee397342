//! A load: what a crash leaves of it at each turn is no store, the empty map, or the map of the dump.
use crate::answers::{CHECK, got, try_holds};
use crate::images::{CHOICES, image_at};
use crate::loaded::{EMPTY, LOAD, PARTS, WHOLE, load};
use disk_mem::{Choice, MemDisk};
use row_vectors::runs::{joined, run};
use std::alloc::Global;
use std::process::Abort;

/// The lines of `check` of some images: of no store, and of the store that was formatted. It is as long as
/// its layout once the eleventh call was made.
const SHORT: &str = "fault store slot 1\n";

const UNMARKED: &str = "fault store codec 1 at 0\n";

const UNFORMATTED: &str = "fault store slot 2\n";

const FORMATTED: &str = "store 9 16 0 0 0 1 still\n";

/// From which turn on, and below which, an image has one of these lines.
const ROWS: &[(u64, u64, &[&str])] = &[
    (0, 10, &[SHORT, UNMARKED, UNFORMATTED, FORMATTED]),
    (10, 19, &[FORMATTED, EMPTY]),
    // The records and the header are synced, and then the gate is written and synced.
    (19, 21, &[EMPTY, WHOLE]),
    (21, 22, &[WHOLE]),
];

/// Whether this is one of these lines.
fn is_one_of(put: &[u8], lines: &[&str]) -> bool {
    let mut known = false;
    for line in lines {
        known = known || line.as_bytes() == put;
    }
    known
}

/// `check` of an image puts one of these lines.
fn try_image(rt: &impl Abort, alloc: Global, disk: &MemDisk, at: (u64, Choice), lines: &[&str]) {
    let image = image_at(rt, disk, at.0, at.1);
    let ran = got(rt, run(alloc, CHECK, &image));
    try_holds(rt, is_one_of(&ran.put, lines), &at);
}

/// The images of a turn.
fn try_turn(rt: &impl Abort, alloc: Global, disk: &MemDisk, turn: u64, lines: &[&str]) {
    for choice in CHOICES {
        try_image(rt, alloc, disk, (turn, *choice), lines);
    }
}

/// The images of some turns.
fn try_turns(rt: &impl Abort, alloc: Global, disk: &MemDisk, from: u64, to: u64, lines: &[&str]) {
    for turn in from..to {
        try_turn(rt, alloc, disk, turn, lines);
    }
}

#[test]
fn leaves_no_part_of_a_map(rt: HostRuntime) {
    let input = got(&rt, joined(rt.alloc(), PARTS));
    let ran = load(&rt, rt.alloc(), LOAD, MemDisk::new(rt.alloc()), &input, 64);
    for (from, to, lines) in ROWS {
        try_turns(&rt, rt.alloc(), &ran.disk, *from, *to, *lines);
    }
}
