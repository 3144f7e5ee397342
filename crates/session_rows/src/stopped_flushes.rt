//! A flush that stopped within or behind its first save, and an empty session that goes on with it.
use crate::answers::{got, try_number, try_text};
use crate::images::{image_at, try_check};
use crate::moments::try_kept;
use crate::requests::served;
use disk_mem::{Choice, MemDisk};
use row_vectors::Outcome;
use row_vectors::runs::session;
use std::alloc::Global;
use std::process::Abort;

/// An image of a turn of the put of 5 bytes, and what `check` puts of it and of what an opening leaves.
#[derive(Clone, Copy)]
struct Row {
    turn: u64,
    choice: Choice,
    stopped: &'static str,
    calls: u64,
    opened: &'static str,
}

macro_rules! rows {
    ($($turn:literal, $choice:expr => $stopped:expr, $calls:literal, $opened:expr;)*) => {
        [$(Row { turn: $turn, choice: $choice, stopped: $stopped, calls: $calls, opened: $opened }),*]
    };
}

/// The flush before its first checkpoint, and the file once it is opened.
const BEFORE: &str = "store 9 16 1 100 254 2 still\n";

const OLD: &str = "store 9 16 1 100 111 2 still\n";

/// The flush from there on, and the file once it is opened.
const MOVING: &str = "store 9 16 3 115 254 3 moving\n";

const NEW: &str = "store 9 16 3 115 127 4 still\n";

/// The image of a row as `check` finds it.
fn stopped(
    rt: &impl Abort,
    alloc: Global,
    disk: &MemDisk,
    row: &Row,
    at: (u64, Choice),
) -> Vec<u8> {
    let image = image_at(rt, disk, at.0, at.1);
    try_number(rt, image.len() as u64, 19_857, &at);
    try_check(rt, alloc, &image, 0, row.stopped, at);
    image
}

/// Opens an image by a session without a request. The disk is given back.
fn opened(rt: &impl Abort, alloc: Global, image: &[u8], row: &Row, at: (u64, Choice)) -> MemDisk {
    let disk = MemDisk::from_bytes(alloc, image).expect(rt, "memory");
    let ran = got(rt, session(alloc, disk, b"", 1));
    let outcome = Outcome {
        status: 0,
        done: 0,
        kept_done: 0,
        kept_turn: row.calls,
    };
    try_text(rt, &ran, "", outcome, &at);
    ran.disk
}

/// The image of a row, and what the file durably is once it was opened.
fn try_row(rt: &impl Abort, alloc: Global, disk: &MemDisk, row: &Row) {
    // The put begins at the 23rd turn.
    let at = (row.turn.saturating_add(23), row.choice);
    let image = stopped(rt, alloc, disk, row, at);
    let opened = opened(rt, alloc, &image, row, at);
    try_kept(rt, alloc, &opened, row.calls, row.opened, at);
}

/// The images. The fourth call packs, the fifth to the eleventh save: the tenth opens the gate.
const ROWS: &[Row] = &rows! {
    3, Choice::Torn(0x5A) => BEFORE, 2, OLD;
    9, Choice::Durable => BEFORE, 2, OLD;
    9, Choice::Newest => BEFORE, 2, OLD;
    9, Choice::Torn(0) => BEFORE, 2, OLD;
    9, Choice::Torn(0xA5) => MOVING, 12, NEW;
    10, Choice::Durable => BEFORE, 2, OLD;
    10, Choice::Newest => MOVING, 12, NEW;
    10, Choice::Torn(0) => BEFORE, 2, OLD;
    10, Choice::Torn(0xA5) => MOVING, 12, NEW;
    11, Choice::Durable => MOVING, 12, NEW;
};

#[test]
fn goes_on_with_a_flush_that_stopped(rt: HostRuntime) {
    let disk = served(&rt, rt.alloc());
    for row in ROWS {
        try_row(&rt, rt.alloc(), &disk, row);
    }
}
