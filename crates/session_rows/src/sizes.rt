//! Objects of sizes at the bounds of a class, and one that is too large, by sessions.
ghost use Rattle.std.specs.Prelude.{◌<◌, IsTrue};

use crate::answers::{MAP, fresh, got, try_number, try_text, try_told};
use crate::cases::{Left, PIECES, try_file};
use disk_face::Disk;
use disk_mem::{MemSource, PlainDisk};
use row_vectors::Outcome;
use row_vectors::runs::{Ran, run_on, run_with, session};
use size_class::SIZE_MAX;
use std::alloc::Global;
use std::process::Abort;

/// How many bytes of an object are added at a time.
const PIECE: usize = 65_536;

/// Adds these bytes.
fn add(rt: &impl Abort, input: &mut Vec<u8>, bytes: &[u8]) {
    input.extend_from_slice(bytes).expect(rt, "memory");
}

/// Adds an object of so many bytes.
fn add_object(rt: &impl Abort, input: &mut Vec<u8>, size: usize) {
    let piece = vec![in *input.allocator(); b'x'; PIECE].expect(rt, "memory");
    'pieces: for _ in 0..size / PIECE {
        add(rt, input, &piece);
    }
    add(rt, input, &piece[..size % PIECE]);
}

/// A put of an object `x` of so many bytes.
fn put_of(rt: &impl Abort, alloc: Global, size: usize) -> Vec<u8> {
    let line = format!(in alloc; "put x {size}\n").expect(rt, "memory");
    let mut input = Vec::with_capacity(alloc, size.saturating_add(64)).expect(rt, "memory");
    add(rt, &mut input, line.as_bytes());
    add_object(rt, &mut input, size);
    add(rt, &mut input, b"\n");
    input
}

/// A size, and what is left once an object of it is put on a fresh file.
#[derive(Clone, Copy)]
struct Row {
    size: usize,
    left: Left,
    /// What `map` then puts.
    map: &'static str,
}

macro_rules! rows {
    ($($size:literal => $calls:literal calls, $length:literal bytes, $check:literal $map:literal;)*) => {
        [$(Row {
            size: $size,
            left: Left { calls: $calls, length: $length, check: $check },
            map: $map,
        }),*]
    };
}

/// The answer to the put, and how many calls were made with the ten of the format.
fn try_put<D: Disk>(rt: &impl Abort, ran: &Ran<D>, row: &Row) {
    let turn = row.left.calls.saturating_add(10);
    let outcome = Outcome {
        status: 0,
        done: 1,
        kept_done: 1,
        kept_turn: turn,
    };
    try_text(rt, ran, "ok kept\n", outcome, &row.size);
    try_number(rt, ran.disk.turns(), turn, &row.size);
}

/// The answer to the put, what it leaves, and what `map` puts.
fn try_left<D: Disk + Drop>(rt: &impl Abort, alloc: Global, ran: Ran<D>, row: &Row)
    requires ready { IsTrue (D.state ran.disk).is_ready }
{
    try_put(rt, &ran, row);
    let disk = try_file(rt, alloc, ran.disk, &row.left);
    try_told(rt, alloc, disk, MAP, row.map, &row.size);
}

/// Puts an object on a fresh file in pieces of a size.
fn try_row(rt: &impl Abort, alloc: Global, input: &[u8], row: &Row, piece: usize) {
    let ran = got(rt, session(alloc, fresh(rt, alloc), input, piece));
    try_left(rt, alloc, ran, row);
}

/// Puts an object in each size of pieces.
fn try_pieces(rt: &impl Abort, alloc: Global, row: &Row) {
    let input = put_of(rt, alloc, row.size);
    for piece in PIECES {
        try_row(rt, alloc, &input, row, *piece);
    }
}

/// Puts an object of each size on a fresh file.
fn try_rows(rt: &impl Abort, alloc: Global, rows: &[Row]) {
    for row in rows {
        try_pieces(rt, alloc, row);
    }
}

/// The smallest sizes.
const SMALLEST: &[Row] = &rows! {
    1 => 12 calls, 19_604 bytes, "store 9 16 1 1 1 2 still\n" "class 0 1 0 0\nobject x 0 1\n";
    2 => 12 calls, 19_605 bytes, "store 9 16 1 2 2 2 still\n" "class 1 2 0 0\nobject x 0 2\n";
    3 => 12 calls, 19_606 bytes, "store 9 16 1 3 3 2 still\n" "class 1 3 0 0\nobject x 0 3\n";
    4 => 12 calls, 19_607 bytes, "store 9 16 1 4 4 2 still\n" "class 2 4 0 0\nobject x 0 4\n";
};

#[test]
fn sets_each_size_in_its_class(rt: HostRuntime) {
    try_rows(&rt, rt.alloc(), SMALLEST);
}

/// Large sizes. Each object is moved in 16 pieces of 65,536 bytes or less.
const LARGE: &[Row] = &rows! {
    1_048_575 => 27 calls, 1_184_686 bytes, "store 9 16 1 1048575 1165083 2 still\n"
        "class 19 1048575 116508 0\nobject x 0 1048575\n";
    1_048_576 => 27 calls, 1_184_687 bytes, "store 9 16 1 1048576 1165084 2 still\n"
        "class 20 1048576 116508 0\nobject x 0 1048576\n";
};

#[test]
fn sets_large_sizes_in_their_classes(rt: HostRuntime) {
    try_rows(&rt, rt.alloc(), LARGE);
}

/// The largest sizes. Each object is moved in 1,024 pieces, and has a buffer of 7,456,540 bytes.
const LARGEST: &[Row] = &rows! {
    67_108_863 => 1_035 calls, 74_585_006 bytes, "store 9 16 1 67108863 74565403 2 still\n"
        "class 25 67108863 7456540 0\nobject x 0 67108863\n";
    67_108_864 => 1_035 calls, 74_585_007 bytes, "store 9 16 1 67108864 74565404 2 still\n"
        "class 26 67108864 7456540 0\nobject x 0 67108864\n";
};

/// How far a fresh file reaches while the largest object is put.
const LARGEST_REACH: u64 = 208_802_736;

/// The words of a format, and of a session.
const FORMAT: &[&str] = &["format", "f", "9", "16"];

const RUN: &[&str] = &["run", "f"];

/// How many bytes of a long input come at a time: a little less than is read ahead, and a lot more.
const LONG_PIECES: &[usize] = &[4_095, 65_536];

/// A fresh file of a disk that keeps no record.
fn made(rt: &impl Abort, alloc: Global) -> PlainDisk {
    let new = PlainDisk::with_room(alloc, LARGEST_REACH).expect(rt, "memory");
    got(rt, run_on(alloc, FORMAT, false, new, Vec::new(alloc))).disk
}

/// Puts an object on a fresh file of a disk that keeps no record.
fn put_plainly(rt: &impl Abort, alloc: Global, size: usize, piece: usize) -> Ran<PlainDisk>
    requires { 0 < piece }
{
    let source = MemSource::new(put_of(rt, alloc, size), piece, Vec::new(alloc));
    let disk = made(rt, alloc);
    got(
        rt,
        run_with(alloc, RUN, true, disk, source, Vec::new(alloc)),
    )
}

#[test]
fn sets_the_largest_sizes_in_their_classes(rt: HostRuntime) {
    for row in LARGEST {
        let ran = put_plainly(&rt, rt.alloc(), row.size, 65_536);
        try_left(&rt, rt.alloc(), ran, row);
    }
}

/// What is put where the object is too large.
const TOO_LARGE: &str = "refused size\nrefused missing\nstat 0 0 0 0\n";

/// How that session ends.
const REFUSED: Outcome = Outcome {
    status: 0,
    done: 3,
    kept_done: 0,
    kept_turn: 10,
};

/// Serves a put that is too large, and two requests behind it.
fn try_too_large(rt: &impl Abort, alloc: Global, input: &[u8], piece: usize) {
    let ran = got(rt, session(alloc, fresh(rt, alloc), input, piece));
    try_text(rt, &ran, TOO_LARGE, REFUSED, &piece);
    try_number(rt, ran.disk.turns(), 10, &piece);
}

#[test]
fn reads_an_object_that_is_too_large_to_its_end(rt: HostRuntime) {
    let mut input = put_of(&rt, rt.alloc(), SIZE_MAX as usize + 1);
    add(&rt, &mut input, b"get x\nstat\n");
    for piece in LONG_PIECES {
        try_too_large(&rt, rt.alloc(), &input, *piece);
    }
}
