//! Sessions whose disk, input or output fails at one call.
use crate::answers::{
    fresh, got, numbered, serve_parts, stored, try_holds, try_number, try_ran, try_text,
};
use crate::cases::{Case, Left, PIECES, try_case, try_file};
use disk_face::Disk;
use disk_mem::{Choice, Fuse, MemDisk, MemSource};
use row_vectors::Outcome;
use row_vectors::inputs::{DATA_A, KEPT, OK, PUT_A, PUT_B, PUT_C};
use row_vectors::runs::{Ran, joined, run_with, session};
use std::alloc::Global;
use std::process::Abort;

/// The put of 5 bytes begins after 13 calls of the session; its fifth closes the gate of the slot that isn't
/// in use. The failed one is no call of the disk inside, which so has made 17.
const FAILING: &Case = &Case {
    input: &[PUT_A, PUT_B, PUT_C, "get a\n"],
    puts: &[KEPT, OK, "fault disk\n"],
    outcome: Outcome {
        status: 7,
        done: 2,
        kept_done: 1,
        kept_turn: 22,
    },
    left: Left {
        calls: 17,
        length: 19_857,
        check: "store 9 16 1 100 254 2 still\n",
    },
};

/// The next session.
const OPENED: &Case = &Case {
    input: &["list\n", "get a\n"],
    puts: &["list 1\na 100\n", DATA_A],
    outcome: Outcome {
        status: 0,
        done: 2,
        kept_done: 0,
        kept_turn: 29,
    },
    left: Left {
        calls: 2,
        length: 19_714,
        check: "store 9 16 1 100 111 2 still\n",
    },
};

/// Serves the session in a fuse, of which that call fails, and gives the disk inside back.
fn failed(rt: &impl Abort, alloc: Global, fuse: Fuse<MemDisk>, piece: usize) -> MemDisk {
    let ran = serve_parts(rt, alloc, fuse, FAILING.input, piece);
    try_number(rt, ran.disk.turns(), 28, &"fuse");
    try_ran(rt, alloc, &ran, FAILING.puts, FAILING.outcome, &piece);
    ran.disk.into_inner()
}

/// What it leaves: the format made 10 calls.
fn try_failing(rt: &impl Abort, alloc: Global, fuse: Fuse<MemDisk>, piece: usize) -> MemDisk {
    let disk = failed(rt, alloc, fuse, piece);
    try_number(rt, disk.turns(), 27, &"disk");
    try_file(rt, alloc, disk, &FAILING.left)
}

/// Both sessions.
fn try_both(rt: &impl Abort, alloc: Global, piece: usize) {
    let fuse = Fuse::listed(fresh(rt, alloc), numbered(rt, alloc, 18), Vec::new(alloc));
    let disk = try_failing(rt, alloc, fuse, piece);
    try_case(rt, alloc, disk, OPENED, piece);
}

#[test]
fn ends_at_a_failing_call_and_opens_again(rt: HostRuntime) {
    for piece in PIECES {
        try_both(&rt, rt.alloc(), *piece);
    }
}

/// A session that reads the one object of a file, over a fuse that fails one read.
fn read_failing(
    rt: &impl Abort,
    alloc: Global,
    file: &[u8],
    number: u64,
    piece: usize,
) -> Ran<Fuse<MemDisk>> {
    let disk = MemDisk::from_bytes(alloc, file).expect(rt, "memory");
    let fuse = Fuse::listed(disk, Vec::new(alloc), numbered(rt, alloc, number));
    got(rt, session(alloc, fuse, b"get a\n", piece))
}

/// Whether such a session put what it should: nothing of the reply where the read failed, since the
/// first line is put once the first piece was read; else all of it.
fn is_answered(put: &[u8], outcome: &Outcome) -> bool {
    if outcome.status == 7 {
        return put == b"fault disk\n".as_slice();
    }
    put == DATA_A.as_bytes() && outcome.status == 0 && outcome.done == 1
}

/// What a session puts of which one read fails, and that it changes nothing. Answers whether one did.
fn try_read(rt: &impl Abort, ran: Ran<Fuse<MemDisk>>, number: u64) -> bool {
    try_holds(rt, is_answered(&ran.put, &ran.outcome), &number);
    let has_failed = ran.outcome.status == 7;
    try_number(rt, ran.disk.into_inner().turns(), 0, &number);
    has_failed
}

/// A session of each number of the read that fails. Those of an opening and of the object fail, the others
/// are none of the session.
fn try_reads(rt: &impl Abort, alloc: Global, file: &[u8], piece: usize) {
    let mut last = 0u64;
    for number in 1..40 {
        let ran = read_failing(rt, alloc, file, number, piece);
        if try_read(rt, ran, number) {
            try_number(rt, number, last.saturating_add(1), &"failed");
            last = number;
        }
    }
    try_holds(rt, 1 < last && last < 39, &last);
}

/// A file with one object.
fn one_object(rt: &impl Abort, alloc: Global) -> Vec<u8> {
    let disk = stored(rt, alloc, &[PUT_A]);
    let turn = disk.turns();
    disk.image(turn, Choice::Newest).expect(rt, "memory")
}

#[test]
fn puts_nothing_of_a_reply_whose_read_fails(rt: HostRuntime) {
    let file = one_object(&rt, rt.alloc());
    for piece in PIECES {
        try_reads(&rt, rt.alloc(), &file, *piece);
    }
}

/// The words of a session, and its one request.
const RUN: &[&str] = &["run", "f"];

const ASKED: &[&str] = &["put y 0\n\n"];

/// A session on a fresh file whose source or sink fails the listed calls.
fn failing_streams(
    rt: &impl Abort,
    alloc: Global,
    piece: usize,
    takes: Vec<u64>,
    puts: Vec<u64>,
) -> Ran<MemDisk> {
    assert!(rt; piece > 0);
    let source = MemSource::new(got(rt, joined(alloc, ASKED)), piece, takes);
    got(
        rt,
        run_with(alloc, RUN, true, fresh(rt, alloc), source, puts),
    )
}

/// The fresh file, as that session leaves it.
const FRESH: &Left = &Left {
    calls: 0,
    length: 19_603,
    check: "store 9 16 0 0 0 1 still\n",
};

/// What such a session puts, its status, and that it changes nothing.
fn try_streams(rt: &impl Abort, alloc: Global, ran: Ran<MemDisk>, status: u8, text: &str) {
    let outcome = Outcome {
        status,
        done: 0,
        kept_done: 0,
        kept_turn: 10,
    };
    try_text(rt, &ran, text, outcome, &status);
    try_number(rt, ran.disk.turns(), 10, &status);
    try_file(rt, alloc, ran.disk, FRESH);
}

/// The source fails.
fn try_source(rt: &impl Abort, alloc: Global, piece: usize) {
    let ran = failing_streams(rt, alloc, piece, numbered(rt, alloc, 1), Vec::new(alloc));
    try_streams(rt, alloc, ran, 8, "fault source\n");
}

#[test]
fn says_that_the_input_failed(rt: HostRuntime) {
    for piece in PIECES {
        try_source(&rt, rt.alloc(), *piece);
    }
}

/// The sink fails.
fn try_sink(rt: &impl Abort, alloc: Global, piece: usize) {
    let ran = failing_streams(rt, alloc, piece, Vec::new(alloc), numbered(rt, alloc, 1));
    try_streams(rt, alloc, ran, 9, "");
}

#[test]
fn says_that_the_output_failed(rt: HostRuntime) {
    for piece in PIECES {
        try_sink(&rt, rt.alloc(), *piece);
    }
}
