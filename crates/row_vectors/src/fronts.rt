//! An input of two requests that ends too early: each of its fronts.
use crate::Outcome;
use crate::answers::{got, try_bytes, try_number, try_outcome};
use crate::runs::{formatted, session};
use disk_face::Disk;
use std::alloc::Global;
use std::process::Abort;

/// The put ends after 12 bytes, the get after 18.
const INPUT: &[u8] = b"put a 3\nxyz\nget a\n";

/// The fronts of some lengths, both bounds included, what is put of each, the status, how many requests were
/// answered, and how many the last checkpoint has. It ended at the turn.
#[derive(Clone, Copy)]
struct Row {
    shortest: usize,
    longest: usize,
    puts: &'static str,
    outcome: Outcome,
}

macro_rules! rows {
    ($($shortest:literal to $longest:literal
        => $puts:literal, $status:literal ($done:literal, $kept_done:literal, $kept_turn:literal);)*) => {
        [$(Row {
            shortest: $shortest,
            longest: $longest,
            puts: $puts,
            outcome: Outcome {
                status: $status,
                done: $done,
                kept_done: $kept_done,
                kept_turn: $kept_turn,
            },
        }),*]
    };
}

/// The fronts, by what is put of them. A format makes 10 changing calls, the put 12 and the get none.
const ROWS: &[Row] = &rows! {
    0 to 0 => "", 0 (0, 0, 10);
    1 to 11 => "fault request 1\n", 2 (0, 0, 10);
    12 to 12 => "ok kept\n", 0 (1, 1, 22);
    13 to 17 => "ok kept\nfault request 2\n", 2 (1, 1, 22);
    18 to 18 => "ok kept\ndata 3\nxyz\n", 0 (2, 1, 22);
};

/// Serves a front on a fresh file. It comes in pieces of 7 bytes, the last of which may be shorter.
fn try_front(rt: &impl Abort, alloc: Global, length: usize, row: &Row) {
    let front = INPUT.get(..length).expect(rt, "a front");
    let ran = got(rt, session(alloc, got(rt, formatted(alloc, "9")), front, 7));
    try_bytes(rt, &ran.put, row.puts.as_bytes(), &length);
    try_outcome(rt, ran.outcome, row.outcome, &length);
    try_number(rt, ran.disk.turns(), row.outcome.kept_turn, &length);
}

/// The fronts of a row.
fn try_row(rt: &impl Abort, alloc: Global, row: &Row) {
    for length in row.shortest..=row.longest {
        try_front(rt, alloc, length, row);
    }
}

#[test]
fn serves_each_front_up_to_its_last_whole_request(rt: HostRuntime) {
    for row in ROWS {
        try_row(&rt, rt.alloc(), row);
    }
}
