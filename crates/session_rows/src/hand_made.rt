//! Sessions over the hand-made file, also where its sequence is worn.
use crate::answers::{got, try_number, try_text};
use crate::cases::PIECES;
use disk_face::Disk;
use row_vectors::Outcome;
use row_vectors::images::{Change, disk};
use row_vectors::runs::session;
use std::alloc::Global;
use std::process::Abort;

/// Changes of the file, an input, what is put, and the status and how many requests are answered.
#[derive(Clone, Copy)]
struct Row {
    changes: &'static [Change],
    input: &'static str,
    puts: &'static str,
    outcome: Outcome,
}

macro_rules! rows {
    ($($changes:expr, $input:literal => $puts:literal, $status:literal $done:literal;)*) => {
        [$(Row {
            changes: &$changes,
            input: $input,
            puts: $puts,
            outcome: Outcome { status: $status, done: $done, kept_done: 0, kept_turn: 0 },
        }),*]
    };
}

/// The sessions.
const ROWS: &[Row] = &rows! {
    [], "get a\ndel b\n" => "data 5\nhello\nrefused missing\n", 0 2;
    // The sequence 2^61, and then 2^62.
    [(72, 0), (79, 0x20)], "get a\ndel a\n" => "data 5\nhello\nrefused worn\n", 0 2;
    [(72, 0), (79, 0x40)], "get a\n" => "fault store codec 9 at 64\n", 4 0;
    [(19602, 0)], "get a\n" => "fault store slot 2\n", 4 0;
};

/// Serves a session, which changes nothing.
fn try_row(rt: &impl Abort, alloc: Global, row: &Row, piece: usize) {
    let file = got(rt, disk(alloc, 19_608, row.changes, &[]));
    let ran = got(rt, session(alloc, file, row.input.as_bytes(), piece));
    try_text(rt, &ran, row.puts, row.outcome, &row.puts);
    try_number(rt, ran.disk.turns(), 0, &row.puts);
}

/// Serves the sessions in pieces of a size.
fn try_rows(rt: &impl Abort, alloc: Global, piece: usize) {
    for row in ROWS {
        try_row(rt, alloc, row, piece);
    }
}

#[test]
fn refuses_changes_of_a_worn_file(rt: HostRuntime) {
    for piece in PIECES {
        try_rows(&rt, rt.alloc(), *piece);
    }
}
