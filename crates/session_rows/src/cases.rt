//! Sessions as tables: what each puts, and what it leaves of its file.
ghost use Rattle.std.specs.Prelude.{IfOk, IsTrue};

use crate::answers::{CHECK, got, serve_parts, try_number, try_ran, try_told};
use disk_face::Disk;
use disk_mem::MemDisk;
use row_vectors::Outcome;
use row_vectors::runs::formatted;
use std::alloc::Global;
use std::process::Abort;

/// A session: its input and what it puts, each in parts, and what else it comes to.
#[derive(Clone, Copy)]
pub struct Case {
    pub input: &'static [&'static str],
    pub puts: &'static [&'static str],
    pub outcome: Outcome,
    pub left: Left,
}

/// What a session leaves.
#[derive(Clone, Copy)]
pub struct Left {
    /// How many changing calls of the disk it made.
    pub calls: u64,
    /// How long the file is.
    pub length: u64,
    /// What `check` then puts.
    pub check: &'static str,
}

/// Lines of a table: input, output, status with the three numbers, changing calls, length, and what `check`
/// then puts.
macro_rules! cases {
    ($($input:expr => $puts:expr, $status:literal ($done:literal, $kept_done:literal, $kept_turn:literal),
        $calls:literal calls, $length:literal bytes, $check:literal;)*) => {
        [$(Case {
            input: &$input,
            puts: &$puts,
            outcome: Outcome {
                status: $status,
                done: $done,
                kept_done: $kept_done,
                kept_turn: $kept_turn,
            },
            left: Left { calls: $calls, length: $length, check: $check },
        }),*]
    };
}

pub(crate) use cases;

/// How many bytes of an input come at a time.
pub const PIECES: &[usize] = &[1, 2, 7];

/// Serves a session of a table on a disk, and gives the disk back.
pub fn try_case(
    rt: &impl Abort,
    alloc: Global,
    disk: MemDisk,
    case: &Case,
    piece: usize,
) -> MemDisk {
    let ended = disk.turns().saturating_add(case.left.calls);
    let ran = serve_parts(rt, alloc, disk, case.input, piece);
    try_number(rt, ran.disk.turns(), ended, &case.input);
    try_ran(rt, alloc, &ran, case.puts, case.outcome, &case.input);
    try_file(rt, alloc, ran.disk, &case.left)
}

/// How long a file is, and what `check` puts of it.
pub fn try_file<D: Disk + Drop>(rt: &impl Abort, alloc: Global, disk: D, left: &Left) -> D
    requires ready { IsTrue (D.state disk).is_ready }
    ensures { IsTrue (D.state result).is_ready }
{
    let mut disk = disk;
    try_number(
        rt,
        disk.len().expect(rt, "a length"),
        left.length,
        &left.check,
    );
    try_told(rt, alloc, disk, CHECK, left.check, &left.length)
}

/// Serves a session on a fresh file of a divisor and 16 names.
fn try_fresh(rt: &impl Abort, alloc: Global, k: &str, case: &Case, piece: usize) {
    let disk = got(rt, formatted(alloc, k));
    try_case(rt, alloc, disk, case, piece);
}

/// Serves a session in each size of pieces.
fn try_pieces(rt: &impl Abort, alloc: Global, k: &str, case: &Case) {
    for piece in PIECES {
        try_fresh(rt, alloc, k, case, *piece);
    }
}

/// Serves each session on a fresh file of a divisor and 16 names.
pub fn try_each(rt: &impl Abort, alloc: Global, k: &str, cases: &[Case]) {
    for case in cases {
        try_pieces(rt, alloc, k, case);
    }
}

/// Serves the sessions one after another on one fresh file, in pieces of a size, and gives the disk back.
pub fn serve_chain(
    rt: &impl Abort,
    alloc: Global,
    k: &str,
    cases: &[Case],
    piece: usize,
) -> MemDisk {
    let mut disk = got(rt, formatted(alloc, k));
    for case in cases {
        disk = try_case(rt, alloc, disk, case, piece);
    }
    disk
}

/// Serves the sessions one after another on one fresh file, in each size of pieces.
pub fn try_chain(rt: &impl Abort, alloc: Global, k: &str, cases: &[Case]) {
    for piece in PIECES {
        serve_chain(rt, alloc, k, cases, *piece);
    }
}
