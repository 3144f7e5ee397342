//! Sessions over the two hand-made files, the settled and the moving one, which are also files of a program
//! of fewer classes: each reads, puts an object by a flush and one into a buffer, and saves a checkpoint.
use crate::answers::{MAP, got, try_told};
use crate::cases::{Case, Left, PIECES, try_case};
use row_vectors::Outcome;
use row_vectors::images::{Change, MOVING, disk};
use std::alloc::Global;
use std::process::Abort;

/// A file by its length and its changes, a session over it, and what `map` then puts.
#[derive(Clone, Copy)]
struct Row {
    length: usize,
    first: &'static [Change],
    then: &'static [Change],
    session: Case,
    map: &'static str,
}

/// The settled file: `b` finds no room, and class 4 gets a segment of 18 bytes with a buffer of 2, for `c`.
const SETTLED: &Row = &Row {
    length: 19_608,
    first: &[],
    then: &[],
    session: Case {
        input: &[
            "get a\nput b 18\n123456789012345678\n",
            "put c 2\nxy\nkeep\nget c\n",
        ],
        puts: &["data 5\nhello\n", "ok kept\nok\nok kept\n", "data 2\nxy\n"],
        outcome: Outcome {
            status: 0,
            done: 5,
            kept_done: 4,
            kept_turn: 20,
        },
        left: Left {
            calls: 20,
            length: 19_628,
            check: "store 9 16 3 25 25 3 still\n",
        },
    },
    map: "class 2 5 0 0\nclass 4 18 2 2\nobject a 0 5\nobject b 5 18\nobject c 23 2\n",
};

/// The bytes of the third object of the moving file.
const WORLD: &[Change] = &[
    (19_852, b'w'),
    (19_853, b'o'),
    (19_854, b'r'),
    (19_855, b'l'),
    (19_856, b'd'),
];

/// The moving file, whose flush is ended first. `d` goes to the buffer of class 3; `e` finds no room, and
/// is laid in class 4 before `a`.
const MOVED: &Row = &Row {
    length: 19_857,
    first: &MOVING,
    then: WORLD,
    session: Case {
        input: &[
            "get c\nput d 1\nx\nkeep\n",
            "put e 20\n12345678901234567890\nget d\n",
        ],
        puts: &["data 5\nworld\n", "ok\nok kept\nok kept\n", "data 1\nx\n"],
        outcome: Outcome {
            status: 0,
            done: 5,
            kept_done: 4,
            kept_turn: 41,
        },
        left: Left {
            calls: 41,
            length: 19_752,
            check: "store 9 16 5 136 149 5 still\n",
        },
    },
    map: "class 2 5 0 0\nclass 3 10 1 1\nclass 4 20 2 0\nclass 6 100 11 0\n\
        object a 38 100\nobject b 5 10\nobject c 0 5\nobject d 15 1\nobject e 16 20\n",
};

/// Serves the session over the file, in pieces of a size.
fn try_row(rt: &impl Abort, alloc: Global, row: &Row, piece: usize) {
    let file = got(rt, disk(alloc, row.length, row.first, row.then));
    let left = try_case(rt, alloc, file, &row.session, piece);
    try_told(rt, alloc, left, MAP, row.map, &piece);
}

/// Serves it in each size of pieces.
fn try_pieces(rt: &impl Abort, alloc: Global, row: &Row) {
    for piece in PIECES {
        try_row(rt, alloc, row, *piece);
    }
}

#[test]
fn serves_a_settled_file_of_fewer_classes(rt: HostRuntime) {
    try_pieces(&rt, rt.alloc(), SETTLED);
}

#[test]
fn serves_a_moving_file_of_fewer_classes(rt: HostRuntime) {
    try_pieces(&rt, rt.alloc(), MOVED);
}
