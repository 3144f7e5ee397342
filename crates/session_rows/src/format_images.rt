//! A format: what a crash leaves of it at each turn.
use crate::answers::{fresh, got, try_end};
use crate::images::{image_at, try_check};
use disk_mem::{Choice, MemDisk};
use row_vectors::runs::run;
use std::alloc::Global;
use std::process::Abort;

/// What `check` puts of the images of a turn: of what the last sync left, of what reads give, and of these
/// torn with a byte that opens no gate, or with that of an open gate.
#[derive(Clone, Copy)]
struct Row {
    turn: u64,
    durable: &'static str,
    newest: &'static str,
    torn: &'static str,
    opened: &'static str,
}

macro_rules! rows {
    ($($turn:literal: $durable:ident, $newest:ident, $torn:ident, $opened:ident;)*) => {
        [$(Row {
            turn: $turn,
            durable: $durable,
            newest: $newest,
            torn: $torn,
            opened: $opened,
        }),*]
    };
}

const SHORT: &str = "fault store slot 1\n";

const UNMARKED: &str = "fault store codec 1 at 0\n";

const UNFORMATTED: &str = "fault store slot 2\n";

const STORE: &str = "store 9 16 0 0 0 1 still\n";

/// `get` of a name puts this of an image.
fn try_put(rt: &impl Abort, alloc: Global, image: &[u8], end: (u8, &str), at: (u64, Choice)) {
    let ran = got(rt, run(alloc, GET, image));
    try_end(rt, &ran, end.0, end.1, &at);
}

/// `get` of a name puts of an image the same refusal as `check`, or that the store hasn't the name.
fn try_get(rt: &impl Abort, alloc: Global, image: &[u8], puts: &str, at: (u64, Choice)) {
    let (status, line) = if puts == STORE {
        (6, "fault missing\n")
    } else {
        (4, puts)
    };
    try_put(rt, alloc, image, (status, line), at);
}

/// The words of that command.
const GET: &[&str] = &["get", "f", "a"];

/// `check` of an image puts this, and `get` what follows of it.
fn try_image(rt: &impl Abort, alloc: Global, disk: &MemDisk, puts: &str, at: (u64, Choice)) {
    let status = if puts == STORE { 0 } else { 4 };
    let image = image_at(rt, disk, at.0, at.1);
    try_check(rt, alloc, &image, status, puts, at);
    try_get(rt, alloc, &image, puts, at);
}

/// What the last sync left, what reads give, and these torn.
const CHOICES: &[Choice] = &[
    Choice::Durable,
    Choice::Newest,
    Choice::Torn(0),
    Choice::Torn(1),
    Choice::Torn(0x5A),
    Choice::Torn(0xA5),
];

/// What `check` puts of an image of a row.
fn puts_of(row: &Row, choice: Choice) -> &'static str {
    match choice {
        Choice::Durable => row.durable,
        Choice::Newest => row.newest,
        Choice::Torn(0xA5) => row.opened,
        Choice::Torn(_) => row.torn,
    }
}

/// The images of a turn.
fn try_row(rt: &impl Abort, alloc: Global, disk: &MemDisk, row: &Row) {
    for choice in CHOICES {
        let puts = puts_of(row, *choice);
        try_image(rt, alloc, disk, puts, (row.turn, *choice));
    }
}

/// The turns of a format.
const ROWS: &[Row] = &rows! {
    0: SHORT, SHORT, SHORT, SHORT;
    1: SHORT, UNMARKED, UNMARKED, UNMARKED;
    2: SHORT, SHORT, UNMARKED, UNMARKED;
    3: SHORT, SHORT, SHORT, SHORT;
    4: SHORT, SHORT, SHORT, SHORT;
    5: SHORT, SHORT, SHORT, SHORT;
    6: SHORT, SHORT, SHORT, SHORT;
    7: SHORT, SHORT, SHORT, SHORT;
    8: SHORT, UNFORMATTED, UNFORMATTED, STORE;
    9: SHORT, STORE, UNFORMATTED, STORE;
    10: STORE, STORE, STORE, STORE;
};

#[test]
fn leaves_no_store_or_the_empty_one(rt: HostRuntime) {
    let disk = fresh(&rt, rt.alloc());
    for row in ROWS {
        try_row(&rt, rt.alloc(), &disk, row);
    }
}
