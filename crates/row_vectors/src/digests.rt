//! What `get` answers of files of version 2, whose records have digests of their objects.
use crate::answers::{GET, got, try_bytes, try_outcome, try_unchanged};
use crate::images::{Change, HELLO_DIGESTED, image};
use crate::runs::{ended, run};
use plain_layout::put;
use std::alloc::Global;
use std::process::Abort;

/// A change of the image whose record has the SHA-256 of `hello`, the status of `get f a` on it, and all that
/// it puts.
#[derive(Clone, Copy)]
struct Row {
    changes: &'static [Change],
    status: u8,
    puts: &'static str,
}

macro_rules! rows {
    ($($changes:expr => $status:literal $puts:literal;)*) => {
        &[$(Row { changes: &$changes, status: $status, puts: $puts }),*]
    };
}

/// Gets the object of a row's image.
fn try_row(rt: &impl Abort, alloc: Global, row: &Row) {
    let bytes = got(rt, image(alloc, 19_608, HELLO_DIGESTED, row.changes));
    try_unchanged(rt, alloc, &bytes, GET, row.status, row.puts);
}

const ROWS: &[Row] = rows! {
    [] => 0 "hello";
    // The first byte of the object, and its last.
    [(19_603, b'j')] => 13 "fault damaged\n";
    [(19_607, b'O')] => 13 "fault damaged\n";
    // The first byte of the digest, and its last.
    [(8632, 0x2D)] => 13 "fault damaged\n";
    [(8663, 0x25)] => 13 "fault damaged\n";
    // The object has a byte less.
    [(120, 4), (8624, 4)] => 13 "fault damaged\n";
    // It has none.
    [(120, 0), (8624, 0)] => 13 "fault damaged\n";
    [(8553, b'b')] => 6 "fault missing\n";
    // Version 1 has no digests, whatever stands behind its record.
    [(64, 1), (19_603, b'j')] => 0 "jello";
    // What keeps no rule isn't looked at.
    [(8616, 1), (19_603, b'j')] => 4 "fault store rule 3 at 0\n";
};

#[test]
fn gets_what_has_its_digest(rt: HostRuntime) {
    for row in ROWS {
        try_row(&rt, rt.alloc(), row);
    }
}

/// The changes to two objects of version 2, of 100 zero bytes each. The record of the second stands at 8,664,
/// with the SHA-256 of 100 zero bytes from 8,744 on; the digest of the first is of no bytes.
const TWO: &[Change] = &[
    (64, 2),
    (80, 2),
    (120, 0),
    (152, 200),
    (8624, 100),
    (8632, 0xE3),
    (8633, 0xB0),
    (8634, 0xC4),
    (8635, 0x42),
    (8636, 0x98),
    (8637, 0xFC),
    (8638, 0x1C),
    (8639, 0x14),
    (8640, 0x9A),
    (8641, 0xFB),
    (8642, 0xF4),
    (8643, 0xC8),
    (8644, 0x99),
    (8645, 0x6F),
    (8646, 0xB9),
    (8647, 0x24),
    (8648, 0x27),
    (8649, 0xAE),
    (8650, 0x41),
    (8651, 0xE4),
    (8652, 0x64),
    (8653, 0x9B),
    (8654, 0x93),
    (8655, 0x4C),
    (8656, 0xA4),
    (8657, 0x95),
    (8658, 0x99),
    (8659, 0x1B),
    (8660, 0x78),
    (8661, 0x52),
    (8662, 0xB8),
    (8663, 0x55),
    (8664, 1),
    (8665, b'b'),
    (8728, 100),
    (8736, 100),
    (8744, 0xCD),
    (8745, 0x00),
    (8746, 0xE2),
    (8747, 0x92),
    (8748, 0xC5),
    (8749, 0x97),
    (8750, 0x0D),
    (8751, 0x3C),
    (8752, 0x5E),
    (8753, 0x2F),
    (8754, 0x0F),
    (8755, 0xFA),
    (8756, 0x51),
    (8757, 0x71),
    (8758, 0xE5),
    (8759, 0x55),
    (8760, 0xBC),
    (8761, 0x46),
    (8762, 0xBF),
    (8763, 0xC4),
    (8764, 0xFA),
    (8765, 0xDD),
    (8766, 0xFB),
    (8767, 0x4A),
    (8768, 0x41),
    (8769, 0x8B),
    (8770, 0x68),
    (8771, 0x40),
    (8772, 0xB8),
    (8773, 0x6E),
    (8774, 0x79),
    (8775, 0xA3),
];

/// The words of a command, its status, and what it puts.
type Two = (&'static [&'static str], u8, &'static [u8]);

const OF_TWO: &[Two] = &[
    (&["get", "f", "a"], 13, b"fault damaged\n"),
    (&["get", "f", "b"], 0, &[0; 100]),
    (&["get", "f", "c"], 6, b"fault missing\n"),
    (
        &["map", "f"],
        0,
        b"class 6 200 22 0\nobject a 0 100\nobject b 100 100\n",
    ),
    (
        &["dump", "f"],
        13,
        b"dump 2 0 0 0 0 0 0 200 0 0 0 0 0 0 0 0 0 0 0 0 0 0 0 0 0 0 0 0\nfault damaged\n",
    ),
    (&["check", "f"], 0, b"store 9 16 2 200 222 1 still\n"),
];

/// The file of two objects, changed further.
fn two(rt: &impl Abort, alloc: Global, changes: &[Change]) -> Vec<u8> {
    got(rt, image(alloc, 19_825, TWO, changes))
}

/// What a command puts of a file of these bytes.
fn try_two(rt: &impl Abort, alloc: Global, bytes: &[u8], row: &Two) {
    let (words, status, puts) = *row;
    let ran = got(rt, run(alloc, words, bytes));
    try_outcome(rt, ran.outcome, ended(status), &words);
    try_bytes(rt, &ran.put, puts, &words);
}

#[test]
fn gets_each_other_object_where_one_is_damaged(rt: HostRuntime) {
    let bytes = two(&rt, rt.alloc(), &[]);
    for row in OF_TWO {
        try_two(&rt, rt.alloc(), &bytes, row);
    }
}

/// The first object has no bytes, as its digest says; what stood there is no object's.
const EMPTY: &[Change] = &[(152, 100), (8624, 0), (8728, 0)];

/// What `get` puts of it.
const NO_BYTES: &Two = &(GET, 0, b"");

#[test]
fn gets_an_object_without_bytes(rt: HostRuntime) {
    let bytes = two(&rt, rt.alloc(), EMPTY);
    try_two(&rt, rt.alloc(), &bytes, NO_BYTES);
}

/// The digest of the second object is changed too.
const EMPTY_AND_DAMAGED: &[Change] = &[(152, 100), (8624, 0), (8728, 0), (8744, 0xCC)];

/// What stands before the text of the second object is the first.
const DUMPED: &Two = &(
    &["dump", "f"],
    13,
    b"dump 2 0 0 0 0 0 0 100 0 0 0 0 0 0 0 0 0 0 0 0 0 0 0 0 0 0 0 0\nput a 0\n\nfault damaged\n",
);

#[test]
fn dumps_what_stands_before_a_damaged_object(rt: HostRuntime) {
    let bytes = two(&rt, rt.alloc(), EMPTY_AND_DAMAGED);
    try_two(&rt, rt.alloc(), &bytes, DUMPED);
}

/// What `get` puts of the second object once it was changed.
const DAMAGED: &Two = &(&["get", "f", "b"], 13, b"fault damaged\n");

/// The one byte of the second object that is changed, at a place of it: the object is damaged, and the other
/// one isn't.
fn try_byte(rt: &impl Abort, alloc: Global, at: usize) {
    let mut bytes = two(rt, alloc, EMPTY);
    put(&mut bytes, &[(at, 1)]);
    try_two(rt, alloc, &bytes, DAMAGED);
    try_two(rt, alloc, &bytes, NO_BYTES);
}

#[test]
fn tells_of_each_byte_of_an_object_that_was_changed(rt: HostRuntime) {
    for at in 19_603..19_703 {
        try_byte(&rt, rt.alloc(), at);
    }
}
