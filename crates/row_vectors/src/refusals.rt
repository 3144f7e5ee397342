//! Hostile files: images that are no store. Each command that opens a file refuses them alike.
use crate::answers::{MOVED, got, try_unchanged};
use crate::images::{Change, image};
use std::alloc::Global;
use std::process::Abort;

/// An image that is no store, by its base, its length and its changes, and the line that is put of it.
#[derive(Clone, Copy)]
struct Row {
    base: &'static [Change],
    length: usize,
    changes: &'static [Change],
    puts: &'static str,
}

macro_rules! rows {
    ($($base:ident $length:literal, $changes:expr => $puts:literal;)*) => {
        &[$(Row { base: $base, length: $length, changes: &$changes, puts: $puts }),*]
    };
}

/// The hand-made file as it is.
const SETTLED: &[Change] = &[];

/// The changes to `a` of 100 bytes in class 6 with a buffer of 11, and `b` of 200 in class 7 with one of 22,
/// in a file of 19,936 bytes.
const TWO: &[Change] = &[
    (80, 2),
    (120, 0),
    (152, 100),
    (160, 200),
    (8624, 100),
    (8632, 1),
    (8633, b'b'),
    (8696, 111),
    (8704, 200),
];

/// The words of each command that opens a file.
const COMMANDS: &[&[&str]] = &[
    &["get", "f", "a"],
    &["check", "f"],
    &["map", "f"],
    &["dump", "f"],
    &["run", "f"],
    &["work", "f", "1", "1"],
    &["cached", "f", "1", "1", "1"],
    &["batch", "f"],
    &["desk", "f"],
    &["upgrade", "f"],
];

/// The status of a file that is no store.
const NO_STORE: u8 = 4;

/// What each command puts of a row's image, and that it changes nothing.
fn try_row(rt: &impl Abort, alloc: Global, row: &Row) {
    let bytes = got(rt, image(alloc, row.length, row.base, row.changes));
    for words in COMMANDS {
        try_unchanged(rt, alloc, &bytes, *words, NO_STORE, row.puts);
    }
}

/// The rows of a table.
fn try_rows(rt: &impl Abort, alloc: Global, rows: &[Row]) {
    for row in rows {
        try_row(rt, alloc, row);
    }
}

/// Faulty superblocks and gates.
const BLOCKS: &[Row] = rows! {
    SETTLED 19608, [(0, b'c')] => "fault store codec 1 at 0\n";
    SETTLED 19608, [(8, 1)] => "fault store codec 2 at 0\n";
    SETTLED 19608, [(8, 65)] => "fault store codec 2 at 0\n";
    SETTLED 19608, [(16, 15)] => "fault store codec 2 at 0\n";
    SETTLED 19608, [(63, 1)] => "fault store codec 5 at 0\n";
    SETTLED 19608, [(19602, 0)] => "fault store slot 2\n";
    SETTLED 19608, [(9832, 0)] => "fault store slot 3\n";
    SETTLED 19608, [(72, 8), (9833, 1), (9841, 8), (19601, 0xA5)] => "fault store slot 4\n";
};

/// Faulty headers.
const HEADERS: &[Row] = rows! {
    SETTLED 19608, [(64, 0)] => "fault store codec 3 at 64\n";
    SETTLED 19608, [(64, 3)] => "fault store codec 3 at 64\n";
    SETTLED 19608, [(65, 2)] => "fault store codec 4 at 64\n";
    SETTLED 19608, [(67, 1)] => "fault store codec 5 at 64\n";
    // The sequence 2^62.
    SETTLED 19608, [(72, 0), (79, 0x40)] => "fault store codec 9 at 64\n";
    SETTLED 19608, [(80, 17)] => "fault store codec 6 at 64\n";
    SETTLED 19608, [(94, 1)] => "fault store codec 10 at 64\n";
};

/// The headers. A body is proved the faster the fewer rows the tables have that stand in it.
fn try_headers(rt: &impl Abort, alloc: Global) {
    try_rows(rt, alloc, HEADERS);
}

#[test]
fn refuses_a_faulty_head(rt: HostRuntime) {
    try_rows(&rt, rt.alloc(), BLOCKS);
    try_headers(&rt, rt.alloc());
}

/// Faulty records.
const RECORDS: &[Row] = rows! {
    SETTLED 19608, [(8553, 0x20)] => "fault store codec 7 at 8552\n";
    SETTLED 19608, [(8552, 0)] => "fault store codec 7 at 8552\n";
    SETTLED 19608, [(8552, 64)] => "fault store codec 7 at 8552\n";
    SETTLED 19608, [(8554, 1)] => "fault store codec 5 at 8552\n";
    SETTLED 19608, [(8622, 1)] => "fault store codec 10 at 8552\n";
    SETTLED 19608, [(80, 2), (8632, 1), (8633, b'a')] => "fault store codec 8 at 8632\n";
    SETTLED 19608, [(80, 2), (8632, 1), (8633, b'A')] => "fault store codec 8 at 8632\n";
};

#[test]
fn refuses_faulty_records(rt: HostRuntime) {
    try_rows(&rt, rt.alloc(), RECORDS);
}

/// What breaks one of the rules 1 to 3.
const BOUNDS: &[Row] = rows! {
    // An object of 67,108,865 bytes, and one of 83,886,085.
    SETTLED 19608, [(8624, 1), (8627, 4)] => "fault store rule 1 at 0\n";
    SETTLED 19608, [(8627, 5)] => "fault store rule 1 at 0\n";
    // An empty object that stands at 1.
    SETTLED 19608, [(8616, 1), (8624, 0)] => "fault store rule 2 at 0\n";
    // An object past the end of the file, and one of 1,048,577 bytes; a layout that is, also by a capacity of
    // class 21; the wall of a moving table; its last object.
    SETTLED 19608, [(8616, 1)] => "fault store rule 3 at 0\n";
    SETTLED 19608, [(8624, 1), (8626, 0x10)] => "fault store rule 3 at 0\n";
    SETTLED 19608, [(120, 6)] => "fault store rule 3 at 1\n";
    SETTLED 19608, [(272, 1)] => "fault store rule 3 at 1\n";
    MOVED 19857, [(88, 255)] => "fault store rule 3 at 3\n";
    MOVED 19856, [] => "fault store rule 3 at 2\n";
};

/// What breaks one of the rules 4 to 6.
const HEADINGS: &[Row] = rows! {
    // A settled table with a boundary, and a moving one whose boundary is behind all classes.
    SETTLED 19608, [(66, 1)] => "fault store rule 4 at 0\n";
    MOVED 19857, [(66, 27)] => "fault store rule 4 at 0\n";
    // A capacity of class 27, which no object has; one from the boundary of a moving table on.
    SETTLED 19608, [(320, 1)] => "fault store rule 5 at 27\n";
    SETTLED 19608, [(320, 9)] => "fault store rule 5 at 27\n";
    SETTLED 19608, [(65, 1)] => "fault store rule 5 at 2\n";
    // One byte is taken of the buffer of class 2, which has none.
    SETTLED 19608, [(888, 1)] => "fault store rule 6 at 2\n";
};

/// What breaks one of the rules 7 to 9.
const SEGMENTS: &[Row] = rows! {
    // The segment is that of class 3, or it has 4 bytes for the object of 5; or the boundary is behind the
    // classes of all objects, none of which has a segment.
    SETTLED 19608, [(120, 0), (128, 5)] => "fault store rule 7 at 0\n";
    SETTLED 19608, [(120, 4)] => "fault store rule 7 at 0\n";
    MOVED 19857, [(66, 21)] => "fault store rule 7 at 0\n";
    // `a` and `b` of 100 bytes each in class 6, the second in the middle of the first.
    SETTLED 19825,
        [(80, 2), (120, 0), (152, 200), (8624, 100), (8632, 1), (8633, b'b'), (8696, 50), (8704, 100)]
        => "fault store rule 8 at 1\n";
    // A segment with one byte more than its object, for which no buffer has a dead one.
    SETTLED 19609, [(120, 6)] => "fault store rule 9 at 2\n";
};

/// What breaks one of the rules 10 to 12.
const BUFFERS: &[Row] = rows! {
    // Of the buffer of class 7, class 2 has taken 5 bytes, though that of class 6 had room for them; or
    // class 7 has taken 1 byte, fewer than an object of it has.
    TWO 19936, [(2168, 5)] => "fault store rule 10 at 2\n";
    TWO 19936, [(2208, 1)] => "fault store rule 10 at 7\n";
    // The new layout ends at 127: the wall is too low for the slack of 112, or the slack too large.
    MOVED 19857, [(88, 238)] => "fault store rule 11 at 0\n";
    MOVED 19857, [(96, 113)] => "fault store rule 11 at 0\n";
    // `a` leaves less than the slack below the wall, but not nothing.
    MOVED 19857, [(8616, 138)] => "fault store rule 12 at 0\n";
    MOVED 19857, [(8616, 100)] => "fault store rule 12 at 0\n";
};

/// The rules 4 to 6.
fn try_headings(rt: &impl Abort, alloc: Global) {
    try_rows(rt, alloc, HEADINGS);
}

/// The rules 7 to 9.
fn try_segments(rt: &impl Abort, alloc: Global) {
    try_rows(rt, alloc, SEGMENTS);
}

/// The rules 10 to 12.
fn try_buffers(rt: &impl Abort, alloc: Global) {
    try_rows(rt, alloc, BUFFERS);
}

#[test]
fn refuses_what_breaks_a_rule(rt: HostRuntime) {
    try_rows(&rt, rt.alloc(), BOUNDS);
    try_headings(&rt, rt.alloc());
    try_segments(&rt, rt.alloc());
    try_buffers(&rt, rt.alloc());
}

/// The hand-made file, cut.
const CUTS: &[Row] = rows! {
    SETTLED 0, [] => "fault store slot 1\n";
    SETTLED 63, [] => "fault store slot 1\n";
    SETTLED 64, [] => "fault store slot 1\n";
    SETTLED 19602, [] => "fault store slot 1\n";
    SETTLED 19603, [] => "fault store rule 3 at 0\n";
    SETTLED 19607, [] => "fault store rule 3 at 0\n";
};

#[test]
fn refuses_what_was_cut(rt: HostRuntime) {
    try_rows(&rt, rt.alloc(), CUTS);
}
