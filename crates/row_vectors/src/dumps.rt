//! What `dump` puts.
use crate::answers::{
    DUMP, FORMAT, MOVED, got, try_bytes, try_command, try_outcome, try_unchanged,
};
use crate::formats::try_format;
use crate::images::{Change, HELLO_DIGESTED, disk, image};
use crate::runs::{ended, run, session};
use std::alloc::Global;
use std::process::Abort;

/// Changes of the image with one object, a status, and all that `dump f` puts of it.
type Row = (&'static [Change], &'static [Change], u8, &'static str);

/// The dump of the object `hello` under the name `a`, and its first line.
const HELLO: &str =
    "dump 1 0 0 5 0 0 0 0 0 0 0 0 0 0 0 0 0 0 0 0 0 0 0 0 0 0 0 0\nput a 5\nhello\n";

/// The same where the object is damaged: what stands before its text.
const CUT: &str = "dump 1 0 0 5 0 0 0 0 0 0 0 0 0 0 0 0 0 0 0 0 0 0 0 0 0 0 0 0\nfault damaged\n";

const ROWS: &[Row] = &[
    (&[], &[], 0, HELLO),
    // An object of 5 bytes of version 1, whatever they are.
    (
        &[],
        &[(19_603, b'j')],
        0,
        "dump 1 0 0 5 0 0 0 0 0 0 0 0 0 0 0 0 0 0 0 0 0 0 0 0 0 0 0 0\nput a 5\njello\n",
    ),
    // One of version 2, and each of the first and last bytes of it and of its digest changed.
    (HELLO_DIGESTED, &[], 0, HELLO),
    (HELLO_DIGESTED, &[(19_603, b'j')], 13, CUT),
    (HELLO_DIGESTED, &[(19_607, b'O')], 13, CUT),
    (HELLO_DIGESTED, &[(8632, 0x2D)], 13, CUT),
    (HELLO_DIGESTED, &[(8663, 0x25)], 13, CUT),
    // A table that keeps no rule isn't looked at.
    (HELLO_DIGESTED, &[(8616, 1)], 4, "fault store rule 3 at 0\n"),
];

/// What `dump` puts of a row's image, which it doesn't change.
fn try_row(rt: &impl Abort, alloc: Global, row: &Row) {
    let (base, changes, status, puts) = *row;
    let bytes = got(rt, image(alloc, 19_608, base, changes));
    try_unchanged(rt, alloc, &bytes, DUMP, status, puts);
}

#[test]
fn dumps_an_object_that_has_its_digest(rt: HostRuntime) {
    for row in ROWS {
        try_row(&rt, rt.alloc(), row);
    }
}

/// A store without objects is one line.
#[test]
fn dumps_the_empty_map(rt: HostRuntime) {
    let new = try_format(&rt, rt.alloc(), FORMAT, 19_603);
    try_command(
        &rt,
        rt.alloc(),
        new,
        DUMP,
        0,
        "dump 0 0 0 0 0 0 0 0 0 0 0 0 0 0 0 0 0 0 0 0 0 0 0 0 0 0 0 0\n",
    );
}

/// The first line of the dump of the moving file, and the lines in it that stand between objects.
const MOVING: &str = "dump 3 0 0 5 10 0 0 100 0 0 0 0 0 0 0 0 0 0 0 0 0 0 0 0 0 0 0 0\nput a 100\n";

/// The dump of the file whose flush is interrupted, and that of what the flush leaves.
fn try_moving(rt: &impl Abort, alloc: Global, marks: &[Change]) {
    let bytes = got(rt, image(alloc, 19_857, MOVED, marks));
    let before = got(rt, run(alloc, DUMP, &bytes));
    try_outcome(rt, before.outcome, ended(0), &"before");
    try_bytes(
        rt,
        before.put.get(..MOVING.len()).unwrap_or(b""),
        MOVING.as_bytes(),
        &"line",
    );
    let file = got(rt, disk(alloc, 19_857, MOVED, marks));
    let resumed = got(rt, session(alloc, file, b"", 1));
    let text = str::from_utf8(&before.put).unwrap_or("");
    try_command(rt, alloc, resumed.disk, DUMP, 0, text);
}

/// The first and the last byte of each object: `a` of 100 bytes, `b` of 10, and `c` of 5.
const MARKS: &[Change] = &[
    (19_742, b'<'),
    (19_841, b'>'),
    (19_842, b'['),
    (19_851, b']'),
    (19_852, b'('),
    (19_856, b')'),
];

#[test]
fn dumps_a_moving_file_as_the_settled_one(rt: HostRuntime) {
    try_moving(&rt, rt.alloc(), &[]);
    try_moving(&rt, rt.alloc(), MARKS);
}
