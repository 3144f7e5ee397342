//! Sessions over a file of version 2: when it is full, that what was put has its digest in the checkpoint,
//! and what is answered of an object that is damaged.
use crate::answers::{MAP, got, serve_parts, try_number, try_puts, try_told};
use row_vectors::images::{Change, HELLO_DIGESTED, disk};
use std::alloc::Global;
use std::process::Abort;

/// The words of a `get`, and what it puts.
type Get = (&'static [&'static str], &'static str);

/// A session over the file of version 2 whose one object is `hello`, with changes: its requests, what it
/// puts, how many of its requests are kept, what `map` tells of the file then, and what each `get` puts.
#[derive(Clone, Copy)]
struct Row {
    changes: &'static [Change],
    asks: &'static [&'static str],
    puts: &'static [&'static str],
    kept_done: u64,
    told: &'static str,
    gets: &'static [Get],
}

const A: &[&str] = &["get", "f", "a"];

const B: &[&str] = &["get", "f", "b"];

const L: &[&str] = &["get", "f", "l"];

const OK: &str = "ok\n";

const KEPT: &str = "ok kept\n";

/// There is room for 11 names; of version 1 it would be 16.
const FULL: Row = Row {
    changes: &[],
    asks: &[
        "put b 0\n\n",
        "put c 0\n\n",
        "put d 0\n\n",
        "put e 0\n\n",
        "put f 0\n\n",
        "put g 0\n\n",
        "put h 0\n\n",
        "put i 0\n\n",
        "put j 0\n\n",
        "put k 0\n\n",
        "put l 0\n\n",
        "put k 0\n\n",
        "del b\n",
        "del c\n",
        "put l 0\n\n",
        "keep\n",
    ],
    puts: &[
        OK,
        OK,
        OK,
        OK,
        OK,
        OK,
        OK,
        OK,
        OK,
        OK,
        "refused full\n",
        OK,
        OK,
        OK,
        OK,
        KEPT,
    ],
    kept_done: 16,
    told: concat!(
        "class 2 5 0 0\nobject a 0 5\nobject d 0 0\nobject e 0 0\nobject f 0 0\nobject g 0 0\n",
        "object h 0 0\nobject i 0 0\nobject j 0 0\nobject k 0 0\nobject l 0 0\n"
    ),
    gets: &[(A, "hello"), (L, "")],
};

/// Puts with a flush, one of them in place of another, and a way back.
const FLUSHED: Row = Row {
    changes: &[],
    asks: &[
        "put b 3\nabc\n",
        "put b 3\nxyz\n",
        "keep\n",
        "put c 0\n\n",
        "back\n",
        "get a\n",
        "get b\n",
        "get c\n",
    ],
    puts: &[
        KEPT,
        KEPT,
        KEPT,
        OK,
        OK,
        "data 5\nhello\n",
        "data 3\nxyz\n",
        "refused missing\n",
    ],
    kept_done: 3,
    told: "class 1 3 0 0\nclass 2 5 0 0\nobject a 3 5\nobject b 0 3\n",
    gets: &[(A, "hello"), (B, "xyz")],
};

/// A byte of the object is another one. Other objects are read, and so is that one once it was put again.
const DAMAGED: Row = Row {
    changes: &[(19_603, b'j')],
    asks: &[
        "get a\n",
        "old a\n",
        "put b 0\n\n",
        "get b\n",
        "put a 5\nhello\n",
        "get a\n",
        "old a\n",
    ],
    puts: &[
        "refused damaged\n",
        "refused damaged\n",
        OK,
        "data 0\n\n",
        KEPT,
        "data 5\nhello\n",
        "data 5\nhello\n",
    ],
    kept_done: 5,
    told: "class 2 5 0 0\nobject a 0 5\nobject b 0 0\n",
    gets: &[(A, "hello"), (B, "")],
};

/// Serves a row's requests, and gets its objects, each of which is put only where its digest is its own.
fn try_row(rt: &impl Abort, alloc: Global, row: &Row) {
    let file = got(rt, disk(alloc, 19_608, HELLO_DIGESTED, row.changes));
    let ran = serve_parts(rt, alloc, file, row.asks, 7);
    try_puts(rt, alloc, &ran.put, row.puts, &row.told);
    try_number(rt, ran.outcome.kept_done, row.kept_done, &row.told);
    let mut left = try_told(rt, alloc, ran.disk, MAP, row.told, &row.told);
    for (words, text) in row.gets {
        left = try_told(rt, alloc, left, *words, *text, &words);
    }
}

#[test]
fn is_full_by_the_room_of_its_version(rt: HostRuntime) {
    try_row(&rt, rt.alloc(), &FULL);
}

#[test]
fn keeps_digests_through_flushes_and_ways_back(rt: HostRuntime) {
    try_row(&rt, rt.alloc(), &FLUSHED);
}

#[test]
fn refuses_a_damaged_object_until_it_is_put_again(rt: HostRuntime) {
    try_row(&rt, rt.alloc(), &DAMAGED);
}
