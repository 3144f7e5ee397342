//! `batch` of files that sessions made: what it puts, what the file opens to then, and what is left where it
//! is stopped.
ghost use Rattle.std.specs.Prelude.{IsTrue};

use crate::answers::{
    MAP, got, played, stored, try_command, try_end, try_holds, try_puts, try_told,
};
use disk_face::Disk;
use disk_mem::{Fuse, MemDisk};
use row_vectors::images::{Change, disk};
use row_vectors::inputs::{DATA_A, DATA_B, MISSING, PUT_A, PUT_B};
use row_vectors::runs::{Ran, joined, session};
use std::alloc::Global;
use std::process::Abort;

const BATCH: &[&str] = &["batch", "f"];

/// Applies an input, by its parts, in pieces of 7 bytes.
fn batch_on<D: Disk + Drop>(rt: &impl Abort, alloc: Global, disk: D, parts: &[&str]) -> Ran<D>
    requires ready { IsTrue (D.state disk).is_ready }
    ensures { IsTrue (D.state result.disk).is_ready }
{
    played(
        rt,
        alloc,
        disk,
        BATCH,
        parts,
        Vec::new(alloc),
        Vec::new(alloc),
    )
}

/// It ends so and puts this. The disk is given back.
fn try_batch<D: Disk + Drop>(
    rt: &impl Abort,
    alloc: Global,
    disk: D,
    parts: &[&str],
    end: (u8, &str),
) -> D
    requires ready { IsTrue (D.state disk).is_ready }
    ensures { IsTrue (D.state result).is_ready }
{
    let ran = batch_on(rt, alloc, disk, parts);
    try_end(rt, &ran, end.0, end.1, &parts);
    ran.disk
}

/// What a session looks at, and what it finds of `a` of 100 bytes, of `b` of 10, and of nothing.
const LOOK: &[u8] = b"list\nget a\nget b\n";

const HAS_A: &[&str] = &["list 1\na 100\n", DATA_A, MISSING];

const HAS_B: &[&str] = &["list 1\nb 10\n", MISSING, DATA_B];

const HAS_NONE: &[&str] = &["list 0\n", MISSING, MISSING];

/// What a session finds in a file.
fn found(rt: &impl Abort, alloc: Global, disk: MemDisk) -> Vec<u8> {
    got(rt, session(alloc, disk, LOOK, 7)).put
}

/// The file has these objects and no other.
fn try_found(rt: &impl Abort, alloc: Global, disk: MemDisk, puts: &[&str]) {
    let put = found(rt, alloc, disk);
    try_puts(rt, alloc, &put, puts, &puts);
}

// ---- what is applied

/// The batch that replaces `a` by `b`.
const REPLACES: &[&str] = &["del a\n", PUT_B];

/// What the file has before, the input, the end, and what it has then.
#[derive(Clone, Copy)]
struct Row {
    before: &'static [&'static str],
    input: &'static [&'static str],
    end: (u8, &'static str),
    after: &'static [&'static str],
}

macro_rules! rows {
    ($($before:expr, $input:expr => $status:literal $puts:literal $after:ident;)*) => {
        &[$(Row { before: &$before, input: &$input, end: ($status, $puts), after: $after }),*]
    };
}

const ROWS: &[Row] = rows! {
    [PUT_A], ["del a\n", PUT_B] => 0 "ok kept\n" HAS_B;
    [PUT_A], ["del a\n"] => 0 "ok kept\n" HAS_NONE;
    [PUT_A], [] => 0 "ok\n" HAS_A;
    // A batch that is kept: it comes first.
    [PUT_A, "put !batch 6\ndel a\n\n", "keep\n"], [] => 0 "ok\n" HAS_NONE;
    [PUT_A, "put !batch 6\ndel a\n\n", "keep\n"], ["put b 10\nabcdefghij\n"] => 0 "ok kept\n" HAS_B;
    [PUT_A, "put !batch 6\ndel a\n\n", "keep\n"], ["del a\n"] => 17 "fault unfit 1\n" HAS_NONE;
    [PUT_A, "put !batch 6\ndel a\n\n", "keep\n"], ["del b\n", "del a\n"]
        => 2 "fault request 2\n" HAS_NONE;
    // A removal that was done already, and a batch of no changes.
    [PUT_A, "put !batch 6\ndel x\n\n", "keep\n"], [] => 0 "ok\n" HAS_A;
    [PUT_A, "put !batch 0\n\n", "keep\n"], [] => 0 "ok\n" HAS_A;
};

/// An input for a file that has `a`, which is left as it is, and the end.
type Refused = (&'static str, u8, &'static str);

macro_rules! refusals {
    ($($input:literal => $status:literal $puts:literal;)*) => {
        &[$(($input, $status, $puts)),*]
    };
}

const REFUSALS: &[Refused] = refusals! {
    // A name that isn't there.
    "del x\n" => 17 "fault unfit 1\n";
    "del a\ndel x\n" => 17 "fault unfit 2\n";
    // Names that don't rise, the batch's own, one of 64 bytes.
    "del b\ndel a\n" => 2 "fault request 2\n";
    "put b 1\nx\nput b 1\ny\n" => 2 "fault request 2\n";
    "put !batch 0\n\n" => 2 "fault request 1\n";
    "del 0123456789012345678901234567890123456789012345678901234567890123\n" => 2 "fault request 1\n";
    // A request that is none, and others that don't change.
    "puts\n" => 2 "fault request 1\n";
    "get a\n" => 2 "fault request 1\n";
    "del a\nkeep\n" => 2 "fault request 2\n";
    // Half a body, one without its newline, a line without one.
    "put b 10\nabcde" => 2 "fault request 1\n";
    "put b 10\nabcdefghij" => 2 "fault request 1\n";
    "del a\ndel b" => 2 "fault request 2\n";
    // An object that is too long.
    "put b 67108865\nabc" => 2 "fault request 1\n";
};

/// What a batch comes to.
fn try_row(rt: &impl Abort, alloc: Global, row: &Row) {
    let file = stored(rt, alloc, row.before);
    let file = try_batch(rt, alloc, file, row.input, row.end);
    try_found(rt, alloc, file, row.after);
}

/// What an input that is refused comes to.
fn try_refused(rt: &impl Abort, alloc: Global, row: &Refused) {
    let (input, status, puts) = *row;
    let file = stored(rt, alloc, &[PUT_A]);
    let file = try_batch(rt, alloc, file, &[input], (status, puts));
    try_found(rt, alloc, file, HAS_A);
}

/// The inputs that are refused.
fn try_refusals(rt: &impl Abort, alloc: Global) {
    for row in REFUSALS {
        try_refused(rt, alloc, row);
    }
}

#[test]
fn applies_or_says_why_not(rt: HostRuntime) {
    for row in ROWS {
        try_row(&rt, rt.alloc(), row);
    }
    try_refusals(&rt, rt.alloc());
}

/// The words that ask for `a`.
const GET: &[&str] = &["get", "f", "a"];

/// Of 11 bytes of data, 8 times as many are fewer than 100.
#[test]
fn leaves_no_trace_of_what_it_removed(rt: HostRuntime) {
    let file = stored(&rt, rt.alloc(), &[PUT_A]);
    let file = try_batch(&rt, rt.alloc(), file, REPLACES, (0, "ok kept\n"));
    let text = "class 3 10 1 0\nobject b 0 10\n";
    let file = try_told(&rt, rt.alloc(), file, MAP, text, &"replaced");
    try_command(&rt, rt.alloc(), file, GET, 6, "fault missing\n");
}

// ---- what is kept as a batch and is none

/// The same, of what was kept and of what stands then: it isn't removed.
const KEPT_ROWS: &[Row] = rows! {
    ["put !batch 3\nxyz\n", "keep\n"], [] => 16 "fault no batch\n" HAS_XYZ;
    ["put !batch 3\nxyz\n", "keep\n"], ["del a\n"] => 16 "fault no batch\n" HAS_XYZ;
};

const HAS_XYZ: &[&str] = &["list 1\n!batch 3\n", MISSING, MISSING];

#[test]
fn says_that_what_is_kept_is_no_batch(rt: HostRuntime) {
    for row in KEPT_ROWS {
        try_row(&rt, rt.alloc(), row);
    }
}

// ---- room for names

/// Puts of eight names and of six without bytes.
const EIGHT: &str = "put c0 0\n\nput c1 0\n\nput c2 0\n\nput c3 0\n\n\
    put c4 0\n\nput c5 0\n\nput c6 0\n\nput c7 0\n\n";

const SIX: &str = "put c8 0\n\nput c9 0\n\nput d0 0\n\nput d1 0\n\nput d2 0\n\nput d3 0\n\n";

/// So many names, which are saved. A file of version 1 with room for 16 has 16.
const FOURTEEN: &[&str] = &[EIGHT, SIX, "keep\n"];

const FIFTEEN: &[&str] = &[EIGHT, SIX, "put d4 0\n\n", "keep\n"];

const SIXTEEN: &[&str] = &[EIGHT, SIX, "put d4 0\n\n", "put d5 0\n\n", "keep\n"];

/// The names that there are, the input and the end: one name is the batch's own.
type Full = (
    &'static [&'static str],
    &'static [&'static str],
    (u8, &'static str),
);

const FULL: &[Full] = &[
    (FOURTEEN, &["put e 0\n\n"], (0, "ok kept\n")),
    (
        FOURTEEN,
        &["put e 0\n\n", "put f 0\n\n"],
        (17, "fault unfit 2\n"),
    ),
    (FIFTEEN, &["put e 0\n\n"], (17, "fault unfit 1\n")),
    (FIFTEEN, &["del c0\n", "put e 0\n\n"], (0, "ok kept\n")),
    (FIFTEEN, &["put c0 0\n\n"], (0, "ok kept\n")),
    (SIXTEEN, &["del c0\n"], (17, "fault unfit 1\n")),
    (SIXTEEN, &[], (0, "ok\n")),
];

fn try_full(rt: &impl Abort, alloc: Global, row: &Full) {
    let file = stored(rt, alloc, row.0);
    try_batch(rt, alloc, file, row.1, row.2);
}

#[test]
fn counts_the_name_of_the_batch(rt: HostRuntime) {
    for row in FULL {
        try_full(&rt, rt.alloc(), row);
    }
}

// ---- worn files

/// The file of one object, `hello` under the name `a`, with changes to its sequence; the input and the end.
type Worn = (
    &'static [Change],
    &'static [&'static str],
    (u8, &'static str),
);

/// The sequences 2^61 - 2^25 - 1 and 2^61 - 2^25.
const LATEST: &[Change] = &[
    (72, 0xFF),
    (73, 0xFF),
    (74, 0xFF),
    (75, 0xFD),
    (76, 0xFF),
    (77, 0xFF),
    (78, 0xFF),
    (79, 0x1F),
];

const WORN: &[Change] = &[
    (72, 0),
    (73, 0),
    (74, 0),
    (75, 0xFE),
    (76, 0xFF),
    (77, 0xFF),
    (78, 0xFF),
    (79, 0x1F),
];

const WORN_ROWS: &[Worn] = &[
    (LATEST, &["del a\n"], (0, "ok kept\n")),
    (WORN, &["del a\n"], (15, "fault worn\n")),
    (WORN, &[], (0, "ok\n")),
    // What is no batch, or doesn't fit, comes before.
    (WORN, &["del x\n"], (17, "fault unfit 1\n")),
    (WORN, &["get a\n"], (2, "fault request 1\n")),
];

fn try_worn(rt: &impl Abort, alloc: Global, row: &Worn) {
    let file = got(rt, disk(alloc, 19_608, &[], row.0));
    try_batch(rt, alloc, file, row.1, row.2);
}

#[test]
fn refuses_a_worn_file_where_there_is_something_to_do(rt: HostRuntime) {
    for row in WORN_ROWS {
        try_worn(&rt, rt.alloc(), row);
    }
}

// ---- batches that are stopped

/// How a batch ends over a disk that stops, and where it doesn't.
const STOPPED: (u8, &str) = (7, "fault disk\n");

const WHOLE: (u8, &str) = (0, "ok kept\n");

/// More changing calls than the batch makes.
const MOST: u64 = 200;

/// It is stopped after so many changing calls, and then finished: the map is the one before or the one after.
/// Whether it was all done comes back.
fn try_stopped(rt: &impl Abort, alloc: Global, calls: u64) -> bool {
    let fuse = Fuse::stop_after(stored(rt, alloc, &[PUT_A]), calls);
    let ran = batch_on(rt, alloc, fuse, REPLACES);
    let is_whole = ran.outcome.status == 0;
    let end = if is_whole { WHOLE } else { STOPPED };
    try_end(rt, &ran, end.0, end.1, &calls);
    try_finished(rt, alloc, ran.disk.into_inner(), is_whole, calls);
    is_whole
}

/// Whether a session puts these parts.
fn is_put(rt: &impl Abort, alloc: Global, put: &[u8], parts: &[&str]) -> bool {
    got(rt, joined(alloc, parts)).as_slice() == put
}

/// A batch of nothing finishes the one that is kept.
fn try_finished(rt: &impl Abort, alloc: Global, file: MemDisk, is_whole: bool, calls: u64) {
    let file = try_batch(rt, alloc, file, &[], (0, "ok\n"));
    let put = found(rt, alloc, file);
    let is_after = is_put(rt, alloc, &put, HAS_B);
    let is_before = is_put(rt, alloc, &put, HAS_A);
    try_holds(rt, is_after || (is_before && !is_whole), &calls);
}

#[test]
fn is_all_done_or_not_at_all_where_it_is_stopped(rt: HostRuntime) {
    for calls in 0..MOST {
        if try_stopped(&rt, rt.alloc(), calls) {
            return;
        }
    }
    panic!(rt; "a batch that isn't done");
}
