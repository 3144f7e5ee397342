//! `load` of dumps, and of inputs that stop being one: what it puts, how many changing calls it makes, and
//! what the file is then, also where a device fails.
ghost use Rattle.std.specs.Prelude.{◌≡◌, ◌<◌, IsFalse, IsTrue, length};

use crate::answers::{
    CHECK, got, numbered, told, try_bytes, try_command, try_end, try_number, try_outcome, try_told,
};
use disk_face::Disk;
use disk_mem::{Fuse, MemDisk, MemSource};
use plain_layout::{Change, put};
use row_vectors::inputs::{PUT_A, PUT_B, PUT_C};
use row_vectors::runs::{Ran, ended, joined, run_with};
use std::alloc::Global;
use std::process::Abort;

/// The words of the command.
pub const LOAD: &[&str] = &["load", "f", "9", "16"];

/// The first line of the dump of 100, 10 and 5 bytes.
pub const HEAD: &str = "dump 3 0 0 5 10 0 0 100 0 0 0 0 0 0 0 0 0 0 0 0 0 0 0 0 0 0 0 0\n";

/// That dump, by its parts: 64, 111, 20 and 14 bytes.
pub const PARTS: &[&str] = &[HEAD, PUT_A, PUT_B, PUT_C];

/// What `check` puts of the file that has them, and of the one that was to have them.
pub const WHOLE: &str = "store 9 16 3 115 127 2 still\n";

pub const EMPTY: &str = "store 9 16 0 0 127 1 still\n";

/// Loads an input, in pieces of at most so many bytes, into a file that isn't there.
pub fn load<D: Disk + Drop>(
    rt: &impl Abort,
    alloc: Global,
    words: &[&str],
    disk: D,
    input: &[u8],
    piece: usize,
) -> Ran<D>
    requires ready { IsTrue (D.state disk).is_ready }
    requires empty { IsTrue (D.state disk).tells → length (D.state disk).file ≡ 0 }
    requires some { 0 < piece }
    ensures { IsTrue (D.state result.disk).is_ready }
{
    let bytes = input.to_vec(alloc).expect(rt, "memory");
    let source = MemSource::new(bytes, piece, Vec::new(alloc));
    got(
        rt,
        run_with(alloc, words, false, disk, source, Vec::new(alloc)),
    )
}

/// The dump.
fn whole(rt: &impl Abort, alloc: Global) -> Vec<u8> {
    got(rt, joined(alloc, PARTS))
}

/// What a load puts and how it ends, and how many changing calls it makes; then what `check` puts of the
/// file, which is there.
#[derive(Clone, Copy)]
struct Row {
    status: u8,
    puts: &'static str,
    turns: Option<u64>,
    checks: (u8, &'static str),
}

/// What `check` puts of a file without bytes.
const NONE: (u8, &str) = (4, "fault store slot 1\n");

/// What `check` puts of a file.
fn try_file(rt: &impl Abort, alloc: Global, disk: MemDisk, checks: (u8, &str)) {
    try_command(rt, alloc, disk, CHECK, checks.0, checks.1);
}

/// How many changing calls a load made, where the row says it.
fn try_turns(rt: &impl Abort, disk: &MemDisk, row: &Row) {
    if let Some(turns) = row.turns {
        try_number(rt, disk.turns(), turns, &row.puts);
    }
}

/// What a load comes to.
fn try_ran(rt: &impl Abort, alloc: Global, ran: Ran<MemDisk>, row: &Row) {
    try_end(rt, &ran, row.status, row.puts, &row.puts);
    try_turns(rt, &ran.disk, row);
    try_file(rt, alloc, ran.disk, row.checks);
}

/// A load of an input.
fn try_input(rt: &impl Abort, alloc: Global, words: &[&str], input: &[u8], row: &Row) {
    let ran = load(rt, alloc, words, MemDisk::new(alloc), input, 7);
    try_ran(rt, alloc, ran, row);
}

/// The dump is loaded, however it is cut.
const LOADED: &Row = &Row {
    status: 0,
    puts: "loaded\n",
    turns: Some(21),
    checks: (0, WHOLE),
};

/// What `map` puts of the file, and `dump` puts what was loaded.
const MAP: &str = "class 2 5 0 0\nclass 3 10 1 0\nclass 6 100 11 0\n\
    object a 16 100\nobject b 5 10\nobject c 0 5\n";

/// A load of the dump in pieces of at most so many bytes, and what it left.
fn try_pieces(rt: &impl Abort, alloc: Global, input: &[u8], piece: usize)
    requires { 0 < piece }
{
    let ran = load(rt, alloc, LOAD, MemDisk::new(alloc), input, piece);
    let disk = try_told(rt, alloc, ran.disk, &["map", "f"], MAP, &piece);
    let dumped = told(rt, alloc, disk, &["dump", "f"]);
    try_bytes(rt, &dumped.put, input, &piece);
}

#[test]
fn loads_what_was_dumped(rt: HostRuntime) {
    let input = whole(&rt, rt.alloc());
    try_input(&rt, rt.alloc(), LOAD, &input, LOADED);
    try_pieces(&rt, rt.alloc(), &input, 1);
    try_pieces(&rt, rt.alloc(), &input, 2);
    try_pieces(&rt, rt.alloc(), &input, 4096);
}

/// From how many bytes on a front of the dump is refused so, and what `check` puts then.
const FRONTS: &[(usize, &str, (u8, &str))] = &[
    (195, "fault request 3\n", (0, EMPTY)),
    (175, "fault request 2\n", (0, EMPTY)),
    (64, "fault request 1\n", (0, EMPTY)),
    (0, "fault request 0\n", NONE),
];

/// A front of the dump.
fn try_front(rt: &impl Abort, alloc: Global, front: &[u8]) {
    for (from, puts, checks) in FRONTS {
        if *from <= front.len() {
            let row = Row {
                status: 2,
                puts: *puts,
                turns: None,
                checks: *checks,
            };
            try_input(rt, alloc, LOAD, front, &row);
            return;
        }
    }
}

#[test]
fn refuses_each_front_of_a_dump(rt: HostRuntime) {
    let input = whole(&rt, rt.alloc());
    for n in 0..209 {
        let front = input.get(..n).unwrap_or(b"");
        try_front(&rt, rt.alloc(), front);
    }
}

/// A byte of the dump that is another one, and the number of the refusal: of the first line, of an object,
/// and one more where a volume isn't filled or something follows. A load of what is a dump still has none.
const CHANGES: &[(Change, Option<&str>)] = &[
    ((0, b'D'), Some("fault request 0\n")),
    ((4, b'_'), Some("fault request 0\n")),
    // Two objects, four, and none, which have no bytes.
    ((5, b'2'), Some("fault request 3\n")),
    ((5, b'4'), Some("fault request 4\n")),
    ((5, b'0'), Some("fault request 0\n")),
    // Volumes that aren't filled, that are too small, and with a leading zero.
    ((7, b'1'), Some("fault request 4\n")),
    ((11, b'4'), Some("fault request 3\n")),
    ((11, b'6'), Some("fault request 4\n")),
    ((14, b'1'), Some("fault request 4\n")),
    ((20, b'2'), Some("fault request 4\n")),
    ((20, b'0'), Some("fault request 0\n")),
    ((62, b'1'), Some("fault request 4\n")),
    ((63, b' '), Some("fault request 0\n")),
    // The line of `a`: another word, a name after that of `b`, one byte more, and no newline.
    ((64, b'P'), Some("fault request 1\n")),
    ((68, b'c'), Some("fault request 2\n")),
    ((72, b'1'), Some("fault request 1\n")),
    ((73, b' '), Some("fault request 1\n")),
    ((174, b'x'), Some("fault request 1\n")),
    // The line of `b`: another word, the name before, one after `c`, one byte more.
    ((175, b'g'), Some("fault request 2\n")),
    ((179, b'a'), Some("fault request 2\n")),
    ((179, b'd'), Some("fault request 3\n")),
    ((182, b'1'), Some("fault request 2\n")),
    ((194, b'0'), Some("fault request 2\n")),
    // The line of `c`: the name before, one byte less and one more, and no newline behind its bytes.
    ((199, b'b'), Some("fault request 3\n")),
    ((201, b'4'), Some("fault request 3\n")),
    ((201, b'6'), Some("fault request 3\n")),
    ((208, b'x'), Some("fault request 3\n")),
    // A greater name, and other bytes of an object.
    ((199, b'd'), None),
    ((74, b'x'), None),
    ((203, b'\n'), None),
];

/// The dump with one byte changed.
fn changed(rt: &impl Abort, alloc: Global, change: Change) -> Vec<u8> {
    let mut input = whole(rt, alloc);
    put(&mut input, &[change]);
    input
}

/// What a load of it comes to.
fn try_change(rt: &impl Abort, alloc: Global, change: Change, refused: Option<&str>) {
    let (status, text) = match refused {
        Some(line) => (2, line),
        None => (0, "loaded\n"),
    };
    let input = changed(rt, alloc, change);
    let ran = load(rt, alloc, LOAD, MemDisk::new(alloc), &input, 7);
    try_end(rt, &ran, status, text, &change);
}

#[test]
fn says_where_a_dump_was_changed(rt: HostRuntime) {
    for (change, refused) in CHANGES {
        try_change(&rt, rt.alloc(), *change, *refused);
    }
}

/// Lines of a table of inputs: the status of a load and what it puts, how many changing calls it makes, and
/// what `check` puts then.
macro_rules! inputs {
    ($($input:expr => $status:literal $puts:literal $turns:literal, $check:literal $line:literal;)*) => {
        &[$((
            $input,
            Row { status: $status, puts: $puts, turns: Some($turns), checks: ($check, $line) },
        )),*]
    };
}

/// Other inputs, with a first line of small volumes, and what each comes to.
const INPUTS: &[(&str, Row)] = inputs! {
    "dump 3 1 3 0 0 0 0 0 0 0 0 0 0 0 0 0 0 0 0 0 0 0 0 0 0 0 0 0\n\
        put a 3\nabc\nput b 1\n\n\nput c 0\n\n"
        => 0 "loaded\n" 20, 0 "store 9 16 3 4 4 2 still\n";
    // The last byte is missing, or there is one more.
    "dump 3 1 3 0 0 0 0 0 0 0 0 0 0 0 0 0 0 0 0 0 0 0 0 0 0 0 0 0\n\
        put a 3\nabc\nput b 1\n\n\nput c 0\n"
        => 2 "fault request 3\n" 13, 0 "store 9 16 0 0 4 1 still\n";
    "dump 3 1 3 0 0 0 0 0 0 0 0 0 0 0 0 0 0 0 0 0 0 0 0 0 0 0 0 0\n\
        put a 3\nabc\nput b 1\n\n\nput c 0\n\n\n"
        => 2 "fault request 4\n" 13, 0 "store 9 16 0 0 4 1 still\n";
    // A name comes again, and a class isn't filled by the objects that there are, or by none.
    "dump 3 1 3 0 0 0 0 0 0 0 0 0 0 0 0 0 0 0 0 0 0 0 0 0 0 0 0 0\n\
        put a 3\nabc\nput a 1\n\n\nput c 0\n\n"
        => 2 "fault request 2\n" 12, 0 "store 9 16 0 0 4 1 still\n";
    "dump 2 1 3 0 0 0 0 0 0 0 0 0 0 0 0 0 0 0 0 0 0 0 0 0 0 0 0 0\n\
        put a 3\nabc\nput b 0\n\n"
        => 2 "fault request 3\n" 12, 0 "store 9 16 0 0 4 1 still\n";
    "dump 3 1 7 0 0 0 0 0 0 0 0 0 0 0 0 0 0 0 0 0 0 0 0 0 0 0 0 0\n"
        => 2 "fault request 1\n" 11, 0 "store 9 16 0 0 8 1 still\n";
    // A request that is no put.
    "dump 1 0 0 0 0 0 0 0 0 0 0 0 0 0 0 0 0 0 0 0 0 0 0 0 0 0 0 0\ndel a\n"
        => 2 "fault request 1\n" 11, 0 "store 9 16 0 0 0 1 still\n";
    // The empty map.
    "dump 0 0 0 0 0 0 0 0 0 0 0 0 0 0 0 0 0 0 0 0 0 0 0 0 0 0 0 0\n"
        => 0 "loaded\n" 17, 0 "store 9 16 0 0 0 2 still\n";
    // No first lines: with a leading zero, a volume too few and one too many, and none.
    "dump 03 1 3 0 0 0 0 0 0 0 0 0 0 0 0 0 0 0 0 0 0 0 0 0 0 0 0 0\n"
        => 2 "fault request 0\n" 0, 4 "fault store slot 1\n";
    "dump 0 0 0 0 0 0 0 0 0 0 0 0 0 0 0 0 0 0 0 0 0 0 0 0 0 0 0\n"
        => 2 "fault request 0\n" 0, 4 "fault store slot 1\n";
    "dump 0 0 0 0 0 0 0 0 0 0 0 0 0 0 0 0 0 0 0 0 0 0 0 0 0 0 0 0 0\n"
        => 2 "fault request 0\n" 0, 4 "fault store slot 1\n";
    "" => 2 "fault request 0\n" 0, 4 "fault store slot 1\n";
    "put a 0\n\n" => 2 "fault request 0\n" 0, 4 "fault store slot 1\n";
    // More objects than there may be names.
    "dump 17 0 0 0 0 0 0 0 0 0 0 0 0 0 0 0 0 0 0 0 0 0 0 0 0 0 0 0\n"
        => 14 "fault too many 17\n" 0, 4 "fault store slot 1\n";
};

#[test]
fn loads_small_dumps_and_refuses_others(rt: HostRuntime) {
    for (input, row) in INPUTS {
        try_input(&rt, rt.alloc(), LOAD, input.as_bytes(), row);
    }
}

/// The changing calls that a disk makes before it fails, and what `check` puts then.
const STOPS: &[(u64, (u8, &str))] = &[
    (0, NONE),
    (1, (4, "fault store codec 1 at 0\n")),
    (2, NONE),
    (7, NONE),
    (8, (4, "fault store slot 2\n")),
    (9, (0, "store 9 16 0 0 0 1 still\n")),
    (10, (0, "store 9 16 0 0 0 1 still\n")),
    (11, (0, EMPTY)),
    (12, (0, EMPTY)),
    (13, (0, EMPTY)),
    (14, (0, EMPTY)),
    (15, (0, EMPTY)),
    (16, (0, EMPTY)),
    (17, (0, EMPTY)),
    (18, (0, EMPTY)),
    (19, (0, EMPTY)),
    // The gate of the slot is open.
    (20, (0, WHOLE)),
];

/// A load over a disk that fails after so many changing calls.
fn try_stop(rt: &impl Abort, alloc: Global, calls: u64, checks: (u8, &str)) {
    let input = whole(rt, alloc);
    let fuse = Fuse::stop_after(MemDisk::new(alloc), calls);
    let ran = load(rt, alloc, LOAD, fuse, &input, 64);
    try_end(rt, &ran, 7, "fault disk\n", &calls);
    let file = ran.disk.into_inner();
    try_number(rt, file.turns(), calls, &calls);
    try_file(rt, alloc, file, checks);
}

#[test]
fn leaves_the_empty_map_where_the_disk_fails(rt: HostRuntime) {
    for (calls, checks) in STOPS {
        try_stop(&rt, rt.alloc(), *calls, *checks);
    }
}

/// The call of the source that fails, of pieces of 7 bytes, and what `check` puts then.
const SOURCES: &[(u64, (u8, &str))] = &[(1, NONE), (10, NONE), (11, (0, EMPTY)), (20, (0, EMPTY))];

/// A load of the dump over a source and a sink that fail the listed calls.
fn load_failing(rt: &impl Abort, alloc: Global, takes: Vec<u64>, puts: Vec<u64>) -> Ran<MemDisk> {
    let source = MemSource::new(whole(rt, alloc), 7, takes);
    let new = MemDisk::new(alloc);
    got(rt, run_with(alloc, LOAD, false, new, source, puts))
}

/// A load of an input of which one call fails.
fn try_source(rt: &impl Abort, alloc: Global, call: u64, checks: (u8, &str)) {
    let calls = numbered(rt, alloc, call);
    let ran = load_failing(rt, alloc, calls, Vec::new(alloc));
    try_end(rt, &ran, 8, "fault source\n", &call);
    try_file(rt, alloc, ran.disk, checks);
}

#[test]
fn tells_that_its_input_failed(rt: HostRuntime) {
    for (call, checks) in SOURCES {
        try_source(&rt, rt.alloc(), *call, *checks);
    }
}

/// The line can't be put, and the file is loaded.
#[test]
fn has_loaded_where_the_sink_fails(rt: HostRuntime) {
    let puts = numbered(&rt, rt.alloc(), 1);
    let ran = load_failing(&rt, rt.alloc(), Vec::new(rt.alloc()), puts);
    try_outcome(&rt, ran.outcome, ended(9), &"sink");
    try_file(&rt, rt.alloc(), ran.disk, (0, WHOLE));
}
