//! `desk` of files that sessions made: what it puts, how it ends, and what is left where it is stopped.
ghost use Rattle.std.specs.Prelude.{IsTrue};

use crate::answers::{got, numbered, played, stored, try_end, try_holds, try_puts, try_ran};
use disk_face::Disk;
use disk_mem::{Fuse, MemDisk};
use row_vectors::inputs::{DATA_A, DATA_B, MISSING, PUT_A, PUT_B, PUT_C};
use row_vectors::runs::{Ran, ended, joined, session};
use std::alloc::Global;
use std::process::Abort;

const DESK: &[&str] = &["desk", "f"];

/// Plays a script, by its parts, in pieces of 7 bytes. The source and the sink fail the listed calls.
fn desk_on<D: Disk + Drop>(
    rt: &impl Abort,
    alloc: Global,
    disk: D,
    script: &[&str],
    takes: Vec<u64>,
    puts: Vec<u64>,
) -> Ran<D>
    requires ready { IsTrue (D.state disk).is_ready }
    ensures { IsTrue (D.state result.disk).is_ready }
{
    played(rt, alloc, disk, DESK, script, takes, puts)
}

/// What a session looks at.
const LOOK: &[u8] = b"list\nget a\nget b\n";

/// What it finds of `a` of 100 bytes, with `b` of 10, with `c` of 5 too, and with `d` of 12 in place of
/// these.
const HAS_A: &[&str] = &["list 1\na 100\n", DATA_A, MISSING];

const HAS_AB: &[&str] = &["list 2\na 100\nb 10\n", DATA_A, DATA_B];

const HAS_ABC: &[&str] = &["list 3\na 100\nb 10\nc 5\n", DATA_A, DATA_B];

const HAS_AD: &[&str] = &["list 2\na 100\nd 12\n", DATA_A, MISSING];

/// What a session finds in a file.
fn found(rt: &impl Abort, alloc: Global, disk: MemDisk) -> Vec<u8> {
    got(rt, session(alloc, disk, LOOK, 7)).put
}

// ---- scripts

/// What the file has before, the script, how it ends and what it puts, and what the file has then.
#[derive(Clone, Copy)]
struct Row {
    before: &'static [&'static str],
    script: &'static [&'static str],
    status: u8,
    puts: &'static [&'static str],
    after: &'static [&'static str],
}

macro_rules! rows {
    ($($before:expr, $script:expr => $status:literal $puts:expr, $after:ident;)*) => {
        &[$(Row { before: &$before, script: &$script, status: $status, puts: &$puts, after: $after }),*]
    };
}

/// Two sessions, one of which reads while a flush of the other is in hand, and waits to save.
const WORKED: &Row = &Row {
    before: &[PUT_A, PUT_B, "keep\n"],
    script: &[
        "say 0\n",
        PUT_C,
        "say 1\nget b\nserve 0\nstep\nserve 1\nserve 1\nsay 1\nkeep\nserve 1\n",
        "step\nstep\nstep\nstep\nstep\nstep\nserve 1\n",
    ],
    status: 0,
    puts: &[
        "queued 0\nqueued 1\nbegun 0\nmoved\nto 1\n",
        DATA_B,
        "empty 1\nqueued 1\nwait 1\n",
        "moved\nmoved\nmoved\nmoved\nto 0\nok kept\nidle\nto 1\nok kept\nleft 0\n",
    ],
    after: HAS_ABC,
};

/// A put of 12 bytes, which find no room beside 100.
const PUT_D: &str = "put d 12\nabcdefghijkl\n";

const ROWS: &[Row] = rows! {
    [PUT_A], [] => 0 ["left 0\n"], HAS_A;
    // All kinds of requests of one session, and what isn't saved.
    [PUT_A], ["say 7\nstat\nsay 7\nlist\nsay 7\nget a\nsay 7\n", PUT_B,
        "say 7\nold b\nsay 7\nback\nsay 7\ndel x\n",
        "say 7\nkeep\nserve 7\nserve 7\nserve 7\nserve 7\nserve 7\nserve 7\nserve 7\nserve 7\nserve 7\n"]
        => 0 ["queued 7\nqueued 7\nqueued 7\nqueued 7\nqueued 7\nqueued 7\nqueued 7\nqueued 7\n",
        "to 7\nstat 1 100 1 100\nto 7\nlist 1\na 100\nto 7\n", DATA_A, "to 7\nok\nto 7\nrefused missing\n",
        "to 7\nok\nto 7\nrefused missing\nto 7\nok kept\nempty 7\nleft 0\n"], HAS_A;
    // While a flush is in hand its own session waits, and of the others all but `get` and `list` do.
    [PUT_A], ["say 0\n", PUT_D, "serve 0\nsay 0\nget a\nserve 0\n",
        "say 1\nstat\nsay 2\n", PUT_B, "say 3\ndel a\nsay 4\nold a\nsay 5\nback\nsay 6\nlist\nsay 7\nget d\n",
        "serve 1\nserve 2\nserve 3\nserve 4\nserve 5\nserve 6\nserve 7\n"]
        => 0 ["queued 0\nbegun 0\nqueued 0\nwait 0\n",
        "queued 1\nqueued 2\nqueued 3\nqueued 4\nqueued 5\nqueued 6\nqueued 7\n",
        "wait 1\nwait 2\nwait 3\nwait 4\nwait 5\nto 6\nlist 2\na 100\nd 12\nto 7\ndata 12\nabcdefghijkl\n",
        "to 0\nok kept\nleft 6\n"], HAS_AD;
    // An input that ends with a flush in hand, which is finished; one that fails with it in hand leaves it.
    [PUT_A], ["say 0\n", PUT_D, "serve 0\n"] => 0 ["queued 0\nbegun 0\nto 0\nok kept\nleft 0\n"], HAS_AD;
    [PUT_A], ["say 0\n", PUT_D, "serve 0\nserves\n"] => 2 ["queued 0\nbegun 0\nfault request 3\n"], HAS_A;
    // What wasn't saved goes with the desk.
    [PUT_A], ["say 0\n", PUT_B, "serve 0\n"] => 0 ["queued 0\nto 0\nok\nleft 0\n"], HAS_A;
    [PUT_A], ["say 0\n", PUT_B, "serve 0\nsay 1\nkeep\nserve 1\n"]
        => 0 ["queued 0\nto 0\nok\nqueued 1\nto 1\nok kept\nleft 0\n"], HAS_AB;
    // Requests wait in the order of their session.
    [PUT_A], ["say 2\nget b\nsay 3\nget a\nsay 2\nstat\nserve 3\nserve 2\nserve 2\nserve 2\n"]
        => 0 ["queued 2\nqueued 3\nqueued 2\nto 3\n", DATA_A,
        "to 2\nrefused missing\nto 2\nstat 1 100 1 100\n",
        "empty 2\nleft 0\n"], HAS_A;
};

/// Plays a script over devices that don't fail.
fn desk_over<D: Disk + Drop>(rt: &impl Abort, alloc: Global, disk: D, script: &[&str]) -> Ran<D>
    requires ready { IsTrue (D.state disk).is_ready }
    ensures { IsTrue (D.state result.disk).is_ready }
{
    desk_on(rt, alloc, disk, script, Vec::new(alloc), Vec::new(alloc))
}

/// What a script comes to.
fn try_row(rt: &impl Abort, alloc: Global, row: &Row) {
    let ran = desk_over(rt, alloc, stored(rt, alloc, row.before), row.script);
    try_ran(rt, alloc, &ran, row.puts, ended(row.status), &row.script);
    let after = found(rt, alloc, ran.disk);
    try_puts(rt, alloc, &after, row.after, &row.script);
}

/// A script of one part over a file that has `a` before and after it, how it ends and what it puts.
type Short = (&'static str, u8, &'static str);

macro_rules! shorts {
    ($($script:literal => $status:literal $puts:literal;)*) => {
        &[$(($script, $status, $puts)),*]
    };
}

const SHORTS: &[Short] = shorts! {
    // A name that is too long for a store, but not for a line.
    "say 1\nget 0123456789012345678901234567890123456789012345678901234567890123\nserve 1\n"
        => 0 "queued 1\nto 1\nrefused name\nleft 0\n";
    // No events.
    "say 8\nstat\n" => 2 "fault request 1\n";
    "say 00\nstat\n" => 2 "fault request 1\n";
    "say\nstat\n" => 2 "fault request 1\n";
    "serve\n" => 2 "fault request 1\n";
    "serve 0 \n" => 2 "fault request 1\n";
    "serve a\n" => 2 "fault request 1\n";
    "step 0\n" => 2 "fault request 1\n";
    "Step\n" => 2 "fault request 1\n";
    "stat\n" => 2 "fault request 1\n";
    "\n" => 2 "fault request 1\n";
    // No request behind a `say`, half of one, and the end of the input within an event.
    "say 0\nsay 0\nstat\n" => 2 "fault request 1\n";
    "say 0\nget\n" => 2 "fault request 1\n";
    "say 0\nput b 3\nabcd\n" => 2 "fault request 1\n";
    "say 0\n" => 2 "fault request 1\n";
    "say 0\nstat" => 2 "fault request 1\n";
    "step\nstep\nserve 0" => 2 "idle\nidle\nfault request 3\n";
    "say 0\nstat\nserve 0\nnothing\n" => 2 "queued 0\nto 0\nstat 1 100 1 100\nfault request 3\n";
};

/// What is left of a file that has `a`.
fn try_left(rt: &impl Abort, alloc: Global, disk: MemDisk, script: &str) {
    let after = found(rt, alloc, disk);
    try_puts(rt, alloc, &after, HAS_A, &script);
}

/// What such a script comes to.
fn try_short(rt: &impl Abort, alloc: Global, row: &Short) {
    let (script, status, puts) = *row;
    let ran = desk_over(rt, alloc, stored(rt, alloc, &[PUT_A]), &[script]);
    try_end(rt, &ran, status, puts, &script);
    try_left(rt, alloc, ran.disk, script);
}

/// The short scripts.
fn try_shorts(rt: &impl Abort, alloc: Global) {
    for row in SHORTS {
        try_short(rt, alloc, row);
    }
}

#[test]
fn serves_two_sessions_while_a_flush_is_in_hand(rt: HostRuntime) {
    try_row(&rt, rt.alloc(), WORKED);
}

#[test]
fn answers_each_event(rt: HostRuntime) {
    for row in ROWS {
        try_row(&rt, rt.alloc(), row);
    }
    try_shorts(&rt, rt.alloc());
}

// ---- devices that fail

/// Whether these bytes are a front of the worked script's answers, and then a line.
fn is_front(rt: &impl Abort, alloc: Global, put: &[u8], line: &str) -> bool {
    let whole = got(rt, joined(alloc, WORKED.puts));
    match put.strip_suffix(line.as_bytes()) {
        Some(front) => whole.starts_with(front),
        None => false,
    }
}

/// Whether a session found these parts.
fn is_found(rt: &impl Abort, alloc: Global, found: &[u8], parts: &[&str]) -> bool {
    got(rt, joined(alloc, parts)).as_slice() == found
}

/// Whether a session finds what the file had before the script or has after it.
fn is_one_of_two(rt: &impl Abort, alloc: Global, disk: MemDisk) -> bool {
    let found = found(rt, alloc, disk);
    is_found(rt, alloc, &found, HAS_AB) || is_found(rt, alloc, &found, HAS_ABC)
}

/// What a script put that a device may have stopped, with this status and this line. Whether it was all done
/// comes back.
fn try_put<D: Disk>(
    rt: &impl Abort,
    alloc: Global,
    ran: &Ran<D>,
    stop: (u8, &str),
    call: u64,
) -> bool {
    let is_whole = ran.outcome.status == 0;
    let line = if is_whole { "" } else { stop.1 };
    try_holds(rt, is_whole || ran.outcome.status == stop.0, &call);
    try_holds(rt, is_front(rt, alloc, &ran.put, line), &call);
    is_whole
}

/// More calls than the script makes of a device.
const MOST: u64 = 200;

/// The disk stops after so many changing calls. Whether it was all done comes back.
fn try_stopped(rt: &impl Abort, alloc: Global, calls: u64) -> bool {
    let fuse = Fuse::stop_after(stored(rt, alloc, WORKED.before), calls);
    let ran = desk_over(rt, alloc, fuse, WORKED.script);
    let is_whole = try_put(rt, alloc, &ran, (7, "fault disk\n"), calls);
    try_holds(rt, is_one_of_two(rt, alloc, ran.disk.into_inner()), &calls);
    is_whole
}

#[test]
fn leaves_one_of_two_maps_where_the_disk_stops(rt: HostRuntime) {
    for calls in 0..MOST {
        if try_stopped(&rt, rt.alloc(), calls) {
            return;
        }
    }
    panic!(rt; "a desk that doesn't end");
}

/// Plays the worked script where the input, or else the output, fails one call.
fn failed(rt: &impl Abort, alloc: Global, call: u64, is_input: bool) -> Ran<MemDisk> {
    let file = stored(rt, alloc, WORKED.before);
    let failing = numbered(rt, alloc, call);
    if is_input {
        desk_on(rt, alloc, file, WORKED.script, failing, Vec::new(alloc))
    } else {
        desk_on(rt, alloc, file, WORKED.script, Vec::new(alloc), failing)
    }
}

/// The input, or else the output, fails one call. Whether it was all done comes back.
fn try_failing(rt: &impl Abort, alloc: Global, call: u64, is_input: bool) -> bool {
    let ran = failed(rt, alloc, call, is_input);
    let stop = if is_input {
        (8, "fault source\n")
    } else {
        (9, "")
    };
    let is_whole = try_put(rt, alloc, &ran, stop, call);
    try_holds(rt, is_one_of_two(rt, alloc, ran.disk), &call);
    is_whole
}

/// It fails each call.
fn try_each(rt: &impl Abort, alloc: Global, is_input: bool) {
    for call in 1..MOST {
        if try_failing(rt, alloc, call, is_input) {
            return;
        }
    }
    panic!(rt; "a desk that doesn't end");
}

#[test]
fn says_that_the_input_of_a_desk_failed(rt: HostRuntime) {
    try_each(&rt, rt.alloc(), true);
}

#[test]
fn says_that_the_output_of_a_desk_failed(rt: HostRuntime) {
    try_each(&rt, rt.alloc(), false);
}
