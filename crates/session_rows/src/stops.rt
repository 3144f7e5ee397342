//! A session of three puts and three removals, over a disk that stops after each number of changing calls.
use crate::answers::{fresh, serve_parts, try_holds, try_number, try_ran};
use crate::opened_maps::{Map, NONE, ONE, THREE, try_map};
use disk_face::Disk;
use disk_mem::{Choice, Fuse, MemDisk};
use row_vectors::Outcome;
use row_vectors::inputs::{KEPT, OK, PUT_A, PUT_B, PUT_C};
use std::alloc::Global;
use std::process::Abort;

/// The requests make 12, 1, 23, 0, 0, 0, 19 and 9 changing calls.
const REQUESTS: &[&str] = &[
    PUT_A, PUT_B, PUT_C, "list\n", "stat\n", "del b\n", "del c\n", "del a\n",
];

/// The replies to `list` and `stat`.
const LIST: &str = "list 3\na 100\nb 10\nc 5\n";

const STAT: &str = "stat 3 115 3 115\n";

const FAULT: &str = "fault disk\n";

/// How far the session comes where the disk stops after so many calls or more.
#[derive(Clone, Copy)]
struct Reach {
    from: u64,
    puts: &'static [&'static str],
    outcome: Outcome,
}

macro_rules! reaches {
    ($($from:literal
        => $puts:expr, $status:literal ($done:literal, $kept_done:literal, $kept_turn:literal);)*) => {
        [$(Reach {
            from: $from,
            puts: &$puts,
            outcome: Outcome {
                status: $status,
                done: $done,
                kept_done: $kept_done,
                kept_turn: $kept_turn,
            },
        }),*]
    };
}

/// How far it comes by its stops.
const REACHES: &[Reach] = &reaches! {
    0 => [FAULT], 7 (0, 0, 10);
    12 => [KEPT, FAULT], 7 (1, 1, 22);
    13 => [KEPT, OK, FAULT], 7 (2, 1, 22);
    36 => [KEPT, OK, KEPT, LIST, STAT, OK, FAULT], 7 (6, 3, 46);
    55 => [KEPT, OK, KEPT, LIST, STAT, OK, KEPT, FAULT], 7 (7, 7, 65);
    64 => [KEPT, OK, KEPT, LIST, STAT, OK, KEPT, KEPT], 0 (8, 8, 74);
};

/// How far the session comes at a stop.
fn reach_of(rt: &impl Abort, calls: u64) -> &'static Reach {
    let mut last = None;
    for reach in REACHES {
        if reach.from <= calls {
            last = Some(reach);
        }
    }
    last.expect(rt, "a stop")
}

/// The map after so many requests, from the call on that opened the gate of its checkpoint. The next call
/// syncs that.
#[derive(Clone, Copy)]
struct Checkpoint {
    gate: u64,
    requests: u64,
    map: Map,
}

macro_rules! checkpoints {
    ($($gate:literal => $requests:literal $map:ident;)*) => {
        [$(Checkpoint { gate: $gate, requests: $requests, map: $map }),*]
    };
}

/// The checkpoints of the session.
const CHECKPOINTS: &[Checkpoint] = &checkpoints! {
    0 => 0 NONE;
    9 => 1 ONE;
    23 => 3 THREE;
    44 => 7 ONE;
    61 => 8 NONE;
};

/// Up to which call an image of the last turn has an open gate: where it was written, or synced.
fn seen_at(calls: u64, choice: Choice) -> u64 {
    match choice {
        Choice::Newest => calls,
        Choice::Torn(_) | Choice::Durable => calls.saturating_sub(1),
    }
}

/// The last checkpoint up to a call.
fn checkpoint_of(rt: &impl Abort, seen: u64) -> &'static Checkpoint {
    let mut last = None;
    for checkpoint in CHECKPOINTS {
        if checkpoint.gate <= seen {
            last = Some(checkpoint);
        }
    }
    last.expect(rt, "a checkpoint")
}

/// A fresh file in a fuse that stops after so many calls.
fn fused(rt: &impl Abort, alloc: Global, calls: u64) -> Fuse<MemDisk> {
    Fuse::stop_after(fresh(rt, alloc), calls)
}

/// Serves the session up to a stop, on a fresh file, and gives the disk inside back.
fn stopped(rt: &impl Abort, alloc: Global, calls: u64, reach: &Reach) -> MemDisk {
    let fuse = fused(rt, alloc, calls);
    let ran = serve_parts(rt, alloc, fuse, REQUESTS, 7);
    try_ran(rt, alloc, &ran, reach.puts, reach.outcome, &calls);
    let disk = ran.disk.into_inner();
    // The format made 10.
    try_number(rt, disk.turns(), calls.saturating_add(10), &calls);
    disk
}

/// Whether a checkpoint is the last acknowledged one, or, where the session stopped, the one after the
/// request that it stopped in.
fn is_left(checkpoint: &Checkpoint, outcome: &Outcome) -> bool {
    let is_acknowledged = checkpoint.requests == outcome.kept_done;
    let is_next = outcome.status == 7 && checkpoint.requests == outcome.done.saturating_add(1);
    is_acknowledged || is_next
}

/// An image of the last turn. It has the map at one of these.
fn try_image(rt: &impl Abort, alloc: Global, disk: &MemDisk, outcome: &Outcome, at: (u64, Choice)) {
    let checkpoint = checkpoint_of(rt, seen_at(at.0, at.1));
    try_holds(rt, is_left(checkpoint, outcome), &at);
    let opened = last_image(rt, alloc, disk, at.1);
    try_map(rt, alloc, opened, &checkpoint.map, &at);
}

/// A disk that holds an image of the last turn.
fn last_image(rt: &impl Abort, alloc: Global, disk: &MemDisk, choice: Choice) -> MemDisk {
    let turn = disk.turns();
    let image = disk.image(turn, choice).expect(rt, "memory");
    MemDisk::from_bytes(alloc, &image).expect(rt, "memory")
}

/// What the last sync left, what reads give, and this with one value in each byte that isn't synced.
const CHOICES: &[Choice] = &[Choice::Durable, Choice::Newest, Choice::Torn(90)];

/// What a crash leaves of a session that stopped.
fn try_stop(rt: &impl Abort, alloc: Global, calls: u64) {
    let reach = reach_of(rt, calls);
    let disk = stopped(rt, alloc, calls, reach);
    for choice in CHOICES {
        try_image(rt, alloc, &disk, &reach.outcome, (calls, *choice));
    }
}

/// The stops after so many calls, from one number to before another.
fn try_stops(rt: &impl Abort, alloc: Global, from: u64, to: u64) {
    for calls in from..to {
        try_stop(rt, alloc, calls);
    }
}

#[test]
fn opens_where_the_first_puts_stop(rt: HostRuntime) {
    try_stops(&rt, rt.alloc(), 0, 14);
}

#[test]
fn opens_where_a_put_stops_up_to_its_first_save(rt: HostRuntime) {
    try_stops(&rt, rt.alloc(), 14, 25);
}

#[test]
fn opens_where_a_put_stops_after_its_first_save(rt: HostRuntime) {
    try_stops(&rt, rt.alloc(), 25, 37);
}

#[test]
fn opens_where_a_removal_stops_up_to_its_first_save(rt: HostRuntime) {
    try_stops(&rt, rt.alloc(), 37, 46);
}

#[test]
fn opens_where_a_removal_stops_after_its_first_save(rt: HostRuntime) {
    try_stops(&rt, rt.alloc(), 46, 56);
}

#[test]
fn opens_where_the_last_removal_stops(rt: HostRuntime) {
    try_stops(&rt, rt.alloc(), 56, 65);
}
