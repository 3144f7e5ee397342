//! A script over a disk that fails one changing call, and what a crash may leave at each turn: the checkpoint
//! before, or the one that is being written.
use crate::acts::{ACTS, Act, puts_before, script_of};
use crate::plays::{Played, formatted, joined, play, try_holds, try_played};
use desk_core::End;
use disk_face::Disk;
use disk_mem::{Choice, Fuse, MemDisk};
use std::alloc::Global;
use std::process::Abort;

/// The changing calls of a format.
const FORMAT: u64 = 10;

/// The changing calls of the script.
const CALLS: u64 = 50;

/// A checkpoint of the script, from the call on that opens its gate. The next call syncs that.
#[derive(Clone, Copy, Debug)]
struct Stage {
    gate: u64,
    /// What is found in a file that has it.
    finds: &'static [u8],
}

/// The format's; that of the first flush; that of the first `keep`; the moving table that the second flush
/// saves before its third move; its settled one; and that of the second `keep`.
const STAGES: &[Stage] = &[
    Stage {
        gate: 0,
        finds: NONE,
    },
    Stage {
        gate: 9,
        finds: ONE,
    },
    Stage {
        gate: 19,
        finds: TWO,
    },
    Stage {
        gate: 30,
        finds: THREE,
    },
    Stage {
        gate: 40,
        finds: THREE,
    },
    Stage {
        gate: 49,
        finds: THREE,
    },
];

/// What is asked of a file that opens.
const LOOK: &[u8] =
    b"say 0\nlist\nsay 1\nget a\nsay 2\nget b\nsay 3\nget c\nserve 0\nserve 1\nserve 2\nserve 3\n";

/// The answers where it has no object, `a` alone, `a` and `b`, and all three.
const NONE: &[u8] = b"queued 0\nqueued 1\nqueued 2\nqueued 3\nto 0\nlist 0\nto 1\nrefused missing\n\
    to 2\nrefused missing\nto 3\nrefused missing\nleft 0\n";

const ONE: &[u8] = b"queued 0\nqueued 1\nqueued 2\nqueued 3\nto 0\nlist 1\na 100\nto 1\ndata 100\n\
    0123456789012345678901234567890123456789012345678901234567890123456789\
    012345678901234567890123456789\nto 2\nrefused missing\nto 3\nrefused missing\nleft 0\n";

const TWO: &[u8] =
    b"queued 0\nqueued 1\nqueued 2\nqueued 3\nto 0\nlist 2\na 100\nb 10\nto 1\ndata 100\n\
    0123456789012345678901234567890123456789012345678901234567890123456789\
    012345678901234567890123456789\nto 2\ndata 10\nabcdefghij\nto 3\nrefused missing\nleft 0\n";

const THREE: &[u8] =
    b"queued 0\nqueued 1\nqueued 2\nqueued 3\nto 0\nlist 3\na 100\nb 10\nc 5\nto 1\n\
    data 100\n0123456789012345678901234567890123456789012345678901234567890123456789\
    012345678901234567890123456789\nto 2\ndata 10\nabcdefghij\nto 3\ndata 5\nklmno\nleft 0\n";

/// The last stage up to a call.
fn stage_at(rt: &impl Abort, call: u64) -> Stage {
    let mut last = None;
    for stage in STAGES {
        if stage.gate <= call {
            last = Some(*stage);
        }
    }
    last.expect(rt, "a stage")
}

/// What the last sync left, and what reads give.
const UNTORN: &[Choice] = &[Choice::Durable, Choice::Newest];

/// The same, and what reads give with one value in each byte that isn't synced or that the next call writes.
const CHOICES: &[Choice] = &[
    Choice::Durable,
    Choice::Newest,
    Choice::Torn(0x5A),
    Choice::Torn(0xA5),
];

/// Up to which call an image after so many calls has an open gate: where it was written, or synced, or where
/// it is the byte that each torn one is.
fn seen_at(calls: u64, choice: Choice) -> u64 {
    match choice {
        Choice::Newest => calls,
        Choice::Torn(0xA5) => calls.saturating_add(1),
        Choice::Torn(_) | Choice::Durable => calls.saturating_sub(1),
    }
}

/// What is found in an image after so many calls of the script.
fn try_image(rt: &impl Abort, alloc: Global, disk: &MemDisk, at: (u64, Choice)) {
    let turn = at.0.saturating_add(FORMAT);
    assert!(rt; turn <= disk.turns());
    let image = disk.image(turn, at.1).expect(rt, "memory");
    let file = MemDisk::from_bytes(alloc, &image).expect(rt, "memory");
    let looked = play(rt, alloc, file, joined(rt, alloc, LOOK, b""), 4096);
    let stage = stage_at(rt, seen_at(at.0, at.1));
    try_played(rt, &looked, End::End, stage.finds, &at);
}

/// The images after so many calls of the script.
fn try_images(rt: &impl Abort, alloc: Global, disk: &MemDisk, calls: u64, choices: &[Choice]) {
    for choice in choices {
        try_image(rt, alloc, disk, (calls, *choice));
    }
}

/// Plays events over a new store whose disk fails the call of this number, counted from its opening.
fn play_failing(rt: &impl Abort, alloc: Global, acts: &[Act], call: u64) -> Played<Fuse<MemDisk>> {
    let changes = vec![in alloc; call].expect(rt, "memory");
    let fuse = Fuse::listed(formatted(rt, alloc), changes, Vec::new(alloc));
    play(rt, alloc, fuse, script_of(rt, alloc, acts), 64)
}

/// What is put then, and what a crash may leave of the calls before.
fn try_failing(rt: &impl Abort, alloc: Global, acts: &[Act], call: u64) {
    let played = play_failing(rt, alloc, acts, call);
    let put = puts_before(rt, alloc, acts, call);
    try_played(rt, &played, End::Disk, &put, &call);
    let disk = played.disk.into_inner();
    let calls = call.saturating_sub(1);
    try_holds(rt, disk.turns() == calls.saturating_add(FORMAT), &call);
    try_images(rt, alloc, &disk, calls, UNTORN);
}

/// The calls from one number on to before another.
fn try_calls(rt: &impl Abort, alloc: Global, acts: &[Act], from: u64, to: u64) {
    for call in from..to {
        try_failing(rt, alloc, acts, call);
    }
}

#[test]
fn ends_at_a_failing_call_with_one_of_two_checkpoints(rt: HostRuntime) {
    try_calls(&rt, rt.alloc(), ACTS, 1, CALLS + 1);
}

/// How many of the events are played, so that the input ends with a flush in hand, which is finished then;
/// and the calls of its steps.
type Row = (usize, u64, u64);

const ROWS: &[Row] = &[(2, 3, 13), (11, 23, 44)];

fn try_row(rt: &impl Abort, alloc: Global, row: &Row) {
    let acts = ACTS.get(..row.0).expect(rt, "events");
    try_calls(rt, alloc, acts, row.1, row.2);
}

#[test]
fn ends_at_a_failing_call_of_the_flush_that_it_finishes(rt: HostRuntime) {
    for row in ROWS {
        try_row(&rt, rt.alloc(), row);
    }
}

/// The disk after the whole script.
fn played(rt: &impl Abort, alloc: Global) -> MemDisk {
    let played = play(
        rt,
        alloc,
        formatted(rt, alloc),
        script_of(rt, alloc, ACTS),
        64,
    );
    try_holds(rt, played.disk.turns() == CALLS + FORMAT, &CALLS);
    played.disk
}

#[test]
fn leaves_one_of_two_checkpoints_at_each_turn(rt: HostRuntime) {
    let disk = played(&rt, rt.alloc());
    for calls in 0..CALLS + 1 {
        try_images(&rt, rt.alloc(), &disk, calls, CHOICES);
    }
}
