//! What a crash leaves at each turn of a session: what `check` puts, and a session that goes on from it.
use crate::answers::{got, try_number, try_ran};
use crate::further_puts::{FURTHER, NONE, ONE};
use crate::images::{CHOICES, image_at, try_check};
use disk_face::Disk;
use disk_mem::{Choice, MemDisk};
use row_vectors::Outcome;
use row_vectors::runs::{Ran, session};
use std::alloc::Global;
use std::process::Abort;

/// A checkpoint that a file stands for, from a turn on.
#[derive(Clone, Copy)]
pub struct Stage {
    /// The turn at which the call ended that opened its gate. The next call syncs it.
    pub from: u64,
    /// How many objects it has and how many bytes they have, as `check` puts them.
    pub counts: &'static str,
    pub sequence: u64,
    pub kind: &'static str,
    /// How many changing calls an opening makes that goes on with the flush; of one that is still, none.
    pub resumes: u64,
    /// How long the data part is once the file was opened.
    pub end: u64,
    /// What the further session puts, how many changing calls it makes once the file was opened, and what
    /// `check` puts after it.
    pub puts: &'static [&'static str],
    pub calls: u64,
    pub after: &'static str,
}

/// The checkpoint of a format in 10 calls.
pub const FORMATTED: Stage = Stage {
    from: 9,
    counts: "0 0",
    sequence: 1,
    kind: "still",
    resumes: 0,
    end: 0,
    puts: NONE,
    calls: 19,
    after: "store 9 16 1 7 7 3 still\n",
};

/// The one of a put of `a` in the 12 calls after it.
pub const FIRST_PUT: Stage = Stage {
    from: 19,
    counts: "1 100",
    sequence: 2,
    kind: "still",
    resumes: 0,
    end: 111,
    puts: ONE,
    calls: 8,
    after: "store 9 16 2 107 111 3 still\n",
};

/// A session by turns: its checkpoints, and from which turns on the data part is how long, as reads give it
/// and as the last sync left it.
#[derive(Clone, Copy)]
pub struct Story {
    pub stages: &'static [Stage],
    pub newest: &'static [(u64, u64)],
    pub durable: &'static [(u64, u64)],
}

/// Up to which turn an image has open gates: one was written, or synced, or it is the byte that each torn
/// byte is.
fn seen_at(turn: u64, choice: Choice) -> u64 {
    match choice {
        Choice::Newest => turn,
        Choice::Torn(0xA5) => turn.saturating_add(1),
        Choice::Torn(_) | Choice::Durable => turn.saturating_sub(1),
    }
}

/// The last checkpoint up to a turn.
fn stage_at(rt: &impl Abort, story: &Story, seen: u64) -> &'static Stage {
    let mut last = None;
    for stage in story.stages {
        if stage.from <= seen {
            last = Some(stage);
        }
    }
    last.expect(rt, "a turn at which there is a store")
}

/// The last number of a list of which the turn has come.
fn at_turn(numbers: &[(u64, u64)], turn: u64) -> u64 {
    let mut last = 0;
    for (from, number) in numbers {
        if *from <= turn {
            last = *number;
        }
    }
    last
}

/// How long the data part of an image is.
fn data_of(story: &Story, turn: u64, choice: Choice) -> u64 {
    match choice {
        Choice::Durable => at_turn(story.durable, turn),
        _ => at_turn(story.newest, turn),
    }
}

/// An image of a turn.
fn try_moment(rt: &impl Abort, alloc: Global, disk: &MemDisk, story: &Story, at: (u64, Choice)) {
    let stage = stage_at(rt, story, seen_at(at.0, at.1));
    let data = data_of(story, at.0, at.1);
    let image = image_at(rt, disk, at.0, at.1);
    try_image(rt, alloc, &image, stage, data, at);
}

/// The images of a turn.
fn try_turn(rt: &impl Abort, alloc: Global, disk: &MemDisk, story: &Story, turn: u64) {
    for choice in CHOICES {
        try_moment(rt, alloc, disk, story, (turn, *choice));
    }
}

/// What `check` puts of a checkpoint in a data part of some length.
fn line_of(rt: &impl Abort, alloc: Global, stage: &Stage, data: u64) -> String {
    let Stage {
        counts,
        sequence,
        kind,
        ..
    } = *stage;
    format!(in alloc; "store 9 16 {counts} {data} {sequence} {kind}\n").expect(rt, "memory")
}

/// One image, whose data part is so long.
fn try_image(
    rt: &impl Abort,
    alloc: Global,
    image: &[u8],
    stage: &Stage,
    data: u64,
    at: (u64, Choice),
) {
    let line = line_of(rt, alloc, stage, data);
    try_check(rt, alloc, image, 0, &line, at);
    let turn = calls_to_open(stage, data).saturating_add(stage.calls);
    try_further(rt, alloc, image, stage, turn, at);
}

/// How many changing calls an opening makes. A file that is longer than its layout is cut in 2.
fn calls_to_open(stage: &Stage, data: u64) -> u64 {
    if stage.resumes == 0 && stage.end < data {
        2
    } else {
        stage.resumes
    }
}

/// The session that goes on from an image.
fn further(rt: &impl Abort, alloc: Global, image: &[u8]) -> Ran<MemDisk> {
    let disk = MemDisk::from_bytes(alloc, image).expect(rt, "memory");
    got(rt, session(alloc, disk, FURTHER.as_bytes(), 7))
}

/// What that session puts, that its last call was the checkpoint's, at a turn, and what the file durably is
/// then.
fn try_further(
    rt: &impl Abort,
    alloc: Global,
    image: &[u8],
    stage: &Stage,
    turn: u64,
    at: (u64, Choice),
) {
    let ran = further(rt, alloc, image);
    let outcome = Outcome {
        status: 0,
        done: 8,
        kept_done: 8,
        kept_turn: turn,
    };
    try_number(rt, ran.disk.turns(), turn, &at);
    try_ran(rt, alloc, &ran, stage.puts, outcome, &at);
    try_kept(rt, alloc, &ran.disk, turn, stage.after, at);
}

/// What `check` puts of what a disk durably is at a turn.
pub fn try_kept(
    rt: &impl Abort,
    alloc: Global,
    disk: &MemDisk,
    turn: u64,
    puts: &str,
    at: (u64, Choice),
) {
    let kept = image_at(rt, disk, turn, Choice::Durable);
    try_check(rt, alloc, &kept, 0, puts, at);
}

/// The images of the turns of a session from one to before another.
pub fn try_turns(rt: &impl Abort, alloc: Global, disk: &MemDisk, story: &Story, turns: (u64, u64)) {
    for turn in turns.0..turns.1 {
        try_turn(rt, alloc, disk, story, turn);
    }
}
