//! Flushes that are made one step at a time, with reads between, beside those of one call.
use crate::crashes::CHOICES;
use crate::flushed::fresh;
use crate::flushes::{FIVE, TEN};
use crate::requests::{Looks, try_holds, try_looks};
use crate::slices::{Slicer, slicer_on};
use crate::trials::Trial;
use crate::worked::HUNDRED;
use disk_face::Disk;
use disk_mem::{MemDisk, MemSink};
use std::alloc::Global;
use std::process::Abort;
use store_core::{Begun, Progress, Refusal};

/// A change, what a begin answers to it, how many objects its flush moves, and what stands from then on, or
/// some of it.
#[derive(Clone, Copy, Debug)]
struct Slice {
    name: &'static str,
    /// The bytes that are put; with none the name is removed.
    bytes: Option<&'static [u8]>,
    begun: Begun,
    moves: u64,
    /// How many names are live from then on.
    live: u64,
    stands: &'static [(&'static str, &'static [u8])],
}

/// Begins the change, in the store that is stepped.
fn begin<D: Disk>(rt: &impl Abort, sliced: &mut Slicer<D>, slice: &Slice) -> Begun {
    let begun = match slice.bytes {
        Some(bytes) => sliced.begin_put(slice.name, bytes),
        None => sliced.begin_del(slice.name),
    };
    match begun {
        Some(Ok(begun)) => begun,
        _ => panic!(rt; "a begin"),
    }
}

/// Makes the change by one call, and answers whether it saved a checkpoint.
fn make<D: Disk>(rt: &impl Abort, whole: &mut Trial<D>, slice: &Slice) -> bool {
    let done = match slice.bytes {
        Some(bytes) => whole.put(slice.name, bytes),
        None => whole.del(slice.name),
    };
    match done {
        Ok(done) => done.kept,
        Err(_) => panic!(rt; "a change"),
    }
}

/// Reads what stands, and what was removed.
fn try_reads<D: Disk>(rt: &impl Abort, alloc: Global, sliced: &mut Slicer<D>, slice: &Slice) {
    try_holds(rt, sliced.store().live() == slice.live, slice);
    let mut sink = MemSink::with_room(alloc, 1 << 16, Vec::new(alloc)).expect(rt, "memory");
    for (name, bytes) in slice.stands {
        let put = sink.bytes().len();
        let size = sliced.get(name, &mut sink);
        try_holds(rt, size == Ok(bytes.len() as u64), slice);
        try_holds(rt, sink.bytes().get(put..) == Some(*bytes), slice);
    }
    if slice.bytes.is_none() {
        let gone = sliced.get(slice.name, &mut sink);
        try_holds(rt, gone == Err(Refusal::Missing), slice);
    }
}

/// Steps the flush in hand to its end, with reads before each step, and answers how many objects it moved.
fn step_to_end<D: Disk>(
    rt: &impl Abort,
    alloc: Global,
    sliced: &mut Slicer<D>,
    slice: &Slice,
) -> u64 {
    'steps: for moves in 0..MOST_MOVES {
        try_reads(rt, alloc, sliced, slice);
        if try_step(rt, sliced, slice) == Progress::Settled {
            return moves;
        }
    }
    panic!(rt; "an end")
}

/// Makes a step, which makes at most one save: of no names in 6 calls, of up to 512 in 7. One that moves
/// makes a call beside it, and counts the bytes of one object; the last one makes two, and counts none.
fn try_step<D: Disk>(rt: &impl Abort, sliced: &mut Slicer<D>, slice: &Slice) -> Progress {
    let before = looks(sliced);
    let Some(Ok(progress)) = sliced.step() else {
        panic!(rt; "a step")
    };
    let after = looks(sliced);
    let saves = after.gauge.sequence.saturating_sub(before.gauge.sequence);
    let calls = after.turns.saturating_sub(before.turns);
    let a_save = if slice.live == 0 { 6 } else { 7 };
    let beside = calls.saturating_sub(saves.saturating_mul(a_save));
    let is_one = match progress {
        Progress::Moved => saves <= 1 && beside == 1 && rises(&before, &after) == 1,
        Progress::Settled => saves == 1 && beside == 2 && rises(&before, &after) == 0,
    };
    try_holds(rt, is_one, slice);
    progress
}

/// Of how many classes bytes were counted as moved.
fn rises(before: &Looks, after: &Looks) -> u64 {
    let mut count = 0u64;
    for class in 0..before.moved.len() {
        if before.moved[class] < after.moved[class] {
            count = count.saturating_add(1);
        }
    }
    count
}

/// No flush of these rows moves more objects.
const MOST_MOVES: u64 = 100;

/// What the store that is stepped says of itself.
fn looks<D: Disk>(sliced: &Slicer<D>) -> Looks {
    let store = sliced.store();
    let ledger = store.ledger();
    Looks {
        turns: sliced.turns(),
        gauge: store.gauge(),
        is_broken: store.is_broken(),
        asked: ledger.asked.cells(),
        moved: ledger.moved.cells(),
    }
}

/// Makes a change by one call in one store, and step by step in another: both move and save as much, by as
/// many calls, and what stands is read before each step and at the end.
fn try_slice<D: Disk>(
    rt: &impl Abort,
    alloc: Global,
    whole: &mut Trial<D>,
    sliced: &mut Slicer<D>,
    slice: &Slice,
) {
    let kept = make(rt, whole, slice);
    let begun = begin(rt, sliced, slice);
    try_holds(
        rt,
        begun == slice.begun && kept == (begun == Begun::InHand),
        slice,
    );
    if kept {
        let moves = step_to_end(rt, alloc, sliced, slice);
        try_holds(rt, moves == slice.moves, slice);
    }
    try_holds(rt, sliced.step().is_none(), slice);
    try_reads(rt, alloc, sliced, slice);
    try_looks(rt, whole, &looks(sliced));
}

/// Makes each change in turn in two stores that begin empty.
fn try_slices(rt: &impl Abort, alloc: Global, slices: &[Slice]) {
    let mut whole = fresh(rt, alloc);
    let mut sliced = slicer_on(rt, alloc, fresh(rt, alloc).into_disk());
    for slice in slices {
        try_slice(rt, alloc, &mut whole, &mut sliced, slice);
    }
    for turn in 0..whole.turns().saturating_add(1) {
        try_images(rt, &whole, &sliced, turn);
    }
}

/// What a crash may leave at a turn is the same by one call and step by step.
fn try_images(rt: &impl Abort, whole: &Trial<MemDisk>, sliced: &Slicer<MemDisk>, turn: u64) {
    for choice in CHOICES {
        let same = whole.image(rt, turn, *choice) == sliced.image(rt, turn, *choice);
        try_holds(rt, same, &(turn, *choice));
    }
}

/// A put, what a begin answers to it, how many objects its flush moves, how many names are live, and what
/// stands.
macro_rules! put {
    ($name:literal, $bytes:expr, $begun:ident, $moves:literal, $live:literal, $stands:expr) => {
        Slice {
            name: $name,
            bytes: Some($bytes),
            begun: Begun::$begun,
            moves: $moves,
            live: $live,
            stands: $stands,
        }
    };
}

/// The same of a removal.
macro_rules! del {
    ($name:literal, $begun:ident, $moves:literal, $live:literal, $stands:expr) => {
        Slice {
            name: $name,
            bytes: None,
            begun: Begun::$begun,
            moves: $moves,
            live: $live,
            stands: $stands,
        }
    };
}

/// Three puts, of which the second is quiet, and the removals. The third put moves `c` once and the others
/// twice, and its removal `a` twice; the last object goes without a move.
const SLICES: &[Slice] = &[
    put!("a", HUNDRED, InHand, 1, 1, &[("a", HUNDRED)]),
    put!("b", TEN, Done, 0, 2, &[("a", HUNDRED), ("b", TEN)]),
    put!(
        "c",
        FIVE,
        InHand,
        5,
        3,
        &[("a", HUNDRED), ("b", TEN), ("c", FIVE)]
    ),
    del!("b", Done, 0, 2, &[("a", HUNDRED), ("c", FIVE)]),
    del!("c", InHand, 2, 1, &[("a", HUNDRED)]),
    del!("a", InHand, 0, 0, &[]),
];

#[test]
fn steps_a_flush_as_one_call_makes_it(rt: HostRuntime) {
    try_slices(&rt, rt.alloc(), SLICES);
}

/// Eleven puts of 100 bytes. But for the tenth, which is quiet, each moves its own object once and those
/// before it twice.
const ELEVEN: &[Slice] = &[
    put!("o1", &[1; 100], InHand, 1, 1, &[("o1", &[1; 100])]),
    put!(
        "o2",
        &[2; 100],
        InHand,
        3,
        2,
        &[("o1", &[1; 100]), ("o2", &[2; 100])]
    ),
    put!(
        "o3",
        &[3; 100],
        InHand,
        5,
        3,
        &[("o2", &[2; 100]), ("o3", &[3; 100])]
    ),
    put!(
        "o4",
        &[4; 100],
        InHand,
        7,
        4,
        &[("o3", &[3; 100]), ("o4", &[4; 100])]
    ),
    put!(
        "o5",
        &[5; 100],
        InHand,
        9,
        5,
        &[("o4", &[4; 100]), ("o5", &[5; 100])]
    ),
    put!(
        "o6",
        &[6; 100],
        InHand,
        11,
        6,
        &[("o5", &[5; 100]), ("o6", &[6; 100])]
    ),
    put!(
        "o7",
        &[7; 100],
        InHand,
        13,
        7,
        &[("o6", &[6; 100]), ("o7", &[7; 100])]
    ),
    put!(
        "o8",
        &[8; 100],
        InHand,
        15,
        8,
        &[("o7", &[7; 100]), ("o8", &[8; 100])]
    ),
    put!(
        "o9",
        &[9; 100],
        InHand,
        17,
        9,
        &[("o8", &[8; 100]), ("o9", &[9; 100])]
    ),
    put!(
        "o10",
        &[10; 100],
        Done,
        0,
        10,
        &[("o9", &[9; 100]), ("o10", &[10; 100])]
    ),
    put!(
        "o11",
        &[11; 100],
        InHand,
        21,
        11,
        &[("o10", &[10; 100]), ("o11", &[11; 100])]
    ),
];

#[test]
fn steps_flushes_that_save_between_moves(rt: HostRuntime) {
    try_slices(&rt, rt.alloc(), ELEVEN);
}
