//! Openings of what crashes leave of a flush, and of an opening that goes on with it.
use crate::checkpoints::BASE;
use crate::flushed::fresh;
use crate::flushes::{FIVE, TEN};
use crate::requests::{self, Ask, rows, try_holds, try_rows};
use crate::slices::{Slicer, slicer_on};
use crate::trials::{Trial, on_file};
use crate::worked::HUNDRED;
use disk_mem::{Choice, MemDisk, MemSink};
use std::alloc::Global;
use std::process::Abort;
use store_core::{Begun, Gauge};

/// The names of a store, all that it tells of them, and how long its data part is.
#[derive(Clone, Copy)]
struct Map {
    names: &'static [&'static str],
    /// The list, and the bytes of each.
    told: &'static [u8],
    data: u64,
}

/// The map before the flush.
const ONE: Map = Map {
    names: &["a"],
    told: b"a 100\n\
        0123456789012345678901234567890123456789012345678901234567890123456789012345678901234567890123456789",
    data: 111,
};

/// The map after it.
const THREE: Map = Map {
    names: &["a", "b", "c"],
    told: b"a 100\nb 10\nc 5\n\
        0123456789012345678901234567890123456789012345678901234567890123456789012345678901234567890123456789\
        abcdefghijklmno",
    data: 127,
};

/// How many changing calls had ended as the flush began.
const BEGAN: u64 = 23;

/// A store of 100 bytes that are kept and 10 that aren't, and then the put of 5 bytes, which makes a flush
/// of 23 calls. Its first save has the calls 5 to 11, of which the tenth opens the gate.
fn flushed(rt: &impl Abort, alloc: Global) -> Trial<MemDisk> {
    let mut trial = fresh(rt, alloc);
    try_rows(rt, alloc, &mut trial, PUTS);
    trial
}

/// These puts.
const PUTS: &[requests::Row] = rows! {
    Ask::Put("a", HUNDRED) => requests::KEPT, b"", 12;
    Ask::Put("b", TEN) => requests::QUIET, b"", 1;
    Ask::Put("c", FIVE) => requests::KEPT, b"", 23;
};

/// What opening leaves.
#[derive(Clone, Copy)]
struct Left {
    map: Map,
    sequence: u64,
    /// How many changing calls the opening makes.
    calls: u64,
}

/// A turn and a choice, which an image is of.
type At = (u64, Choice);

/// Opens an image.
fn try_opening(
    rt: &impl Abort,
    alloc: Global,
    at: At,
    image: &[u8],
    left: &Left,
) -> Trial<MemDisk> {
    let mut trial = on_file(rt, alloc, image);
    try_left(rt, &trial, at, left);
    try_map(rt, alloc, &mut trial, &left.map);
    trial
}

/// What the opening left: the gauge, how many changing calls it made, and how long the file is.
fn try_left(rt: &impl Abort, trial: &Trial<MemDisk>, at: At, left: &Left) {
    let gauge = Gauge {
        length: left.map.data,
        sequence: left.sequence,
    };
    let file = trial.image(rt, left.calls, Choice::Durable);
    let data = (file.len() as u64).checked_sub(BASE as u64);
    try_holds(rt, data == Some(left.map.data), &at);
    try_holds(rt, trial.store().gauge() == gauge, &at);
    try_holds(rt, trial.turns() == left.calls, &at);
}

/// The names of a store, and their bytes.
fn try_map(rt: &impl Abort, alloc: Global, trial: &mut Trial<MemDisk>, map: &Map) {
    let mut sink = MemSink::with_room(alloc, 1 << 10, Vec::new(alloc)).expect(rt, "memory");
    trial.store().list(&mut sink).expect(rt, "a list");
    for name in map.names {
        trial.get(name, &mut sink).expect(rt, "an object");
    }
    assert!(rt; sink.bytes() == map.told);
}

/// Opens an image of a store.
fn try_image(rt: &impl Abort, alloc: Global, trial: &Trial<MemDisk>, at: At, left: &Left) {
    let image = trial.image(rt, at.0, at.1);
    try_opening(rt, alloc, at, &image, left);
}

/// An image of a turn of the flush, how long it is, and what opening it leaves.
struct Row {
    turn: u64,
    choice: Choice,
    length: usize,
    left: Left,
}

macro_rules! row {
    ($turn:literal, $choice:expr, $length:literal => $map:ident, $sequence:literal, $calls:literal) => {
        Row {
            turn: $turn,
            choice: $choice,
            length: $length,
            left: Left {
                map: $map,
                sequence: $sequence,
                calls: $calls,
            },
        }
    };
}

/// A file that is longer than its layout is cut in 2 calls. A flush goes on in 12: 3 moves, a save of 7,
/// and the cut.
const ROWS: &[Row] = &[
    row!(3, Choice::Torn(0x5A), 19_857 => ONE, 2, 2),
    row!(9, Choice::Durable, 19_857 => ONE, 2, 2),
    row!(9, Choice::Newest, 19_857 => ONE, 2, 2),
    row!(9, Choice::Torn(0), 19_857 => ONE, 2, 2),
    row!(9, Choice::Torn(0xA5), 19_857 => THREE, 4, 12),
    row!(10, Choice::Durable, 19_857 => ONE, 2, 2),
    row!(10, Choice::Newest, 19_857 => THREE, 4, 12),
    row!(10, Choice::Torn(0), 19_857 => ONE, 2, 2),
    row!(10, Choice::Torn(0xA5), 19_857 => THREE, 4, 12),
    row!(11, Choice::Durable, 19_857 => THREE, 4, 12),
    row!(23, Choice::Durable, 19_730 => THREE, 4, 0),
];

/// Opens an image of the flush.
fn try_row(rt: &impl Abort, alloc: Global, trial: &Trial<MemDisk>, row: &Row) {
    let at = (row.turn.saturating_add(BEGAN), row.choice);
    let image = trial.image(rt, at.0, at.1);
    try_holds(rt, image.len() == row.length, &at);
    try_opening(rt, alloc, at, &image, &row.left);
}

#[test]
fn opens_what_a_flush_leaves(rt: HostRuntime) {
    let trial = flushed(&rt, rt.alloc());
    for row in ROWS {
        try_row(&rt, rt.alloc(), &trial, row);
    }
}

/// How many calls an opening makes on what another left that went on with the flush and was stopped after
/// so many. The tenth call of that one is the sync that follows the gate, and the last two cut the file.
fn calls_after(turn: u64) -> u64 {
    if turn < 10 {
        12
    } else if turn < 12 {
        2
    } else {
        0
    }
}

/// A store that was opened over the image of the flush's eleventh turn, and went on with the flush.
fn gone_on(rt: &impl Abort, alloc: Global) -> Trial<MemDisk> {
    let image = flushed(rt, alloc).image(rt, BEGAN + 11, Choice::Durable);
    on_file(rt, alloc, &image)
}

#[test]
fn opens_what_an_opening_leaves(rt: HostRuntime) {
    let trial = gone_on(&rt, rt.alloc());
    assert!(rt; trial.turns() == 12);
    for turn in 0..13 {
        let left = Left {
            map: THREE,
            sequence: 4,
            calls: calls_after(turn),
        };
        try_image(&rt, rt.alloc(), &trial, (turn, Choice::Durable), &left);
    }
}

/// What the opening leaves of a save that was stopped.
const STOPPED: Left = Left {
    map: ONE,
    sequence: 2,
    calls: 2,
};

const STOPPED_LEFT: &Left = &STOPPED;

/// The same before the next checkpoint is saved, in a file that isn't longer than its layout.
const BEFORE: Left = Left {
    calls: 0,
    ..STOPPED
};

const BEFORE_LEFT: &Left = &BEFORE;

/// The same once it is saved.
const KEPT_LEFT: &Left = &Left {
    sequence: 3,
    ..BEFORE
};

/// The slot that isn't in use has the header of the flush's first save, of sequence 3, behind a closed gate.
fn try_stopped(rt: &impl Abort, alloc: Global) -> Trial<MemDisk> {
    let at = (BEGAN + 9, Choice::Durable);
    let image = flushed(rt, alloc).image(rt, at.0, at.1);
    assert!(rt; image.get(72) == Some(&3) && image.get(9_832) == Some(&0));
    try_opening(rt, alloc, at, &image, STOPPED_LEFT)
}

/// Saves a checkpoint of a store, whose disk had two changing calls.
const KEEP: &[requests::Row] = rows! { Ask::Keep => requests::KEPT, b"", 7; };

#[test]
fn keeps_over_a_save_that_was_stopped(rt: HostRuntime) {
    let mut trial = try_stopped(&rt, rt.alloc());
    try_rows(&rt, rt.alloc(), &mut trial, KEEP);
    try_image(
        &rt,
        rt.alloc(),
        &trial,
        (2, Choice::Torn(0xA5)),
        BEFORE_LEFT,
    );
    try_image(&rt, rt.alloc(), &trial, (9, Choice::Durable), KEPT_LEFT);
}

/// How many steps of a flush were made before its store is let go, and what opening the file leaves.
type Stop = (u64, Left);

/// The first two steps lift an object each, the third saves the first checkpoint with all three, and the
/// sixth settles it.
const STOPS: &[Stop] = &[
    (0, STOPPED),
    (1, STOPPED),
    (2, STOPPED),
    (3, GOES_ON),
    (4, GOES_ON),
    (5, GOES_ON),
    (6, SETTLED),
];

/// What the opening leaves that goes on with the flush.
const GOES_ON: Left = Left {
    map: THREE,
    sequence: 4,
    calls: 12,
};

/// The same of a file whose flush was settled.
const SETTLED: Left = Left {
    calls: 0,
    ..GOES_ON
};

/// Makes the two puts, and begins the one of 5 bytes.
fn begun(rt: &impl Abort, alloc: Global) -> Slicer<MemDisk> {
    let mut sliced = slicer_on(rt, alloc, fresh(rt, alloc).into_disk());
    let first = sliced.put("a", HUNDRED).is_some();
    let second = sliced.put("b", TEN).is_some();
    let third = sliced.begin_put("c", FIVE) == Some(Ok(Begun::InHand));
    assert!(rt; first && second && third);
    sliced
}

/// The list, and the bytes of each name, of a store of which a flush may be in hand.
fn try_told(rt: &impl Abort, alloc: Global, sliced: &mut Slicer<MemDisk>, map: &Map) {
    let mut sink = MemSink::with_room(alloc, 1 << 10, Vec::new(alloc)).expect(rt, "memory");
    sliced.store().list(&mut sink).expect(rt, "a list");
    for name in map.names {
        sliced.get(name, &mut sink).expect(rt, "an object");
    }
    assert!(rt; sink.bytes() == map.told);
}

/// Makes so many steps of the flush, and opens the file as it stands then, as if the store was let go.
fn try_stop(rt: &impl Abort, alloc: Global, stop: &Stop) {
    let mut sliced = begun(rt, alloc);
    for _ in 0..stop.0 {
        try_told(rt, alloc, &mut sliced, &THREE);
        let answer = sliced.step();
        try_holds(rt, answer.is_some(), &stop.0);
    }
    try_told(rt, alloc, &mut sliced, &THREE);
    let file = sliced.file(alloc).expect(rt, "a file");
    try_opening(rt, alloc, (stop.0, Choice::Newest), &file, &stop.1);
}

#[test]
fn opens_what_is_left_between_two_steps(rt: HostRuntime) {
    for stop in STOPS {
        try_stop(&rt, rt.alloc(), stop);
    }
}
