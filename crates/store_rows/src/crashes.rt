//! What a crash may leave at each moment of a flush: the last checkpoint, or what stands after the
//! request.
use crate::checkpoints::{BASE, Object, opens_to};
use crate::flushed::fresh;
use crate::flushes::{FIVE, ONE_LAID, TEN, THREE_LAID, row};
use crate::maps::{Which, opened_map};
use crate::replaced::TEN_LAID;
use crate::requests::{Ask, KEPT, QUIET, Row, rows, try_holds, try_rows};
use crate::trials::Trial;
use crate::worked::{HUNDRED, ONE_KEPT};
use disk_mem::{Choice, MemDisk};
use std::alloc::Global;
use std::process::Abort;

/// The images of a turn that are tried: what the last sync left, what reads gave, and the written bytes
/// and those of the write that is next as other ones.
pub const CHOICES: &[Choice] = &[
    Choice::Durable,
    Choice::Newest,
    Choice::Torn(0),
    Choice::Torn(0x5A),
    Choice::Torn(0xFF),
];

/// A request that makes a flush.
struct Moments {
    row: Row,
    /// How long the data part is at most.
    reach: u64,
    /// From this turn of the request on an image may open to what stands after it.
    first: u64,
    /// From this one on each does.
    last: u64,
    before: &'static [Object],
    after: &'static [Object],
}

/// An image of one turn of a request.
fn try_image(rt: &impl Abort, alloc: Global, image: &[u8], at: (u64, Choice), moments: &Moments) {
    let data = (image.len() as u64).saturating_sub(BASE as u64);
    try_holds(rt, BASE <= image.len() && data <= moments.reach, &at);
    let opens = match opened_map(rt, alloc, image, moments.before, moments.after) {
        Which::Before => at.0 < moments.last,
        Which::After => moments.first <= at.0,
        Which::Neither => false,
    };
    try_holds(rt, opens, &at);
}

/// The images of one turn of a request that began at another.
fn try_turn(
    rt: &impl Abort,
    alloc: Global,
    trial: &Trial<MemDisk>,
    began: u64,
    turn: u64,
    moments: &Moments,
) {
    for choice in CHOICES {
        let image = trial.image(rt, began.saturating_add(turn), *choice);
        try_image(rt, alloc, &image, (turn, *choice), moments);
    }
}

/// Makes a request, and tries the images of each of its turns.
fn try_moments(rt: &impl Abort, alloc: Global, trial: &mut Trial<MemDisk>, moments: &Moments) {
    let began = trial.turns();
    try_rows(rt, alloc, trial, &[moments.row]);
    for turn in 0..moments.row.calls.saturating_add(1) {
        try_turn(rt, alloc, trial, began, turn, moments);
    }
}

/// A request with its reply and its changing calls, the reach, the first turn from which an image may open to
/// what stands after it and the one from which each does, and the objects before and after.
macro_rules! moments {
    ($ask:expr => $reply:expr, $calls:literal calls, reach $reach:literal, $first:literal to $last:literal,
        $before:expr => $after:expr) => {
        Moments {
            row: row!($ask => $reply, $calls),
            reach: $reach,
            first: $first,
            last: $last,
            before: $before,
            after: $after,
        }
    };
}

/// A put of 100 bytes, which grows an empty store.
const FIRST: Moments =
    moments!(Ask::Put("a", HUNDRED) => KEPT, 12 calls, reach 312, 8 to 10, &[] => ONE_LAID);

/// A put of 5 bytes, once 10 are put that no checkpoint has.
const THIRD: Moments =
    moments!(Ask::Put("c", FIVE) => KEPT, 23 calls, reach 254, 9 to 11, ONE_LAID => THREE_LAID);

/// The removal of these, once the 10 are removed and no checkpoint has it.
const FOURTH: Moments =
    moments!(Ask::Del("c") => KEPT, 19 calls, reach 239, 7 to 9, THREE_LAID => ONE_LAID);

/// The removal of the last object.
const LAST: Moments = moments!(Ask::Del("a") => KEPT, 9 calls, reach 112, 5 to 7, ONE_LAID => &[]);

/// 10 bytes in place of 100.
const REPLACED: Moments =
    moments!(Ask::Put("a", TEN) => KEPT, 20 calls, reach 132, 8 to 10, ONE_LAID => TEN_LAID);

/// Requests, and then one of which each turn is tried.
type Part = (&'static [Row], &'static Moments);

/// Makes the requests of each part in turn, on a store that begins empty.
fn try_parts(rt: &impl Abort, alloc: Global, parts: &[Part]) {
    let mut trial = fresh(rt, alloc);
    for (rows, moments) in parts {
        try_rows(rt, alloc, &mut trial, rows);
        try_moments(rt, alloc, &mut trial, moments);
    }
}

/// A put that no checkpoint has.
const QUIET_ROWS: &[Row] = rows! {
    Ask::Put("b", TEN) => QUIET, b"", 1;
};

/// The first put, and the one of 5 bytes.
const PUTS: &[Part] = &[(&[], &FIRST), (QUIET_ROWS, &THIRD)];

#[test]
fn a_put_leaves_one_of_two_maps(rt: HostRuntime) {
    try_parts(&rt, rt.alloc(), PUTS);
}

/// What comes before the image of a turn.
const PUT_ROWS: &[Row] = rows! {
    Ask::Put("a", HUNDRED) => KEPT, b"", 12;
    Ask::Put("b", TEN) => QUIET, b"", 1;
    Ask::Put("c", FIVE) => KEPT, b"", 23;
};

/// The image of the third turn of the put of 5 bytes, which began after 23 calls: the object of the
/// checkpoint stands, and what was written is torn.
#[test]
fn a_put_leaves_the_object_of_the_checkpoint(rt: HostRuntime) {
    let mut trial = fresh(&rt, rt.alloc());
    try_rows(&rt, rt.alloc(), &mut trial, PUT_ROWS);
    let image = trial.image(&rt, 26, Choice::Torn(0x5A));
    assert!(rt; image.len() == 19_857 && opens_to(&rt, rt.alloc(), &image, ONE_KEPT));
}

/// What comes before the removals.
const THREE_ROWS: &[Row] = rows! {
    Ask::Put("a", HUNDRED) => KEPT, b"", 12;
    Ask::Put("b", TEN) => QUIET, b"", 1;
    Ask::Put("c", FIVE) => KEPT, b"", 23;
    Ask::Del("b") => QUIET, b"", 0;
};

/// The removals of the object of 5 bytes and of the last one.
const REMOVALS: &[Part] = &[(THREE_ROWS, &FOURTH), (&[], &LAST)];

#[test]
fn a_removal_leaves_one_of_two_maps(rt: HostRuntime) {
    try_parts(&rt, rt.alloc(), REMOVALS);
}

/// What comes before the replacement.
const ONE_ROWS: &[Row] = rows! {
    Ask::Put("a", HUNDRED) => KEPT, b"", 12;
};

/// The put in place of an object.
const REPLACEMENT: &[Part] = &[(ONE_ROWS, &REPLACED)];

#[test]
fn a_replacement_leaves_one_of_two_maps(rt: HostRuntime) {
    try_parts(&rt, rt.alloc(), REPLACEMENT);
}
