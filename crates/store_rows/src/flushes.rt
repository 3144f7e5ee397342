//! Puts and removals on a fresh store, most of which make a flush.
use crate::acts::{Act, try_plain, try_recorded};
use crate::checkpoints::Object;
use crate::flushed::Step;
use crate::requests::{Ask, KEPT, Looks, QUIET, Reply, Row, refused, rows};
use crate::worked::HUNDRED;
use store_core::{Gauge, Refusal, Stat};

/// A request that puts no bytes.
macro_rules! row {
    ($ask:expr => $reply:expr, $calls:literal) => {
        Row {
            ask: $ask,
            reply: $reply,
            puts: b"",
            calls: $calls,
        }
    };
}

/// An object that stands in a payload segment.
macro_rules! laid {
    ($name:literal, $place:literal, $bytes:expr) => {
        Object {
            name: $name,
            place: $place,
            bytes: $bytes,
            is_buffered: false,
        }
    };
}

pub(crate) use laid;
pub(crate) use row;

/// 10 bytes and 5.
pub const TEN: &[u8] = b"abcdefghij";

pub const FIVE: &[u8] = b"klmno";

/// The objects once `a` is put.
pub const ONE_LAID: &[Object] = &[laid!("a", 0, HUNDRED)];

/// The objects once `c` is put.
pub const THREE_LAID: &[Object] = &[
    laid!("a", 16, HUNDRED),
    laid!("b", 5, TEN),
    laid!("c", 0, FIVE),
];

/// A put of 100 bytes, which grows an empty store.
pub const FIRST: Step = Step {
    row: row!(Ask::Put("a", HUNDRED) => KEPT, 12),
    length: 111,
    sequence: 2,
    asked: &[(6, 100)],
    moved: &[(6, 100)],
    caps: &[(6, 100)],
    objects: ONE_LAID,
};

/// A put of 10 bytes, for which the buffer has room.
const SECOND: Step = Step {
    row: row!(Ask::Put("b", TEN) => QUIET, 1),
    asked: &[(3, 10), (6, 100)],
    ..FIRST
};

/// A put of 5 bytes, for which it has none.
const THIRD: Step = Step {
    row: row!(Ask::Put("c", FIVE) => KEPT, 23),
    length: 127,
    sequence: 4,
    asked: &[(2, 5), (3, 10), (6, 100)],
    moved: &[(2, 5), (3, 20), (6, 300)],
    caps: &[(2, 5), (3, 10), (6, 100)],
    objects: THREE_LAID,
};

/// The puts of them all.
const PUTS: &[Step] = &[FIRST, SECOND, THIRD];

/// The removals of them all.
const REMOVALS: &[Step] = &[
    Step {
        row: row!(Ask::Del("b") => QUIET, 0),
        asked: &[(2, 5), (3, 20), (6, 100)],
        ..THIRD
    },
    Step {
        row: row!(Ask::Del("c") => KEPT, 19),
        length: 111,
        sequence: 6,
        asked: &[(2, 10), (3, 20), (6, 100)],
        moved: &[(2, 5), (3, 20), (6, 500)],
        caps: &[(6, 100)],
        objects: ONE_LAID,
    },
    Step {
        row: row!(Ask::Del("a") => KEPT, 9),
        length: 0,
        sequence: 7,
        asked: &[(2, 10), (3, 20), (6, 200)],
        moved: &[(2, 5), (3, 20), (6, 500)],
        caps: &[],
        objects: &[],
    },
];

/// What is read once all three are put.
const READS: &[Row] = rows! {
    Ask::Get("a") => Reply::Number(100), HUNDRED, 0;
    Ask::Get("b") => Reply::Number(10), TEN, 0;
    Ask::Get("c") => Reply::Number(5), FIVE, 0;
    Ask::Old("c") => Reply::Number(5), FIVE, 0;
    Ask::List => Reply::Nothing, b"a 100\nb 10\nc 5\n", 0;
    Ask::Stat => Reply::Stat(Stat { names: 3, bytes: 115, kept_names: 3, kept_bytes: 115 }), b"", 0;
};

/// The puts, what is read then, and the removals.
const FLUSHES: &[Act] = &[Act::Steps(PUTS), Act::Rows(READS), Act::Steps(REMOVALS)];

#[test]
fn flushes_where_a_change_finds_no_room(rt: HostRuntime) {
    try_recorded(&rt, rt.alloc(), 9, FLUSHES);
}

#[test]
fn flushes_on_a_plain_disk(rt: HostRuntime) {
    try_plain(&rt, rt.alloc(), 19_915, FLUSHES);
}

/// An object that is moved in 16 pieces, and its removal.
const LARGE_ROWS: &[Row] = rows! {
    Ask::PutZeros("q", 1_048_576) => KEPT, b"", 27;
    Ask::OldSize("q") => Reply::Number(1_048_576), b"", 0;
    Ask::Del("q") => KEPT, b"", 9;
};

/// The put, and the removal.
const LARGE: &[Act] = &[Act::Rows(LARGE_ROWS)];

#[test]
fn flushes_for_a_large_object(rt: HostRuntime) {
    try_plain(&rt, rt.alloc(), 3_281_840, LARGE);
}

/// How far a fresh file reaches while the largest object is put: 19,603 bytes of the head, a wall of
/// 141,674,269, and the object behind it.
const LARGEST_REACH: u64 = 208_802_736;

/// A put of the largest object, which is moved in 1,024 pieces.
const LARGEST_ROWS: &[Row] = rows! {
    Ask::PutZeros("h", 67_108_864) => KEPT, b"", 1035;
};

/// The bytes of the largest object, by class.
const LARGEST: [u64; 32] = [
    0, 0, 0, 0, 0, 0, 0, 0, 0, 0, 0, 0, 0, 0, 0, 0, 0, 0, 0, 0, 0, 0, 0, 0, 0, 0, 67_108_864, 0, 0,
    0, 0, 0,
];

/// What the store says of itself then: the object has a buffer of 7,456,540 bytes.
const LARGEST_LOOKS: Looks = Looks {
    turns: 1_045,
    gauge: Gauge {
        length: 74_565_404,
        sequence: 2,
    },
    is_broken: false,
    asked: LARGEST,
    moved: LARGEST,
};

/// Its size, and its removal.
const LARGEST_GONE: &[Row] = rows! {
    Ask::OldSize("h") => Reply::Number(67_108_864), b"", 0;
    Ask::Del("h") => KEPT, b"", 9;
};

/// The put, what the store says of itself, and the removal.
const LARGEST_ACTS: &[Act] = &[
    Act::Rows(LARGEST_ROWS),
    Act::Looks(&LARGEST_LOOKS),
    Act::Rows(LARGEST_GONE),
];

#[test]
fn flushes_for_the_largest_object(rt: HostRuntime) {
    try_plain(&rt, rt.alloc(), LARGEST_REACH, LARGEST_ACTS);
}

/// The same put where the disk has room for one byte less: its first call fails.
const LARGEST_REFUSED: &[Row] = rows! {
    Ask::PutZeros("h", 67_108_864) => refused!(Disk), b"", 1;
    Ask::Stat => refused!(Broken), b"", 0;
};

/// That put.
const REFUSED: &[Act] = &[Act::Rows(LARGEST_REFUSED)];

#[test]
fn fails_where_the_largest_object_has_no_room(rt: HostRuntime) {
    try_plain(&rt, rt.alloc(), LARGEST_REACH - 1, REFUSED);
}
