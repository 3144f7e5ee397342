//! A flush for a put in place of an object, checkpoints that are asked for, and flushes at the least
//! divisor.
use crate::acts::{Act, try_recorded};
use crate::checkpoints::{Checkpoint, Object};
use crate::flushed::{Step, fresh};
use crate::flushes::{FIRST, TEN, laid, row};
use crate::requests::{Ask, KEPT, QUIET, Reply, Row, refused, rows, try_rows};
use crate::worked::{HUNDRED, TWO, try_checkpoint};
use slot_codec::Header;
use store_core::Refusal;

/// The object of 10 bytes, laid.
pub const TEN_LAID: &[Object] = &[laid!("a", 0, TEN)];

/// 10 bytes in place of 100. The new ones find room in the buffer, and the old ones find none.
const REPLACED: Step = Step {
    row: row!(Ask::Put("a", TEN) => KEPT, 20),
    length: 11,
    sequence: 4,
    asked: &[(3, 10), (6, 200)],
    moved: &[(3, 20), (6, 100)],
    caps: &[(3, 10)],
    objects: TEN_LAID,
};

/// The put of the object, and the one in its place.
const REPLACEMENT: &[Step] = &[FIRST, REPLACED];

/// What is read once the object is replaced.
const READS: &[Row] = rows! {
    Ask::Get("a") => Reply::Number(10), TEN, 0;
    Ask::Old("a") => Reply::Number(10), TEN, 0;
};

/// Both puts, and what is read then.
const REPLACING: &[Act] = &[Act::Steps(REPLACEMENT), Act::Rows(READS)];

#[test]
fn flushes_for_a_put_that_finds_room(rt: HostRuntime) {
    try_recorded(&rt, rt.alloc(), 9, REPLACING);
}

/// The second checkpoint of a store with an object in a buffer.
fn two_kept() -> Checkpoint {
    Checkpoint {
        header: Header {
            version: 1,
            sequence: 3,
            ..TWO.header
        },
        ..TWO
    }
}

/// An object in a buffer that is kept, removed, and there again.
const KEPT_ROWS: &[Row] = rows! {
    Ask::Put("p", HUNDRED) => KEPT, b"", 12;
    Ask::Put("q", b"wxyz") => QUIET, b"", 1;
    Ask::Old("q") => refused!(Missing), b"", 0;
    Ask::Keep => KEPT, b"", 7;
    Ask::Del("q") => QUIET, b"", 0;
    Ask::Old("q") => Reply::Number(4), b"wxyz", 0;
    Ask::Get("q") => refused!(Missing), b"", 0;
    Ask::Back => Reply::Nothing, b"", 0;
    Ask::Get("q") => Reply::Number(4), b"wxyz", 0;
};

#[test]
fn keeps_what_stands_in_a_buffer(rt: HostRuntime) {
    let mut trial = fresh(&rt, rt.alloc());
    try_rows(&rt, rt.alloc(), &mut trial, KEPT_ROWS);
    try_checkpoint(&rt, rt.alloc(), &mut trial, &two_kept());
}

/// A byte that comes and goes twice, at the divisor 2.
const PAIRS: &[Step] = &[
    Step {
        row: row!(Ask::Put("x", b"1") => KEPT, 12),
        length: 1,
        sequence: 2,
        asked: &[(0, 1)],
        moved: &[(0, 1)],
        caps: &[(0, 1)],
        objects: &[laid!("x", 0, b"1")],
    },
    Step {
        row: row!(Ask::Del("x") => KEPT, 9),
        length: 0,
        sequence: 3,
        asked: &[(0, 2)],
        moved: &[(0, 1)],
        caps: &[],
        objects: &[],
    },
    Step {
        row: row!(Ask::Put("x", b"2") => KEPT, 12),
        length: 1,
        sequence: 4,
        asked: &[(0, 3)],
        moved: &[(0, 2)],
        caps: &[(0, 1)],
        objects: &[laid!("x", 0, b"2")],
    },
    Step {
        row: row!(Ask::Del("x") => KEPT, 9),
        length: 0,
        sequence: 5,
        asked: &[(0, 4)],
        moved: &[(0, 2)],
        caps: &[],
        objects: &[],
    },
];

/// All four requests.
const LEAST_DIVISOR: &[Act] = &[Act::Pairs(PAIRS)];

#[test]
fn flushes_at_the_least_divisor(rt: HostRuntime) {
    try_recorded(&rt, rt.alloc(), 2, LEAST_DIVISOR);
}
