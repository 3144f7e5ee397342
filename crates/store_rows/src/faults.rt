//! Worked stores that are worn, or whose disk fails.
ghost use Rattle.std.specs.Prelude.{IsTrue};

use crate::checkpoints::Checkpoint;
use crate::flushes::{FIVE, TEN};
use crate::requests::{
    Ask, KEPT, Looks, ONE_TOO_MANY, QUIET, Reply, Row, refused, rows, try_looks, try_rows,
};
use crate::trials::{Trial, on_file, opened};
use crate::worked::{self, AS_BEFORE, HUNDRED, ONE_KEPT, UNCHANGED, one_recorded, try_checkpoint};
use disk_face::Disk;
use disk_mem::{Fuse, MemDisk};
use slot_codec::Header;
use std::alloc::Global;
use std::process::Abort;
use store_core::{Gauge, Refusal, Stat};

/// One name of 100 bytes, now and at the checkpoint.
const ONE: Reply = Reply::Stat(Stat {
    names: 1,
    bytes: 100,
    kept_names: 1,
    kept_bytes: 100,
});

/// The store whose last sequence is this one, by eight bytes of the header in slot 1.
fn at_sequence(rt: &impl Abort, alloc: Global, sequence: u64) -> Trial<MemDisk> {
    let mut trial = one_recorded(rt, alloc);
    let mut bytes = trial.file(rt, alloc);
    assert!(rt; 9_849 <= bytes.len());
    bytes[9_841..9_849].copy_from_slice(&sequence.to_le_bytes());
    on_file(rt, alloc, &bytes)
}

/// Changes of a worn file, and what is still served.
const WORN_ROWS: &[Row] = rows! {
    Ask::Put("b", b"x") => refused!(Worn), b"", 0;
    Ask::Put("a", b"") => refused!(Worn), b"", 0;
    Ask::Del("a") => refused!(Worn), b"", 0;
    Ask::Keep => refused!(Worn), b"", 0;
    Ask::Del("q") => refused!(Missing), b"", 0;
    Ask::Put("a b", b"") => refused!(BadName), b"", 0;
    Ask::PutZeros("b", ONE_TOO_MANY) => refused!(TooLong), b"", 0;
    Ask::Get("a") => Reply::Number(100), HUNDRED, 0;
    Ask::Back => Reply::Nothing, b"", 0;
    Ask::Stat => ONE, b"", 0;
};

/// Changes of a file whose sequence is 2^61, and what is still served.
fn try_worn(rt: &impl Abort, alloc: Global, trial: &mut Trial<MemDisk>) {
    try_rows(rt, alloc, trial, WORN_ROWS);
    try_looks(rt, trial, WORN);
    try_checkpoint(rt, alloc, trial, &worn_kept());
}

/// The checkpoint of the worn file.
fn worn_kept() -> Checkpoint {
    Checkpoint {
        header: Header {
            version: 1,
            sequence: 1 << 61,
            ..worked::ONE.header
        },
        ..worked::ONE
    }
}

/// What the worn store says of itself.
const WORN: &Looks = &Looks {
    turns: 0,
    gauge: Gauge {
        length: 111,
        sequence: 1 << 61,
    },
    ..UNCHANGED
};

#[test]
fn refuses_changes_of_a_worn_file(rt: HostRuntime) {
    let mut worn = at_sequence(&rt, rt.alloc(), 1 << 61);
    try_worn(&rt, rt.alloc(), &mut worn);
}

/// Changes of which one saves the last sequence.
const UP_TO_THERE: &[Row] = rows! {
    Ask::Put("b", b"x") => QUIET, b"", 1;
    Ask::Del("b") => QUIET, b"", 0;
    Ask::Del("a") => KEPT, b"", 9;
    Ask::Put("a", b"") => refused!(Worn), b"", 0;
    Ask::Keep => refused!(Worn), b"", 0;
    Ask::List => Reply::Nothing, b"", 0;
};

#[test]
fn serves_changes_up_to_there(rt: HostRuntime) {
    let mut trial = at_sequence(&rt, rt.alloc(), (1 << 61) - 1);
    try_rows(&rt, rt.alloc(), &mut trial, UP_TO_THERE);
}

/// What the store says of itself after a flush of two saves, the first of which saves the sequence 2^61.
const PAST: &Looks = &Looks {
    turns: 24,
    gauge: Gauge {
        length: 127,
        sequence: (1 << 61) + 1,
    },
    is_broken: false,
    asked: [
        0, 0, 5, 10, 0, 0, 0, 0, 0, 0, 0, 0, 0, 0, 0, 0, 0, 0, 0, 0, 0, 0, 0, 0, 0, 0, 0, 0, 0, 0,
        0, 0,
    ],
    moved: [
        0, 0, 5, 20, 0, 0, 200, 0, 0, 0, 0, 0, 0, 0, 0, 0, 0, 0, 0, 0, 0, 0, 0, 0, 0, 0, 0, 0, 0,
        0, 0, 0,
    ],
};

/// Changes of which one makes a flush of two saves.
const PAST_ROWS: &[Row] = rows! {
    Ask::Put("b", TEN) => QUIET, b"", 1;
    Ask::Put("c", FIVE) => KEPT, b"", 23;
    Ask::Del("c") => refused!(Worn), b"", 0;
};

#[test]
fn ends_a_flush_that_begins_before_there(rt: HostRuntime) {
    let mut trial = at_sequence(&rt, rt.alloc(), (1 << 61) - 1);
    try_rows(&rt, rt.alloc(), &mut trial, PAST_ROWS);
    try_looks(&rt, &trial, PAST);
}

/// A put at which the disk fails, and what the broken store answers to it and to all others.
const BROKEN_ROWS: &[Row] = rows! {
    Ask::Put("b", b"x") => refused!(Disk), b"", 1;
    Ask::Put("b", b"x") => refused!(Broken), b"", 0;
    Ask::Put("a b", b"") => refused!(Broken), b"", 0;
    Ask::Del("a") => refused!(Broken), b"", 0;
    Ask::Get("a") => refused!(Broken), b"", 0;
    Ask::Old("a") => refused!(Broken), b"", 0;
    Ask::Size("a") => refused!(Broken), b"", 0;
    Ask::OldSize("a") => refused!(Broken), b"", 0;
    Ask::List => refused!(Broken), b"", 0;
    Ask::Stat => refused!(Broken), b"", 0;
    Ask::Back => refused!(Broken), b"", 0;
    Ask::Keep => refused!(Broken), b"", 0;
};

/// What the broken store says of itself.
const BROKEN: &Looks = &Looks {
    turns: 20,
    is_broken: true,
    ..UNCHANGED
};

/// A read at which the disk fails, and requests that are served all the same.
const FAILING_ROWS: &[Row] = rows! {
    Ask::Get("a") => refused!(Disk), b"", 0;
    Ask::Get("a") => Reply::Number(100), HUNDRED, 0;
    Ask::Put("z", b"") => QUIET, b"", 0;
    Ask::Back => Reply::Nothing, b"", 0;
};

/// A store whose disk fails the first read of an object, which breaks nothing, and the first write.
fn try_failing(rt: &impl Abort, alloc: Global, trial: &mut Trial<Fuse<MemDisk>>) {
    try_rows(rt, alloc, trial, FAILING_ROWS);
    try_looks(rt, trial, AS_BEFORE);
    try_rows(rt, alloc, trial, BROKEN_ROWS);
    try_looks(rt, trial, BROKEN);
}

/// What the store answers once its file is opened again.
const AGAIN_ROWS: &[Row] = rows! {
    Ask::Stat => ONE, b"", 0;
    Ask::Get("a") => Reply::Number(100), HUNDRED, 0;
    Ask::Put("b", b"x") => QUIET, b"", 1;
};

/// Opening the file again leads on.
fn try_again<D: Disk + Drop>(rt: &impl Abort, alloc: Global, disk: D)
    requires ready { IsTrue (D.state disk).is_ready }
    requires tells { IsTrue (D.state disk).tells }
{
    let mut trial = opened(rt, alloc, disk);
    try_checkpoint(rt, alloc, &mut trial, ONE_KEPT);
    try_rows(rt, alloc, &mut trial, AGAIN_ROWS);
}

/// The store of one object, whose disk fails the first read and the first change from here on.
fn failing_once(rt: &impl Abort, alloc: Global) -> Trial<Fuse<MemDisk>> {
    let trial = one_recorded(rt, alloc);
    let changes = vec![in alloc; 1].expect(rt, "memory");
    let reads = vec![in alloc; 1].expect(rt, "memory");
    trial.failing(changes, reads)
}

#[test]
fn is_broken_by_a_failed_write_alone(rt: HostRuntime) {
    let mut trial = failing_once(&rt, rt.alloc());
    try_failing(&rt, rt.alloc(), &mut trial);
    try_again(&rt, rt.alloc(), trial.into_disk());
}
