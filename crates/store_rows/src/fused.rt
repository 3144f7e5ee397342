//! A flush whose disk fails at one of its calls.
use crate::flushed::fresh;
use crate::flushes::{FIVE, ONE_LAID, TEN, THREE_LAID, row};
use crate::maps::{Which, opened_map};
use crate::requests::{Ask, KEPT, QUIET, Reply, Row, refused, rows, try_holds, try_rows};
use crate::slices::{Slicer, slicer_on};
use crate::trials::Trial;
use crate::worked::HUNDRED;
use disk_mem::{Fuse, MemDisk};
use std::alloc::Global;
use std::process::Abort;
use store_core::Refusal;

/// A put that is kept, and one that is not.
const KEPT_ROWS: &[Row] = rows! {
    Ask::Put("a", HUNDRED) => KEPT, b"", 12;
    Ask::Put("b", TEN) => QUIET, b"", 1;
};

/// A store of 100 bytes that are kept and 10 that aren't, whose disk fails one of the changing calls
/// from here on.
fn failing_at(rt: &impl Abort, alloc: Global, call: u64) -> Trial<Fuse<MemDisk>> {
    let mut trial = fresh(rt, alloc);
    try_rows(rt, alloc, &mut trial, KEPT_ROWS);
    let changes = vec![in alloc; call].expect(rt, "memory");
    trial.failing(changes, Vec::new(alloc))
}

/// What a store is asked once a flush failed.
const BROKEN_ROWS: &[Row] = rows! {
    Ask::Put("c", FIVE) => refused!(Broken), b"", 0;
    Ask::Keep => refused!(Broken), b"", 0;
    Ask::Get("a") => refused!(Broken), b"", 0;
};

/// A put whose flush fails at a call.
fn try_refused(rt: &impl Abort, alloc: Global, trial: &mut Trial<Fuse<MemDisk>>, call: u64) {
    let failed = Row {
        calls: call,
        ..row!(Ask::Put("c", FIVE) => refused!(Disk), 0)
    };
    try_rows(rt, alloc, trial, &[failed]);
    try_rows(rt, alloc, trial, BROKEN_ROWS);
    let found = trial.store().next_above(b"");
    try_holds(rt, found == Err(Refusal::Broken), &call);
    try_holds(rt, trial.store().facts().live == 3, &call);
}

/// Such a put, and what the file opens to from there.
fn try_call(rt: &impl Abort, alloc: Global, call: u64) {
    let mut trial = failing_at(rt, alloc, call);
    try_refused(rt, alloc, &mut trial, call);
    let file = trial.file(rt, alloc);
    let opens = opened_map(rt, alloc, &file, ONE_LAID, THREE_LAID);
    // The tenth call opens the gate of the first checkpoint with all three.
    let expected = if call <= 10 {
        Which::Before
    } else {
        Which::After
    };
    try_holds(rt, opens == expected, &call);
}

#[test]
fn is_broken_by_each_failed_call_of_a_flush(rt: HostRuntime) {
    for call in 1..24 {
        try_call(&rt, rt.alloc(), call);
    }
}

/// The same store, whose flush is made by steps: the disk fails a call of the begin or of a step.
fn sliced_failing_at(rt: &impl Abort, alloc: Global, call: u64) -> Slicer<Fuse<MemDisk>> {
    let changes = vec![in alloc; call.saturating_add(BEGAN)].expect(rt, "memory");
    let disk = Fuse::listed(fresh(rt, alloc).into_disk(), changes, Vec::new(alloc));
    let mut sliced = slicer_on(rt, alloc, disk);
    let first = sliced.put("a", HUNDRED).is_some();
    let second = sliced.put("b", TEN).is_some();
    assert!(rt; first && second);
    sliced
}

/// The changing calls of the two puts.
const BEGAN: u64 = 13;

/// Begins the put, and makes its steps until the disk fails; answers whether it did.
fn fails(rt: &impl Abort, sliced: &mut Slicer<Fuse<MemDisk>>) -> bool {
    if let Some(Err(refusal)) = sliced.begin_put("c", FIVE) {
        return refusal == Refusal::Disk;
    }
    for _ in 0..MOST_STEPS {
        if let Some(Err(refusal)) = sliced.step() {
            return refusal == Refusal::Disk;
        }
    }
    panic!(rt; "a fault")
}

/// No flush of three names takes more steps.
const MOST_STEPS: u64 = 7;

/// A broken store has nothing in hand, and serves nothing.
fn is_let_go(sliced: &mut Slicer<Fuse<MemDisk>>) -> bool {
    sliced.store().is_broken()
        && !sliced.store().in_hand()
        && sliced.step().is_none()
        && sliced.begin_del("a") == Some(Err(Refusal::Broken))
}

/// Such a put by steps, and what the file opens to from there.
fn try_sliced_call(rt: &impl Abort, alloc: Global, call: u64) {
    let mut sliced = sliced_failing_at(rt, alloc, call);
    let let_go = fails(rt, &mut sliced) && is_let_go(&mut sliced);
    let file = sliced.file(alloc).expect(rt, "a file");
    let opens = opened_map(rt, alloc, &file, ONE_LAID, THREE_LAID);
    let expected = if call <= 10 {
        Which::Before
    } else {
        Which::After
    };
    try_holds(rt, let_go && opens == expected, &call);
}

#[test]
fn is_broken_by_each_failed_call_of_a_flush_by_steps(rt: HostRuntime) {
    for call in 1..24 {
        try_sliced_call(&rt, rt.alloc(), call);
    }
}
