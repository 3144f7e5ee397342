//! What a store tells of itself.
use crate::flushed::fresh;
use crate::flushes::{FIVE, TEN};
use crate::requests::try_holds;
use crate::slices::{Slicer, slicer_on};
use crate::worked::HUNDRED;
use disk_face::Disk;
use size_class::CLASSES;
use std::process::Abort;
use store_core::{Facts, Progress, Store};

/// A store that was formatted for 16 names, with the divisor 9.
const FRESH: Facts = Facts {
    version: 1,
    k: 9,
    names: 16,
    cap: 16,
    live: 0,
    bytes: 0,
    kept_live: 0,
    kept_bytes: 0,
    sequence: 1,
    widest: 0,
    moves_left: 0,
    bytes_left: 0,
};

/// Once 100 bytes were put by a flush, and 10 more quietly: class 6 has a capacity, of sizes up to 127.
const TWO_PUT: Facts = Facts {
    live: 2,
    bytes: 110,
    kept_live: 1,
    kept_bytes: 100,
    sequence: 2,
    widest: 127,
    ..FRESH
};

/// While the flush of a third put is in hand: of three names.
const IN_HAND: Facts = Facts {
    live: 3,
    bytes: 115,
    moves_left: 7,
    bytes_left: 230,
    ..TWO_PUT
};

/// Once that was settled.
const SETTLED: Facts = Facts {
    kept_live: 3,
    kept_bytes: 115,
    sequence: 4,
    moves_left: 0,
    bytes_left: 0,
    ..IN_HAND
};

/// Once 100 bytes were put, and the store was upgraded.
const UPGRADED: Facts = Facts {
    version: 2,
    cap: 11,
    live: 1,
    bytes: 100,
    sequence: 3,
    ..TWO_PUT
};

/// What a store tells.
fn try_facts(rt: &impl Abort, store: &Store<CLASSES>, facts: &Facts) {
    try_holds(rt, store.facts() == *facts, facts);
}

/// Steps the flush in hand to its end: with each step but the last, one fewer is left.
fn try_steps_left<D: Disk>(rt: &impl Abort, sliced: &mut Slicer<D>, most: u64) {
    for left in 0..most {
        try_holds(
            rt,
            sliced.store().facts().moves_left == most.saturating_sub(left),
            &left,
        );
        match sliced.step() {
            Some(Ok(Progress::Moved)) => {}
            Some(Ok(Progress::Settled)) => return,
            _ => panic!(rt; "a step"),
        }
    }
    panic!(rt; "an end")
}

#[test]
fn tells_its_facts_while_a_flush_is_in_hand(rt: HostRuntime) {
    let alloc = rt.alloc();
    let mut sliced = slicer_on(&rt, alloc, fresh(&rt, alloc).into_disk());
    try_facts(&rt, sliced.store(), &FRESH);
    let put = (sliced.put("a", HUNDRED), sliced.put("b", TEN));
    try_facts(&rt, sliced.store(), &TWO_PUT);
    let begun = sliced.begin_put("c", FIVE);
    try_holds(&rt, sliced.store().facts() == IN_HAND, &(put, begun));
    try_steps_left(&rt, &mut sliced, 7);
    try_facts(&rt, sliced.store(), &SETTLED);
}

#[test]
fn tells_its_facts_after_an_upgrade(rt: HostRuntime) {
    let alloc = rt.alloc();
    let mut trial = fresh(&rt, alloc);
    let done = (trial.put("a", HUNDRED), trial.upgrade());
    try_holds(&rt, trial.store().facts() == UPGRADED, &done);
}
