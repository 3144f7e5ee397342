//! Worked files of which one byte is spoiled: `plain_layout` and `read_state` agree on each.
use crate::answers::{got, try_holds};
use crate::openings::refusal_by_both;
use row_vectors::images::{Change, MOVING, disk};
use std::alloc::Global;
use std::process::Abort;

/// A byte of each part that opening reads: the superblock, the header with the capacities and entries
/// of the first classes, the records, the gates.
const PLACES: &[usize] = &[
    0, 7, 8, 16, 24, 64, 65, 66, 67, 71, 72, 79, 80, 88, 96, 104, 112, 120, 152, 272, 320, 360,
    624, 888, 8552, 8553, 8554, 8616, 8624, 9832, 19_602,
];

/// The file with one byte more changed is opened, or refused for one reason.
fn try_spoiled(rt: &impl Abort, alloc: Global, length: usize, common: &[Change], spoiled: Change) {
    let mut file = got(rt, disk(alloc, length, common, &[spoiled]));
    try_holds(rt, refusal_by_both(alloc, &mut file).is_ok(), &spoiled);
}

/// Spoils each of the bytes by a value.
fn spoil(rt: &impl Abort, alloc: Global, length: usize, common: &[Change], value: u8) {
    for at in PLACES {
        try_spoiled(rt, alloc, length, common, (*at, value));
    }
}

/// The values of the bytes of a settled file, and of a moving one.
const SETTLED: &[u8] = &[0, 1, 2, 5];

const MOVED: &[u8] = &[0, 1, 2, 0xEF];

/// The changes to the moving file.
const COMMON: &[Change] = &MOVING;

#[test]
fn agrees_on_spoiled_settled_files(rt: HostRuntime) {
    for value in SETTLED {
        spoil(&rt, rt.alloc(), 19_608, &[], *value);
    }
}

#[test]
fn agrees_on_spoiled_moving_files(rt: HostRuntime) {
    for value in MOVED {
        spoil(&rt, rt.alloc(), 19_857, COMMON, *value);
    }
}
