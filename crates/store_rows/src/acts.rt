//! What is done with a store that begins empty, act by act.
use crate::flushed::{Step, fresh_on, try_steps};
use crate::requests::{Looks, Row, try_looks, try_rows};
use crate::trials::Trial;
use disk_face::Disk;
use disk_mem::{MemDisk, PlainDisk};
use std::alloc::Global;
use std::process::Abort;

/// What is done with a store, or looked at.
#[derive(Clone, Copy)]
pub enum Act {
    /// Requests.
    Rows(&'static [Row]),
    /// Requests, each with a look at the store and its file, which has the divisor 9.
    Steps(&'static [Step]),
    /// The same of the divisor 2.
    Pairs(&'static [Step]),
    /// What the store says of itself.
    Looks(&'static Looks),
}

/// Does one act.
fn try_act<D: Disk>(rt: &impl Abort, alloc: Global, trial: &mut Trial<D>, act: Act) {
    match act {
        Act::Rows(rows) => try_rows(rt, alloc, trial, rows),
        Act::Steps(steps) => try_steps(rt, alloc, trial, 9, steps),
        Act::Pairs(steps) => try_steps(rt, alloc, trial, 2, steps),
        Act::Looks(looks) => try_looks(rt, trial, looks),
    }
}

/// Does each act in turn.
pub fn try_acts<D: Disk>(rt: &impl Abort, alloc: Global, trial: &mut Trial<D>, acts: &[Act]) {
    for act in acts {
        try_act(rt, alloc, trial, *act);
    }
}

/// Does each act on a disk in memory.
pub fn try_recorded(rt: &impl Abort, alloc: Global, k: u64, acts: &[Act]) {
    assert!(rt; 2 <= k && k <= 64);
    let mut trial = fresh_on(rt, alloc, MemDisk::new(alloc), k);
    try_acts(rt, alloc, &mut trial, acts);
}

/// Does each act on a disk that keeps no record, and has room for so many bytes.
pub fn try_plain(rt: &impl Abort, alloc: Global, room: u64, acts: &[Act]) {
    let disk = PlainDisk::with_room(alloc, room).expect(rt, "memory");
    let mut trial = fresh_on(rt, alloc, disk, 9);
    try_acts(rt, alloc, &mut trial, acts);
}
