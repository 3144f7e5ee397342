//! Requests that make a flush, and what they leave.
ghost use Rattle.std.specs.Prelude.{◌≡◌, ◌≤◌, IsTrue, length};

use crate::checkpoints::{BASE, BLOCK, Checkpoint, Object, opens_as};
use crate::requests::{Looks, Row, try_holds, try_looks, try_rows};
use crate::trials::{Trial, opened};
use disk_face::Disk;
use disk_mem::MemDisk;
use slot_codec::{Header, Kind};
use slot_pair::SlotPair;
use std::alloc::Global;
use std::process::Abort;
use store_core::Gauge;

/// A request, and what stands after it. Numbers by class are 0 where none is listed.
#[derive(Clone, Copy)]
pub struct Step {
    pub row: Row,
    /// How long the data part is.
    pub length: u64,
    pub sequence: u64,
    /// The bytes put and removed so far, by class.
    pub asked: &'static [(usize, u64)],
    /// The bytes moved so far, by class.
    pub moved: &'static [(usize, u64)],
    /// The capacities of the last checkpoint, in whose buffers nothing is taken.
    pub caps: &'static [(usize, u64)],
    /// Its objects, by rising name.
    pub objects: &'static [Object],
}

/// The store of a file that is formatted, after 10 changing calls.
pub fn fresh_on<D: Disk + Drop>(rt: &impl Abort, alloc: Global, disk: D, k: u64) -> Trial<D>
    requires ready { IsTrue (D.state disk).is_ready }
    requires tells { IsTrue (D.state disk).tells }
    requires empty { length (D.state disk).file ≡ 0 }
    requires low { 2 ≤ k }
    requires high { k ≤ 64 }
{
    let mut disk = disk;
    SlotPair::format(&mut disk, k, BLOCK.names).expect(rt, "a format");
    opened(rt, alloc, disk)
}

/// The same of the divisor 9, on a disk in memory.
pub fn fresh(rt: &impl Abort, alloc: Global) -> Trial<MemDisk> {
    fresh_on(rt, alloc, MemDisk::new(alloc), 9)
}

/// Makes each request in turn, and looks at the store and its file after each.
pub fn try_steps<D: Disk>(
    rt: &impl Abort,
    alloc: Global,
    trial: &mut Trial<D>,
    k: u64,
    steps: &[Step],
) {
    for step in steps {
        try_step(rt, alloc, trial, k, step);
    }
}

/// Makes a request, and looks at the store and its file.
fn try_step<D: Disk>(rt: &impl Abort, alloc: Global, trial: &mut Trial<D>, k: u64, step: &Step) {
    try_rows(rt, alloc, trial, &[step.row]);
    try_looks(rt, trial, &looks_after(step, trial.turns()));
    let file = trial.file(rt, alloc);
    try_file(rt, alloc, &file, k, step);
}

/// The file after a step: its length, and what it opens to.
fn try_file(rt: &impl Abort, alloc: Global, file: &[u8], k: u64, step: &Step) {
    let data = (file.len() as u64).checked_sub(BASE as u64);
    try_holds(rt, data == Some(step.length), &step.row.ask);
    let opens = opens_as(rt, alloc, file, k, &checkpoint_after(step));
    try_holds(rt, opens, &step.row.ask);
}

/// What the store says of itself after a step.
fn looks_after(step: &Step, turns: u64) -> Looks {
    Looks {
        turns,
        gauge: Gauge {
            length: step.length,
            sequence: step.sequence,
        },
        is_broken: false,
        asked: by_class(step.asked),
        moved: by_class(step.moved),
    }
}

/// The last checkpoint after a step.
pub fn checkpoint_after(step: &Step) -> Checkpoint {
    Checkpoint {
        header: Header {
            version: 1,
            kind: Kind::Settled,
            boundary: 0,
            sequence: step.sequence,
            count: step.objects.len() as u64,
            wall: 0,
            slack: 0,
            caps: by_class(step.caps),
            used: [[0; 32]; 32],
        },
        objects: step.objects,
    }
}

/// The listed numbers of classes, and 0 of each other one.
pub fn by_class(listed: &[(usize, u64)]) -> [u64; 32] {
    let mut cells = [0; 32];
    for (class, number) in listed {
        if let Some(cell) = cells.get_mut(*class) {
            *cell = *number;
        }
    }
    cells
}
