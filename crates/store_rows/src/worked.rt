//! The worked checkpoints, and stores that stand at them.
ghost use Rattle.std.specs.Prelude.{◌≡◌, IsTrue, length};

use crate::checkpoints::{Checkpoint, Object, opens_to, save_on};
use crate::requests::Looks;
use crate::trials::{Trial, opened};
use disk_face::Disk;
use disk_mem::MemDisk;
use slot_codec::{Header, Kind};
use std::alloc::Global;
use std::process::Abort;
use store_core::Gauge;

/// 100 bytes.
pub const HUNDRED: &[u8] =
    b"0123456789012345678901234567890123456789012345678901234567890123456789012345678901234567890123456789";

/// One object of 100 bytes, in class 6, whose buffer has 11 bytes.
pub const ONE: Checkpoint = Checkpoint {
    header: Header {
        version: 1,
        kind: Kind::Settled,
        boundary: 0,
        sequence: 2,
        count: 1,
        wall: 0,
        slack: 0,
        caps: [
            0, 0, 0, 0, 0, 0, 100, 0, 0, 0, 0, 0, 0, 0, 0, 0, 0, 0, 0, 0, 0, 0, 0, 0, 0, 0, 0, 0,
            0, 0, 0, 0,
        ],
        used: [[0; 32]; 32],
    },
    objects: &[Object {
        name: "a",
        place: 0,
        bytes: HUNDRED,
        is_buffered: false,
    }],
};

/// That checkpoint, to be looked at.
pub const ONE_KEPT: &Checkpoint = &ONE;

/// The same object, and one of 4 bytes that stands in its buffer.
pub const TWO: Checkpoint = Checkpoint {
    header: Header {
        version: 1,
        kind: Kind::Settled,
        boundary: 0,
        sequence: 2,
        count: 2,
        wall: 0,
        slack: 0,
        caps: [
            0, 0, 0, 0, 0, 0, 100, 0, 0, 0, 0, 0, 0, 0, 0, 0, 0, 0, 0, 0, 0, 0, 0, 0, 0, 0, 0, 0,
            0, 0, 0, 0,
        ],
        used: [
            NONE, NONE, NONE, NONE, NONE, NONE, FOUR, NONE, NONE, NONE, NONE, NONE, NONE, NONE,
            NONE, NONE, NONE, NONE, NONE, NONE, NONE, NONE, NONE, NONE, NONE, NONE, NONE, NONE,
            NONE, NONE, NONE, NONE,
        ],
    },
    objects: &[
        Object {
            name: "p",
            place: 0,
            bytes: HUNDRED,
            is_buffered: false,
        },
        Object {
            name: "q",
            place: 100,
            bytes: b"wxyz",
            is_buffered: true,
        },
    ],
};

/// That checkpoint, to be looked at.
pub const TWO_KEPT: &Checkpoint = &TWO;

/// A buffer of which nothing is taken, and one of which 4 bytes of class 2 are.
const NONE: [u64; 32] = [0; 32];

const FOUR: [u64; 32] = [
    0, 0, 4, 0, 0, 0, 0, 0, 0, 0, 0, 0, 0, 0, 0, 0, 0, 0, 0, 0, 0, 0, 0, 0, 0, 0, 0, 0, 0, 0, 0, 0,
];

/// What such a store says of itself before any request: its data part ends with the buffer, at 111. The file
/// had 19 changing calls.
pub const UNCHANGED: Looks = Looks {
    turns: 19,
    gauge: Gauge {
        length: 111,
        sequence: 2,
    },
    is_broken: false,
    asked: NONE,
    moved: NONE,
};

/// The same, to be looked at.
pub const AS_BEFORE: &Looks = &UNCHANGED;

/// The store of a file that is formatted and saved once, with one object. The file had 19 changing calls:
/// 10 to format it, its length, the object, and 7 to save.
pub fn at_one<D: Disk + Drop>(rt: &impl Abort, alloc: Global, disk: D) -> Trial<D>
    requires ready { IsTrue (D.state disk).is_ready }
    requires tells { IsTrue (D.state disk).tells }
    requires empty { length (D.state disk).file ≡ 0 }
{
    let mut disk = disk;
    save_on(rt, alloc, &mut disk, 111, ONE_KEPT);
    opened(rt, alloc, disk)
}

/// The same on a disk in memory.
pub fn one_recorded(rt: &impl Abort, alloc: Global) -> Trial<MemDisk> {
    at_one(rt, alloc, MemDisk::new(alloc))
}

/// The same with two objects, after 20 changing calls.
pub fn two_recorded(rt: &impl Abort, alloc: Global) -> Trial<MemDisk> {
    let mut disk = MemDisk::new(alloc);
    save_on(rt, alloc, &mut disk, 111, TWO_KEPT);
    opened(rt, alloc, disk)
}

/// The file of a store is as long as these, and opens to a checkpoint.
pub fn try_checkpoint<D: Disk>(
    rt: &impl Abort,
    alloc: Global,
    trial: &mut Trial<D>,
    checkpoint: &Checkpoint,
) {
    let file = trial.file(rt, alloc);
    assert!(rt; file.len() == 19_714);
    assert!(rt; opens_to(rt, alloc, &file, checkpoint));
}
