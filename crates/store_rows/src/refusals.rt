//! Files by hand, which are opened or refused without a change.
use crate::requests::try_holds;
use disk_face::Disk;
use disk_mem::MemDisk;
use plain_layout::{Change, HELLO, put};
use reopen::OpenFault;
use size_class::CLASSES;
use slot_codec::CodecFault;
use slot_pair::SlotFault;
use std::alloc::Global;
use std::process::Abort;
use store_core::Store;
use table_check::TableFault;

/// The changes to records `a` and `b` of 100 bytes each, at 0 and at 50, of which some are of both.
const SHARED: &[Change] = &[
    (80, 2),
    (120, 0),
    (152, 200),
    (8624, 100),
    (8632, 1),
    (8633, b'b'),
    (8696, 50),
    (8704, 100),
];

/// Why a file of a length with these changes isn't opened, if it isn't, and how many changing calls
/// were made.
fn opening(
    rt: &impl Abort,
    alloc: Global,
    length: usize,
    changes: &[Change],
) -> (Option<OpenFault>, u64) {
    let mut bytes = vec![in alloc; 0u8; length].expect(rt, "memory");
    put(&mut bytes, HELLO);
    put(&mut bytes, changes);
    let mut disk = MemDisk::from_bytes(alloc, &bytes).expect(rt, "memory");
    let refusal = Store::<CLASSES>::open(alloc, &mut disk).err();
    (refusal, disk.turns())
}

/// A refusal by a rule at a place.
macro_rules! rule {
    ($rule:literal, $at:literal) => {
        Some(OpenFault::Table(TableFault {
            rule: $rule,
            at: $at,
        }))
    };
}

/// A refusal of the slots.
macro_rules! slot {
    ($fault:expr) => {
        Some(OpenFault::Slot($fault))
    };
}

/// How long a file is, its changes, and why it isn't opened, if it isn't.
type Row = (usize, &'static [Change], Option<OpenFault>);

const ROWS: &[Row] = &[
    (19_608, &[], None),
    (19_608, &[(72, 0), (79, 0x20)], None),
    (
        19_608,
        &[(72, 0), (79, 0x40)],
        slot!(SlotFault::Codec(CodecFault::Worn, 64)),
    ),
    (19_825, SHARED, rule!(8, 1)),
    (19_608, &[(8616, 1)], rule!(3, 0)),
    (19_608, &[(888, 1)], rule!(6, 2)),
    (19_607, &[], rule!(3, 0)),
    (19_602, &[], slot!(SlotFault::Short)),
    (63, &[], slot!(SlotFault::Short)),
    (
        19_608,
        &[(8553, 0x20)],
        slot!(SlotFault::Codec(CodecFault::NameBytes, 8552)),
    ),
];

#[test]
fn opens_or_refuses_without_a_change(rt: HostRuntime) {
    for (length, changes, refusal) in ROWS {
        let found = opening(&rt, rt.alloc(), *length, changes);
        try_holds(&rt, found == (*refusal, 0), &(length, changes));
    }
}
