//! What the worked file leads to, and which fault one other byte is.
use crate::worked::{BASE, ENTRIES, file_with, try_holds};
use disk_mem::MemDisk;
use extent_table::Spot;
use reopen::{BoxedLoaded, OpenFault, load_by_mark};
use size_class::CLASSES;
use slot_codec::{CodecFault, Name};
use slot_pair::SlotFault;
use std::alloc::Global;
use std::process::Abort;

/// A position, another byte there, and the fault that is found and its position.
type Fault = (usize, u8, CodecFault, u64);

const HEADS: &[Fault] = &[
    (9_217, 2, CodecFault::Kind, 9_216),
    (9_220, 1, CodecFault::Zeros, 9_216),
    (9_224, 200, CodecFault::Entry, 9_216),
    (9_231, 0x80, CodecFault::Count, 9_216),
    (9_232, 2, CodecFault::Count, 9_216),
    (9_240, 2, CodecFault::Count, 9_216),
    (9_248, 17, CodecFault::Count, 9_216),
    (9_248, 9, CodecFault::Entry, 9_216),
    (9_262, 1, CodecFault::Range, 9_216),
    (10_240, 0xA5, CodecFault::Entry, 10_240),
];

const ITEMS: &[Fault] = &[
    (9_240, 1, CodecFault::Absent, 9_288),
    (9_248, 4, CodecFault::NameBytes, 9_512),
    (9_272, 1, CodecFault::Absent, 9_272),
    (9_286, 1, CodecFault::Range, 9_272),
    (9_289, 0x20, CodecFault::NameBytes, 9_288),
    (9_290, 0x20, CodecFault::Zeros, 9_288),
    (9_358, 1, CodecFault::Range, 9_288),
    (9_784, 7, CodecFault::Order, 9_800),
    (9_792, 0, CodecFault::Range, 9_784),
    (9_832, 3, CodecFault::Absent, 9_832),
    (9_846, 1, CodecFault::Range, 9_832),
];

const GAPS: &[Fault] = &[
    (8_552, 1, CodecFault::Zeros, 8_552),
    (8_703, 1, CodecFault::Zeros, 8_703),
    (8_888, 1, CodecFault::Zeros, 8_888),
    (9_512, 1, CodecFault::Zeros, 9_512),
    (9_727, 9, CodecFault::Zeros, 9_727),
    (9_880, 9, CodecFault::Zeros, 9_880),
    (10_239, 9, CodecFault::Zeros, 10_239),
];

/// Faults in front of the log.
const FRONTS: &[Fault] = &[
    (5, b'I', CodecFault::Magic, 0),
    (16, 31, CodecFault::Params, 0),
    (24, 1, CodecFault::Zeros, 0),
    (64, 1, CodecFault::Version, 64),
    (64, 2, CodecFault::Version, 64),
    (80, 17, CodecFault::Count, 64),
];

/// A position, another byte there, and of the table that the log leads to then its sequence, and how many names
/// it has.
const ENDS: &[(usize, u8, u64, u64)] = &[
    (8_704, 0xA5, 4, 3),
    (10_241, 1, 4, 3),
    (9_728, 7, 3, 3),
    (9_216, 0, 2, 1),
    (8_704, 0xA4, 1, 0),
];

/// Reads the file, but for one byte.
fn read(
    rt: &impl Abort,
    alloc: Global,
    at: usize,
    byte: u8,
) -> Result<BoxedLoaded<CLASSES>, OpenFault> {
    let bytes = file_with(rt, alloc, &[BASE, ENTRIES, &[(at, byte)]]);
    let mut disk = MemDisk::from_bytes(alloc, &bytes).expect(rt, "memory");
    load_by_mark(alloc, &mut disk)
}

/// Tries rows of faults.
fn try_faults(rt: &impl Abort, alloc: Global, rows: &[Fault]) {
    'rows: for row in rows {
        let (at, byte, fault, shown) = *row;
        let expected = OpenFault::Slot(SlotFault::Codec(fault, shown));
        match read(rt, alloc, at, byte) {
            Ok(_) => try_holds(rt, false, row),
            Err(found) => try_holds(rt, found == expected, row),
        }
    }
}

#[test]
fn what_stands_before_a_log_is_judged(rt: HostRuntime) {
    try_faults(&rt, rt.alloc(), FRONTS);
}

#[test]
fn heads_of_entries_are_judged(rt: HostRuntime) {
    try_faults(&rt, rt.alloc(), HEADS);
}

#[test]
fn items_of_entries_are_judged(rt: HostRuntime) {
    try_faults(&rt, rt.alloc(), ITEMS);
}

#[test]
fn gaps_in_front_of_gates_are_judged(rt: HostRuntime) {
    try_faults(&rt, rt.alloc(), GAPS);
}

#[test]
fn logs_end_at_a_gate_that_is_not_open(rt: HostRuntime) {
    'rows: for row in ENDS {
        let (at, byte, sequence, count) = *row;
        match read(&rt, rt.alloc(), at, byte) {
            Ok(found) => {
                let header = &*found.header;
                let same = header.sequence == sequence && header.count == count;
                try_holds(&rt, same && found.table.count() == count, row);
            }
            Err(_) => try_holds(&rt, false, row),
        }
    }
}

/// Names, and where their objects stand behind the whole log.
const SPOTS: &[(&str, Spot)] = &[
    (
        "a",
        Spot {
            place: 16,
            size: 100,
        },
    ),
    ("b", Spot { place: 5, size: 10 }),
    ("c", Spot { place: 0, size: 5 }),
];

#[test]
fn a_log_leads_to_its_objects(rt: HostRuntime) {
    match read(&rt, rt.alloc(), 8_704, 0xA5) {
        Ok(found) => {
            'spots: for row in SPOTS {
                let name = Name::new(row.0.as_bytes()).expect(&rt, "a name");
                try_holds(&rt, found.table.get(&name) == Some(row.1), row);
            }
        }
        Err(_) => try_holds(&rt, false, &SPOTS),
    }
}
