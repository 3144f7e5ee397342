//! A worked file, its changes, and what each opens to, by `plain_layout` and by `read_state` alike.
ghost use Rattle.std.specs.Prelude.{◌≤◌};

use crate::answers::{got, try_holds, try_number};
use disk_mem::MemDisk;
use plain_layout::{Opened, Refusal, Table, open};
use row_vectors::alike::{Parting, Seen, opened_by_both};
use row_vectors::images::{Change, disk};
use size_class::{CLASSES, SIZE_MAX};
use slot_codec::{CodecFault, Name};
use slot_pair::SlotFault;
use std::alloc::Global;
use std::process::Abort;

/// A change of a file, and why it isn't opened, if it isn't.
#[derive(Clone, Copy)]
pub struct Row {
    pub what: &'static str,
    pub length: usize,
    pub changes: &'static [Change],
    pub refusal: Option<Refusal>,
}

macro_rules! rows {
    ($($what:literal: $length:literal, $changes:expr => $refusal:expr;)*) => {
        &[$(Row { what: $what, length: $length, changes: &$changes, refusal: $refusal }),*]
    };
}

/// Why a file isn't opened by both ways, if it isn't.
pub fn refusal_by_both(alloc: Global, file: &mut MemDisk) -> Result<Option<Refusal>, Parting> {
    match opened_by_both(alloc, file)? {
        Seen::Refused(refusal) => Ok(Some(refusal)),
        Seen::Still | Seen::Moving => Ok(None),
    }
}

/// Opens a row's file in both ways, with the changes that all have in common before its own.
fn try_row(rt: &impl Abort, alloc: Global, common: &[Change], row: &Row) {
    let mut file = got(rt, disk(alloc, row.length, common, row.changes));
    let refusal = refusal_by_both(alloc, &mut file);
    try_holds(rt, refusal == Ok(row.refusal), &row.what);
}

/// The files of some rows.
pub fn try_rows(rt: &impl Abort, alloc: Global, common: &[Change], rows: &[Row]) {
    for row in rows {
        try_row(rt, alloc, common, row);
    }
}

const NO_SLOT: &[Row] = rows! {
        "one object": 19608, [] => None;
        "no object": 19603, [(80, 0), (120, 0)] => None;
        "below a superblock": 63, [] => Some(Refusal::Slot(SlotFault::Short));
        "below its head": 19602, [] => Some(Refusal::Slot(SlotFault::Short));
        "no format gate": 19608, [(19602, 0)] => Some(Refusal::Slot(SlotFault::Unformatted));
        "no open gate": 19608, [(9832, 0)] => Some(Refusal::Slot(SlotFault::NoGate));
        "two open slots of one sequence": 19608, [(9833, 1), (9841, 1), (19601, 0xA5)]
            => Some(Refusal::Slot(SlotFault::SameSequence));
        "an empty table of a greater sequence": 19608, [(9833, 1), (9841, 2), (19601, 0xA5)] => None;
        "another version": 19608, [(64, 3)] => Some(Refusal::Slot(SlotFault::Codec(CodecFault::Version, 64)));
        "a byte behind a name": 19608, [(8554, 1)]
            => Some(Refusal::Slot(SlotFault::Codec(CodecFault::Zeros, 8552)));
        "one name twice": 19608, [(80, 2), (8632, 1), (8633, b'a')]
            => Some(Refusal::Slot(SlotFault::Codec(CodecFault::Order, 8632)));
};

#[test]
fn refuses_what_no_slot_shows(rt: HostRuntime) {
    try_rows(&rt, rt.alloc(), &[], NO_SLOT);
}

const ONE_OBJECT: &[Row] = rows! {
        "1: an object of 67,108,865 bytes": 19608, [(8624, 1), (8627, 4)] => Some(Refusal::Rule(1, 0));
        "2: an empty object at 1": 19608, [(8616, 1), (8624, 0)] => Some(Refusal::Rule(2, 0));
        "3: an object past the end": 19608, [(8616, 1)] => Some(Refusal::Rule(3, 0));
        "3: a file that was cut": 19607, [] => Some(Refusal::Rule(3, 0));
        "3: an object of 1,048,577 bytes": 19608, [(8624, 1), (8626, 0x10)] => Some(Refusal::Rule(3, 0));
        "3: a layout past the end": 19608, [(120, 6)] => Some(Refusal::Rule(3, 1));
        "3: a layout of class 21 past the end": 19608, [(272, 1)] => Some(Refusal::Rule(3, 1));
        "4: a boundary": 19608, [(66, 1)] => Some(Refusal::Rule(4, 0));
        "4: a wall": 19608, [(88, 1)] => Some(Refusal::Rule(4, 0));
        "4: a slack": 19608, [(96, 1)] => Some(Refusal::Rule(4, 0));
        "5: a class too many": 19608, [(320, 1)] => Some(Refusal::Rule(5, 27));
        "5: a greater class in a buffer": 19608, [(632, 1)] => Some(Refusal::Rule(5, 1));
        "6: more in a buffer than it has": 19608, [(888, 1)] => Some(Refusal::Rule(6, 2));
        "7: an object past its segment": 19608, [(120, 4)] => Some(Refusal::Rule(7, 0));
        "9: a byte that nothing has": 19609, [(120, 6)] => Some(Refusal::Rule(9, 2));
};

#[test]
fn refuses_by_the_first_rule_that_one_object_breaks(rt: HostRuntime) {
    try_rows(&rt, rt.alloc(), &[], ONE_OBJECT);
}

/// The changes to two objects: `a` of 100 bytes at 0 in class 6, whose capacity stands at 152, and `b`
/// whose place stands at 8,696 and size at 8,704.
const TWO: &[Change] = &[
    (80, 2),
    (120, 0),
    (152, 100),
    (8624, 100),
    (8632, 1),
    (8633, b'b'),
];

const TWO_OBJECTS: &[Row] = rows! {
        "side by side in class 6": 19825, [(152, 200), (8696, 100), (8704, 100)] => None;
        "8: two objects share bytes": 19825, [(152, 200), (8696, 50),
            (8704, 100)] => Some(Refusal::Rule(8, 1));
        // Class 7, whose capacity stands at 160, has a buffer of 22 bytes.
        "in class 6 and class 7": 19936, [(160, 200), (8696, 111), (8704, 200)] => None;
        "10: an entry of 1 byte of class 7": 19936, [(160, 200), (8696, 111), (8704, 200), (2208, 1)]
            => Some(Refusal::Rule(10, 7));
};

#[test]
fn refuses_by_the_first_rule_that_two_objects_break(rt: HostRuntime) {
    try_rows(&rt, rt.alloc(), TWO, TWO_OBJECTS);
}

/// What `plain_layout` makes of a hand-made file.
pub fn open_plainly(rt: &impl Abort, alloc: Global, length: usize, changes: &[Change]) -> Opened
    ensures divisor { (2 ≤ result.table.k) × (result.table.k ≤ 64) }
{
    let mut file = got(rt, disk(alloc, length, changes, &[]));
    open(alloc, &mut file, CLASSES as u8, SIZE_MAX).expect(rt, "a store")
}

/// A name, and where its object stands, if there is one.
pub type Standing = (&'static str, Option<(u64, u64)>);

/// A name stands there, or it doesn't.
fn stands(rt: &impl Abort, opened: &Opened, text: &str, spot: Option<(u64, u64)>) {
    let name = Name::new(text.as_bytes()).expect(rt, "a name");
    try_holds(rt, opened.spot_of(&name) == spot, &text);
}

/// Where names stand, or that they don't.
pub fn stand(rt: &impl Abort, opened: &Opened, spots: &[Standing]) {
    for (text, spot) in spots {
        stands(rt, opened, *text, *spot);
    }
}

const SPOTS: &[Standing] = &[("a", Some((0, 5))), ("b", None)];

/// The one object of the table, and its class.
fn try_object(rt: &impl Abort, table: &Table) {
    try_number(rt, table.place(0), 0, &"place");
    try_number(rt, table.size(0), 5, &"size");
    try_number(rt, table.data_len, 5, &"data");
    try_number(rt, table.cap(2), 5, &"class 2");
}

#[test]
fn gives_the_book_of_a_file(rt: HostRuntime) {
    let opened = open_plainly(&rt, rt.alloc(), 19608, &[]);
    try_number(&rt, opened.found.sequence, 1, &"sequence");
    try_number(&rt, opened.table.records.len() as u64, 1, &"records");
    try_object(&rt, &opened.table);
    try_holds(&rt, !opened.table.is_buffered(0), &"buffered");
    stand(&rt, &opened, SPOTS);
}
