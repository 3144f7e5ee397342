//! Files whose tables are of version 2, made by hand: what each opens to, in both ways, and why it isn't
//! opened.
use crate::answers::{got, try_command, try_number};
use crate::openings::{Row, try_rows};
use disk_face::Disk;
use plain_layout::Refusal;
use row_vectors::images::{Change, HELLO_DIGESTED, disk};
use slot_codec::CodecFault;
use slot_pair::SlotFault;
use std::alloc::Global;
use std::process::Abort;

macro_rules! rows {
    ($($what:literal: $length:literal, $changes:expr => $refusal:expr;)*) => {
        &[$(Row { what: $what, length: $length, changes: &$changes, refusal: $refusal }),*]
    };
}

macro_rules! fault {
    ($fault:ident, $at:literal) => {
        Some(Refusal::Slot(SlotFault::Codec(CodecFault::$fault, $at)))
    };
}

/// One record, whose digest stands from 8,632 to 8,664: the bytes of the SHA-256 of `hello` at its ends,
/// or any.
const ONE: &[Row] = rows! {
    "a digest": 19608, [(64, 2), (8632, 0x2C), (8663, 0x24)] => None;
    "a digest of zeros": 19608, [(64, 2)] => None;
    "a digest of a record of version 1": 19608, [(8632, 0x2C), (8663, 0x24)] => None;
    "version 0": 19608, [(64, 0)] => fault!(Version, 64);
    "version 3": 19608, [(64, 3)] => fault!(Version, 64);
    "a kind": 19608, [(64, 2), (65, 2)] => fault!(Kind, 64);
    "12 records": 19608, [(64, 2), (80, 12)] => fault!(Count, 64);
    "11 records, of which one is there": 19608, [(64, 2), (80, 11)] => fault!(NameBytes, 8664);
    "no name": 19608, [(64, 2), (8552, 0)] => fault!(NameBytes, 8552);
    "a byte behind a name": 19608, [(64, 2), (8554, 1)] => fault!(Zeros, 8552);
    "a size of 2^48": 19608, [(64, 2), (8630, 1)] => fault!(Range, 8552);
    "a place past the end": 19608, [(64, 2), (8616, 1)] => Some(Refusal::Rule(3, 0));
};

/// The changes to two objects of version 2, of 100 bytes each in class 6, whose capacity stands at 152.
/// The second record stands at 8,664, its place at 8,728, its size at 8,736 and its digest at 8,744.
const TWO: &[Change] = &[
    (64, 2),
    (80, 2),
    (120, 0),
    (152, 200),
    (8624, 100),
    (8664, 1),
    (8665, b'b'),
    (8728, 100),
    (8736, 100),
];

const TWO_RECORDS: &[Row] = rows! {
    "side by side": 19825, [] => None;
    "with digests": 19825, [(8632, 1), (8663, 0xFF), (8744, 1), (8775, 0xFF)] => None;
    "no name": 19825, [(8664, 0)] => fault!(NameBytes, 8664);
    "a byte behind a name": 19825, [(8727, 1)] => fault!(Zeros, 8664);
    "a place of 2^48": 19825, [(8734, 1)] => fault!(Range, 8664);
    "one name twice": 19825, [(8665, b'a')] => fault!(Order, 8664);
    "they share bytes": 19825, [(8728, 50)] => Some(Refusal::Rule(8, 1));
    "a second record of version 1": 19825, [(8664, 0), (8665, 0), (8632, 1), (8633, b'b')]
        => fault!(NameBytes, 8664);
};

#[test]
fn opens_one_record_of_version_2_or_refuses_it(rt: HostRuntime) {
    try_rows(&rt, rt.alloc(), &[], ONE);
}

#[test]
fn opens_two_records_of_version_2_or_refuses_them(rt: HostRuntime) {
    try_rows(&rt, rt.alloc(), TWO, TWO_RECORDS);
}

/// Slot 1 has a table of version 2 with the same object, whose record stands at 18,321 and its digest at
/// 18,401.
const OTHER: &[Change] = &[
    (9833, 2),
    (9841, 2),
    (9849, 1),
    (9889, 5),
    (18_321, 1),
    (18_322, b'a'),
    (18_393, 5),
    (18_401, 0x2C),
    (19_601, 0xA5),
];

const UNLIKE: &[Row] = rows! {
    "version 2 is the newer": 19608, [] => None;
    "version 2 is the newer and at fault": 19608, [(18_322, 0)] => fault!(NameBytes, 18_321);
    "version 1 is the newer": 19608, [(72, 3), (18_322, 0)] => None;
    "version 1 is the newer and at fault": 19608, [(72, 3), (8553, 0)] => fault!(NameBytes, 8552);
    "version 2 is in use alone": 19608, [(9832, 0)] => None;
};

#[test]
fn opens_the_newer_of_two_slots_of_unlike_versions(rt: HostRuntime) {
    try_rows(&rt, rt.alloc(), OTHER, UNLIKE);
}

/// The words of a command, and what it puts of the file of version 2.
type Answer = (&'static [&'static str], &'static str);

const ANSWERS: &[Answer] = &[
    (&["get", "f", "a"], "hello"),
    (&["check", "f"], "store 9 16 1 5 5 1 still\n"),
    (&["map", "f"], "class 2 5 0 0\nobject a 0 5\n"),
];

/// What a command puts of the file of version 2, which it leaves as it is.
fn try_answer(rt: &impl Abort, alloc: Global, words: &[&str], puts: &str) {
    let file = got(rt, disk(alloc, 19608, HELLO_DIGESTED, &[]));
    let left = try_command(rt, alloc, file, words, 0, puts);
    try_number(rt, left.turns(), 0, &puts);
}

#[test]
fn answers_from_a_file_of_version_2(rt: HostRuntime) {
    for (words, puts) in ANSWERS {
        try_answer(&rt, rt.alloc(), *words, *puts);
    }
}
