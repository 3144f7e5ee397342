//! The text of each fault.
use crate::answers::try_bytes;
use slot_codec::{CodecFault, NoMemory};
use slot_pair::SlotFault;
use std::alloc::Global;
use std::fmt::Display;
use std::process::Abort;

/// A fault says so.
fn says(rt: &impl Abort, alloc: Global, fault: &impl Display, text: &str) {
    let said = format!(in alloc; "{fault}").expect(rt, "memory");
    try_bytes(rt, said.as_bytes(), text.as_bytes(), &text);
}

const BYTES: &[(CodecFault, &str)] = &[
    (
        CodecFault::Magic,
        "the file doesn't begin with the store's mark",
    ),
    (
        CodecFault::Params,
        "the divisor or the number of names is out of range",
    ),
    (CodecFault::Version, "the version is neither 1 nor 2"),
    (CodecFault::Kind, "the kind is neither settled nor moving"),
    (CodecFault::Zeros, "a byte that must be zero isn't"),
    (
        CodecFault::Count,
        "there are more records than the slot has room for",
    ),
    (
        CodecFault::NameBytes,
        "the name isn't 1 to 63 bytes of printable ASCII",
    ),
    (
        CodecFault::Order,
        "the name isn't greater than the one before it",
    ),
    (CodecFault::Worn, "the sequence is worn out"),
    (CodecFault::Range, "a number is 2^48 or more"),
    (
        CodecFault::Entry,
        "an entry reaches past the end of its log",
    ),
    (
        CodecFault::Absent,
        "an entry names an object that isn't there",
    ),
];

#[test]
fn says_what_bytes_are_refused_for(rt: HostRuntime) {
    for (fault, text) in BYTES {
        says(&rt, rt.alloc(), fault, *text);
    }
}

const SLOTS: &[(SlotFault, &str)] = &[
    (SlotFault::Short, "the file is too short"),
    (
        SlotFault::Unformatted,
        "the file isn't formatted to its end",
    ),
    (SlotFault::NoGate, "no slot's gate is open"),
    (SlotFault::SameSequence, "both slots have one sequence"),
    (
        SlotFault::Codec(CodecFault::Version, 64),
        "the version is neither 1 nor 2, at 64",
    ),
    (SlotFault::Disk, "the disk failed"),
];

#[test]
fn says_why_no_slot_is_in_use(rt: HostRuntime) {
    for (fault, text) in SLOTS {
        says(&rt, rt.alloc(), fault, *text);
    }
}

#[test]
fn says_that_memory_is_out(rt: HostRuntime) {
    says(&rt, rt.alloc(), &NoMemory, "out of memory");
}
