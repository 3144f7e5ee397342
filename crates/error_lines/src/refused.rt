//! Why a file is not a store, in words.
use crate::line::{Texts, one, three};
use crate::texts::text_of;

/// What is said of a fault that has a text of its own.
const WHOLE: &[(&str, &str)] = &[
    (
        "slot 1",
        "not-a-store: it is too short: a format was interrupted, or it was truncated",
    ),
    (
        "slot 2",
        "not-a-store: a format was interrupted near its end",
    ),
    (
        "slot 3",
        "damaged: neither of its two tables is marked as valid",
    ),
    (
        "slot 4",
        "damaged: both of its tables have the same sequence",
    ),
    (
        "codec 1 at 0",
        "not-a-store: it is not a costore store, or a format was interrupted at its start",
    ),
];

/// Why a file is not a store, by the words of the fault line after `fault store `. It begins with
/// `not-a-store` if it never was one or its `format` was interrupted, and otherwise with `damaged`.
pub fn refused<'a>(fault: &'a str) -> Texts<'a> {
    match text_of(WHOLE, fault) {
        Some(text) => one(text),
        None => damaged(fault),
    }
}

/// What is wrong in the bytes of a file or in its table.
fn damaged<'a>(fault: &'a str) -> Texts<'a> {
    if let Some((rule, place)) = parted(fault, "rule ") {
        let kind = text_of(PLACES, rule).unwrap_or(PLACE);
        let said = text_of(RULES, rule).unwrap_or(": this version has no such rule");
        return ["damaged: rule ", rule, kind, place, said];
    }
    if let Some((number, place)) = parted(fault, "codec ") {
        let said = text_of(FAULTS, number).unwrap_or(
            " hold something that this version doesn't read",
        );
        return three("damaged: the bytes at position ", place, said);
    }
    one("damaged: it is no store")
}

/// The two numbers of a fault.
fn parted<'a>(fault: &'a str, front: &str) -> Option<(&'a str, &'a str)> {
    match fault.strip_prefix(front) {
        Some(numbers) => numbers.split_once(" at "),
        None => None,
    }
}

/// What a rule of the table says, by its number.
const RULES: &[(&str, &str)] = &[
    ("1", ": an object has at most 67108864 bytes"),
    ("2", ": an empty object is at place 0"),
    ("3", ": nothing ends after the end of the file"),
    ("4", ": boundary, wall and slack fit the kind of the table"),
    (
        "5",
        ": no class from the boundary on has a segment, and none uses the buffer of a smaller class",
    ),
    ("6", ": no more of a buffer is used than it has"),
    (
        "7",
        ": each object is in the segment of its class, or in the used part of a buffer",
    ),
    ("8", ": no object shares a byte with an earlier one"),
    ("9", ": what a segment has in excess is paid for by buffers"),
    (
        "10",
        ": a class uses a buffer only where those before it are full",
    ),
    ("11", ": there is room to finish the interrupted flush"),
    (
        "12",
        ": the objects are where the interrupted flush can be finished",
    ),
];

/// What the second number of a rule's fault counts, by the rule's number.
const PLACES: &[(&str, &str)] = &[
    ("1", RECORD),
    ("2", RECORD),
    ("5", CLASS),
    ("6", CLASS),
    ("7", RECORD),
    ("8", RECORD),
    ("9", CLASS),
    ("10", CLASS),
    ("12", RECORD),
];

const RECORD: &str = " of docs/FORMAT.md is broken at record ";

const CLASS: &str = " of docs/FORMAT.md is broken at class ";

/// What it counts of each other rule.
const PLACE: &str = " of docs/FORMAT.md is broken at place ";

/// What is wrong in bytes, by its number.
const FAULTS: &[(&str, &str)] = &[
    ("1", " are not the mark of a store"),
    ("2", " hold a K or a NAMES that is out of range"),
    ("3", " hold another version of the format"),
    ("4", " hold a table that is neither settled nor moving"),
    ("5", " are not zero, as they must be"),
    (
        "6",
        " hold a count of more records than the file has room for",
    ),
    ("7", " hold an invalid name"),
    ("8", " hold a name that isn't greater than the one before"),
    ("9", " hold a sequence that is too large"),
    ("10", " hold a number that is out of range"),
    ("11", " hold an entry that reaches past the end of its log"),
    ("12", " hold an entry of an object that isn't there"),
];
