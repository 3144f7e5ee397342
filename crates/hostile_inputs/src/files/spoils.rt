//! Spoiling a part of a file, as words draw it.
ghost use Rattle.std.specs.Prelude.{◌<◌};

use crate::drawn::Drawn;
use crate::values::{below, spoil_byte, spoil_length, spoil_number};
use size_class::CLASSES;
use std::alloc::AllocError;

/// A part of a file. Those of tables are parts of slot 0.
#[derive(Clone, Copy, PartialEq, Eq)]
enum Part {
    /// A byte of the superblock's mark, or of its zeros.
    Mark,
    Block,
    /// The divisor, or the number of names.
    Divisor,
    Names,
    /// The first bytes of the header.
    Version,
    Kind,
    Boundary,
    Zeros,
    /// The sequence, or that of slot 1.
    Sequence,
    Other,
    Count,
    Wall,
    Slack,
    /// The capacity of a class in use, or of the one behind them.
    Capacity,
    /// What some class has taken of some buffer, each of them such a class, or of buffer 6 one from 0 to 7.
    Used,
    Six,
    /// Of one of the first four records the length of the name, its first byte, the byte behind that, the
    /// place and the size.
    Letters,
    Letter,
    Behind,
    Place,
    Size,
    /// A byte of the first record's digest in version 2, or of the second record.
    Digest,
    Later,
    /// The gate of a slot, or the format gate.
    Gate,
    /// The length of the file.
    Length,
}

/// The parts that are drawn. Those on which rules depend stand here more often.
const PARTS: [Part; 40] = [
    Part::Mark,
    Part::Block,
    Part::Divisor,
    Part::Names,
    Part::Version,
    Part::Kind,
    Part::Boundary,
    Part::Boundary,
    Part::Zeros,
    Part::Sequence,
    Part::Other,
    Part::Count,
    Part::Wall,
    Part::Wall,
    Part::Slack,
    Part::Slack,
    Part::Capacity,
    Part::Capacity,
    Part::Used,
    Part::Used,
    Part::Six,
    Part::Six,
    Part::Six,
    Part::Letters,
    Part::Letter,
    Part::Letter,
    Part::Behind,
    Part::Place,
    Part::Place,
    Part::Place,
    Part::Size,
    Part::Size,
    Part::Size,
    Part::Size,
    Part::Digest,
    Part::Later,
    Part::Later,
    Part::Later,
    Part::Gate,
    Part::Length,
];

/// The classes that are spoilt are below this one.
const LIMIT: u32 = CLASSES as u32 + 1;

/// Spoils a part of a file; what lies behind its end is left.
pub fn spoil(bytes: &mut Vec<u8>, words: &mut Drawn) -> Result<(), AllocError> {
    let part = PARTS[words.below(40) as usize];
    if part == Part::Length {
        return spoil_length(bytes, words);
    }
    let at = place(part, words);
    if is_number(part) {
        spoil_number(bytes, at, words);
    } else {
        spoil_byte(bytes, at, words);
    }
    Ok(())
}

/// Whether a part is a number of 8 bytes; else it is a byte.
fn is_number(part: Part) -> bool {
    match part {
        Part::Divisor
        | Part::Names
        | Part::Sequence
        | Part::Other
        | Part::Count
        | Part::Wall
        | Part::Slack
        | Part::Capacity
        | Part::Used
        | Part::Six
        | Part::Place
        | Part::Size => true,
        _ => false,
    }
}

/// Where a part stands in the file; of several, one is drawn.
fn place(part: Part, words: &mut Drawn) -> usize
    ensures { result < 20000 }
{
    match part {
        Part::Mark => below(8, words),
        Part::Block => 24 + below(40, words),
        Part::Divisor => 8,
        Part::Names => 16,
        Part::Version => 64,
        Part::Kind => 65,
        Part::Boundary => 66,
        Part::Zeros => 67 + below(5, words),
        Part::Sequence => 72,
        Part::Other => 9841,
        Part::Count => 80,
        Part::Wall => 88,
        Part::Slack => 96,
        Part::Capacity => 104 + 8 * below(LIMIT, words),
        Part::Used => 360 + 256 * below(LIMIT, words) + 8 * below(LIMIT, words),
        Part::Six => 1896 + 8 * below(8, words),
        Part::Letters => 8552 + 80 * below(4, words),
        Part::Letter => 8553 + 80 * below(4, words),
        Part::Behind => 8554 + 80 * below(4, words),
        Part::Place => 8616 + 80 * below(4, words),
        Part::Size => 8624 + 80 * below(4, words),
        Part::Digest => 8632 + below(32, words),
        Part::Later => 8664 + below(80, words),
        Part::Gate => gate(below(3, words)),
        Part::Length => 0,
    }
}

/// The place of a gate: of slot 0, of slot 1, or of the format.
fn gate(number: usize) -> usize
    ensures { result < 20000 }
{
    match number {
        0 => 9832,
        1 => 19_601,
        _ => 19_602,
    }
}
