//! Spoiling a part of a logged file, as words draw it.
ghost use Rattle.std.specs.Prelude.{◌<◌};

use crate::drawn::Drawn;
use crate::values::{below, spoil_byte, spoil_length, spoil_number};
use std::alloc::AllocError;

/// A part of a logged file. Those of entries are parts of one of the five at `entry`.
#[derive(Clone, Copy, PartialEq, Eq)]
enum Part {
    /// A number of the superblock, or of what the header of slot 0 or of slot 1 begins with.
    Front,
    Newer,
    /// The sequence of a header.
    Sequence,
    /// A byte of slot 0 between its header and the first gate of its log.
    Record,
    /// The gate of a slot, or the format gate.
    Slot,
    /// The gate of an entry, its kind or boundary, a byte of its zeros, or a number of its head.
    Gate,
    Kind,
    Zeros,
    Count,
    /// A number or a byte of what follows its head, or a byte anywhere in its sector.
    Item,
    Letter,
    Gap,
    /// Its sector, which becomes a copy of that of another entry.
    Copy,
    /// The length of the file.
    Length,
}

/// The parts that are drawn. Those on which more faults depend stand here more often.
const PARTS: [Part; 23] = [
    Part::Front,
    Part::Newer,
    Part::Sequence,
    Part::Sequence,
    Part::Gate,
    Part::Kind,
    Part::Kind,
    Part::Zeros,
    Part::Count,
    Part::Count,
    Part::Item,
    Part::Item,
    Part::Item,
    Part::Item,
    Part::Item,
    Part::Item,
    Part::Letter,
    Part::Record,
    Part::Gap,
    Part::Slot,
    Part::Copy,
    Part::Copy,
    Part::Length,
];

/// The length of a sector.
const SECTOR: usize = 512;

/// Spoils a part of a file; what lies behind its end is left.
pub fn spoil_log(bytes: &mut Vec<u8>, words: &mut Drawn) -> Result<(), AllocError> {
    match PARTS[words.below(23) as usize] {
        Part::Length => return spoil_length(bytes, words),
        Part::Copy => copy_entry(bytes, words),
        part => spoil_part(bytes, part, words),
    }
    Ok(())
}

/// Spoils a part that is a number or a byte.
fn spoil_part(bytes: &mut [u8], part: Part, words: &mut Drawn) {
    let at = place(part, words);
    match part {
        Part::Front | Part::Newer | Part::Sequence | Part::Count | Part::Item => {
            spoil_number(bytes, at, words);
        }
        _ => spoil_byte(bytes, at, words),
    }
}

/// Where a part stands in the file; of several, one is drawn.
fn place(part: Part, words: &mut Drawn) -> usize
    ensures { result < 24000 }
{
    match part {
        Part::Front => 8 * below(13, words),
        Part::Newer => 11_113 + 8 * below(4, words),
        Part::Sequence => sequence(below(2, words)),
        Part::Record => 8_552 + below(152, words),
        Part::Slot => gate(below(3, words)),
        Part::Gate => entry(words),
        Part::Kind => entry(words) + 1 + below(2, words),
        Part::Zeros => entry(words) + 3 + below(5, words),
        Part::Count => entry(words) + 8 + 8 * below(6, words),
        Part::Item => entry(words) + 56 + 8 * below(20, words),
        Part::Letter => entry(words) + 56 + below(256, words),
        Part::Gap => entry(words) + below(512, words),
        Part::Copy | Part::Length => 0,
    }
}

/// The place of the sequence of a slot.
fn sequence(slot: usize) -> usize
    ensures { result < 20000 }
{
    match slot {
        0 => 72,
        _ => 11_121,
    }
}

/// The place of a gate: of slot 0, of slot 1, or of the format.
fn gate(number: usize) -> usize
    ensures { result < 23000 }
{
    match number {
        0 => 11_112,
        1 => 22_161,
        _ => 22_162,
    }
}

/// The place of an entry that a word draws: of three in slot 0, of the one that would follow them, or of the
/// first in slot 1.
fn entry(words: &mut Drawn) -> usize
    ensures { result < 20000 }
{
    match words.below(5) {
        0 => 8_704,
        1 => 9_216,
        2 => 9_728,
        3 => 10_240,
        _ => 19_968,
    }
}

/// Copies the sector of an entry to the place of another, in a file that has both.
fn copy_entry(bytes: &mut [u8], words: &mut Drawn) {
    let source = entry(words);
    let target = entry(words);
    if source.max(target) + SECTOR <= bytes.len() {
        bytes.copy_within(source..source + SECTOR, target);
    }
}
