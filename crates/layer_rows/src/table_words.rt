//! Headers and tables in few words, for worked ones.
ghost use Rattle.std.specs.Prelude.{◌≡◌, IfOk};

use plain_layout::Table;
use size_class::{CLASSES, SIZE_MAX};
use slot_codec::{Header, Kind, Name, Record};
use std::alloc::{AllocError, Global};

/// A capacity of a class, or what entries of a class have taken of a buffer.
#[derive(Clone, Copy)]
pub(crate) enum Number {
    Cap(usize, u64),
    Used(usize, usize, u64),
}

/// A table: its header, how long the data part is, and its objects by name, place and size.
#[derive(Clone, Copy)]
pub(crate) struct TableWords {
    pub(crate) kind: Kind,
    pub(crate) boundary: u8,
    pub(crate) wall: u64,
    pub(crate) slack: u64,
    pub(crate) len: u64,
    pub(crate) numbers: &'static [Number],
    pub(crate) objects: &'static [(u8, u64, u64)],
}

/// How many classes objects may have, and the size of the largest one.
pub(crate) type Limits = (u8, u64);

/// Those of the program.
pub(crate) const LIMITS: Limits = (CLASSES as u8, SIZE_MAX);

/// Those under which files were made when there were fewer classes.
pub(crate) const FEWER: Limits = (21, 1_048_576);

/// The header of a table.
pub(crate) fn header_of(words: &TableWords) -> Header {
    let bare = Header {
        version: 1,
        kind: words.kind,
        boundary: words.boundary,
        sequence: 1,
        count: 0,
        wall: words.wall,
        slack: words.slack,
        caps: [0; 32],
        used: [[0; 32]; 32],
    };
    with_numbers(bare, words.numbers)
}

/// A header with some numbers more.
fn with_numbers(bare: Header, numbers: &[Number]) -> Header {
    let mut header = bare;
    'numbers: for number in numbers {
        match *number {
            Number::Cap(c, cap) => {
                if c < 32 {
                    header.caps[c] = cap;
                }
            }
            Number::Used(j, c, taken) => {
                if j < 32 && c < 32 {
                    header.used[j][c] = taken;
                }
            }
        }
    }
    header
}

/// The table as the plain definitions take it, for the divisor 9 and for some limits.
pub(crate) fn plain_table(
    alloc: Global,
    limits: Limits,
    words: &TableWords,
) -> Result<Table, AllocError>
    ensures { IfOk result (λ table. table.k ≡ 9) }
{
    let (classes, size_max) = limits;
    Ok(Table {
        classes,
        size_max,
        k: 9,
        data_len: words.len,
        header: header_of(words),
        records: records_of(alloc, words.objects)?,
    })
}

/// The records of objects by name, place and size.
fn records_of(alloc: Global, objects: &[(u8, u64, u64)]) -> Result<Vec<Record>, AllocError> {
    let mut records = Vec::new(alloc);
    'objects: for (name, place, size) in objects {
        if let Some(name) = Name::new(&[*name]) {
            records.push(Record {
                name,
                place: *place,
                size: *size,
                digest: [0; 32],
            })?;
        }
    }
    Ok(records)
}
