//! The files that are spoilt. Each keeps all rules; k is 9, and there is room for 16 names.
use crate::drawn::Drawn;
use row_vectors::images::{Change, MOVING};

/// A file, by its length and two lists of changes of the hand-made file.
#[derive(Clone, Copy)]
pub struct Base {
    pub length: usize,
    pub first: &'static [Change],
    pub then: &'static [Change],
}

/// The object `a` has 100 bytes at 0, in class 6 with its buffer of 11. `b` is another.
const HUNDRED: [Change; 6] = [
    (80, 2),
    (120, 0),
    (152, 100),
    (8624, 100),
    (8632, 1),
    (8633, b'b'),
];

/// `b` stands behind the hundred, in its buffer, of which 10 bytes are taken for class 3.
const IN_BUFFER: [Change; 3] = [(1920, 10), (8696, 100), (8704, 10)];

/// Class 6 has 200 bytes, and both objects stand there.
const SIDE_BY_SIDE: [Change; 3] = [(152, 200), (8696, 100), (8704, 100)];

/// A moving table of boundary 7, with `a` below the boundary, and nothing from there on.
const BELOW: [Change; 6] = [(66, 7), (80, 1), (88, 111), (96, 0), (152, 100), (8616, 0)];

/// The other slot is open too, with a table of no object and sequence 2.
const TWO_SLOTS: [Change; 3] = [(9833, 1), (9841, 2), (19_601, 0xA5)];

/// The table is one of version 2. Its digest of `a` begins and ends as the SHA-256 of `hello`.
const DIGESTED: [Change; 3] = [(64, 2), (8632, 0x2C), (8663, 0x24)];

/// Both objects of class 6 in a table of version 2, whose second record stands 112 bytes behind the first.
const TWO_DIGESTED: [Change; 8] = [
    (64, 2),
    (80, 2),
    (120, 0),
    (152, 200),
    (8624, 100),
    (8664, 1),
    (8665, b'b'),
    (8728, 100),
];

const SECOND_SIZE: [Change; 1] = [(8736, 100)];

const BASES: [Base; 9] = [
    Base {
        length: 19_608,
        first: &[],
        then: &[],
    },
    Base {
        length: 19_714,
        first: &HUNDRED,
        then: &IN_BUFFER,
    },
    Base {
        length: 19_825,
        first: &HUNDRED,
        then: &SIDE_BY_SIDE,
    },
    Base {
        length: 19_857,
        first: &MOVING,
        then: &[],
    },
    Base {
        length: 19_714,
        first: &MOVING,
        then: &BELOW,
    },
    Base {
        length: 19_608,
        first: &TWO_SLOTS,
        then: &[],
    },
    Base {
        length: 19_608,
        first: &DIGESTED,
        then: &[],
    },
    Base {
        length: 19_825,
        first: &TWO_DIGESTED,
        then: &SECOND_SIZE,
    },
    Base {
        length: 19_608,
        first: &DIGESTED,
        then: &TWO_SLOTS,
    },
];

/// One of the files, as a word draws it.
pub fn drawn_base(words: &mut Drawn) -> Base {
    BASES[words.below(9) as usize]
}
