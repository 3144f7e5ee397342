//! The logged files that are spoilt. Each keeps all rules; k is 9, and there is room for 32 names.
use crate::drawn::Drawn;
use plain_layout::{Change, put};
use std::alloc::{AllocError, Global};

/// How long each of the files is: its head has 22,163 bytes, and its data part 254.
const LENGTH: usize = 22_417;

/// The mark, k and the number of names; in slot 0 a header of version 3 and sequence 1. The gates of the slot
/// and of the format are open.
const FRONT: &[Change] = &[
    (0, b'C'),
    (1, b'O'),
    (2, b'S'),
    (3, b'T'),
    (4, b'L'),
    (5, b'O'),
    (6, b'G'),
    (7, b'1'),
    (8, 9),
    (16, 32),
    (64, 3),
    (72, 1),
    (11_112, 0xA5),
    (22_162, 0xA5),
];

/// An entry at the first gate puts `a` of 100 bytes at 0. Class 6 has a capacity of 100.
const PUT: &[Change] = &[
    (8_704, 0xA5),
    (8_712, 1),
    (8_736, 1),
    (8_760, 6),
    (8_768, 100),
    (8_776, 1),
    (8_777, b'a'),
    (8_848, 100),
    (8_856, 7),
];

/// The entry behind it is that of a moving table: boundary 2, wall 239, slack 112. `a` moves to 139, `b` of 10
/// bytes is put at 239 and `c` of 5 at 249.
const FLUSH: &[Change] = &[
    (9_216, 0xA5),
    (9_217, 1),
    (9_218, 2),
    (9_232, 1),
    (9_248, 2),
    (9_256, 239),
    (9_264, 112),
    (9_280, 139),
    (9_288, 1),
    (9_289, b'b'),
    (9_352, 239),
    (9_360, 10),
    (9_400, 1),
    (9_401, b'c'),
    (9_464, 249),
    (9_472, 5),
];

/// The third entry is settled: the classes 2, 3 and 6 have capacities of 5, 10 and 100. `a` moves to 16, `b`
/// to 5 and `c` to 0.
const END: &[Change] = &[
    (9_728, 0xA5),
    (9_736, 3),
    (9_744, 3),
    (9_784, 2),
    (9_792, 5),
    (9_800, 3),
    (9_808, 10),
    (9_816, 6),
    (9_824, 100),
    (9_840, 16),
    (9_848, 1),
    (9_856, 5),
    (9_864, 2),
];

/// The table of the slot has `a` of 100 bytes at 0 as its record. The first entry changes nothing.
const RECORD: &[Change] = &[
    (80, 1),
    (152, 100),
    (8_552, 1),
    (8_553, b'a'),
    (8_624, 100),
    (8_632, 7),
    (8_704, 0xA5),
    (8_712, 1),
    (8_760, 6),
    (8_768, 100),
];

/// The other slot is open too, with sequence 5 and the object `c` of 5 bytes at 0. The entry of its log, at
/// 19,968, takes `c` out and puts `d` there.
const NEWER: &[Change] = &[
    (11_113, 3),
    (11_121, 5),
    (11_129, 1),
    (11_169, 5),
    (19_601, 1),
    (19_602, b'c'),
    (19_673, 5),
    (22_161, 0xA5),
    (19_968, 0xA5),
    (19_976, 1),
    (19_992, 1),
    (20_000, 1),
    (20_024, 2),
    (20_032, 5),
    (20_040, 1),
    (20_041, b'c'),
    (20_104, 1),
    (20_105, b'd'),
    (20_176, 5),
];

/// One of the files, as a word draws it: a settled table, a moving one, one whose slot has a record, and one
/// whose other slot is newer.
pub fn drawn_base(alloc: Global, words: &mut Drawn) -> Result<Vec<u8>, AllocError> {
    match words.below(4) {
        0 => base(alloc, PUT, FLUSH, END, &[]),
        1 => base(alloc, PUT, FLUSH, &[], &[]),
        2 => base(alloc, RECORD, FLUSH, END, &[]),
        _ => base(alloc, PUT, FLUSH, END, NEWER),
    }
}

/// The file of four lists of changes.
fn base(
    alloc: Global,
    first: &[Change],
    second: &[Change],
    third: &[Change],
    last: &[Change],
) -> Result<Vec<u8>, AllocError> {
    let mut bytes = vec![in alloc; 0u8; LENGTH]?;
    put(&mut bytes, FRONT);
    put(&mut bytes, first);
    put(&mut bytes, second);
    put(&mut bytes, third);
    put(&mut bytes, last);
    Ok(bytes)
}
