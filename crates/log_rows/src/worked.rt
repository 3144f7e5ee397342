//! A file whose slots have logs, worked by hand: its bytes before the log, and three entries.
ghost use Rattle.std.specs.Prelude.{◌≡◌, length};

use std::alloc::Global;
use std::fmt::Debug;
use std::process::Abort;

/// How long the file is: a head of 22,163 bytes with room for 32 names, and a data part of 254.
pub const LENGTH: usize = 22_417;

/// The bytes in front of the log, and the gates, that aren't 0: the mark, K 9, 32 names; in slot 0 a header of
/// version 3 and sequence 1, and no records.
pub const BASE: &[(usize, u8)] = &[
    (0, b'C'),
    (1, b'O'),
    (2, b'S'),
    (3, b'T'),
    (4, b'L'),
    (5, b'O'),
    (6, b'G'),
    (7, b'1'),
    (8, 9),
    (16, 32),
    (64, 3),
    (72, 1),
    (11_112, 0xA5),
    (22_162, 0xA5),
];

/// The bytes of the log that aren't 0. Its first gate stands at 8,704, which is 64 + 8,488 up to a multiple of
/// 512, and it must end below 10,752, the multiple of 512 that isn't above the slot's gate.
pub const ENTRIES: &[(usize, u8)] = &[
    // At 8,704 the entry of 184 bytes puts `a` of 100 bytes at 0. Class 6 has a capacity of 100.
    (8_704, 0xA5),
    (8_712, 1),
    (8_736, 1),
    (8_760, 6),
    (8_768, 100),
    (8_776, 1),
    (8_777, b'a'),
    (8_848, 100),
    (8_856, 7),
    // At 9,216 that of 296 bytes: a moving table, boundary 2, wall 239, slack 112. `a` moves to 139, `b` of 10
    // bytes is put at 239 and `c` of 5 at 249.
    (9_216, 0xA5),
    (9_217, 1),
    (9_218, 2),
    (9_232, 1),
    (9_248, 2),
    (9_256, 239),
    (9_264, 112),
    (9_280, 139),
    (9_288, 1),
    (9_289, b'b'),
    (9_352, 239),
    (9_360, 10),
    (9_400, 1),
    (9_401, b'c'),
    (9_464, 249),
    (9_472, 5),
    // At 9,728 that of 152 bytes: classes 2, 3 and 6 have capacities of 5, 10 and 100. `a` moves to 16, `b` to 5
    // and `c` to 0.
    (9_728, 0xA5),
    (9_736, 3),
    (9_744, 3),
    (9_784, 2),
    (9_792, 5),
    (9_800, 3),
    (9_808, 10),
    (9_816, 6),
    (9_824, 100),
    (9_840, 16),
    (9_848, 1),
    (9_856, 5),
    (9_864, 2),
];

/// What holds of a row.
pub fn try_holds(rt: &impl Abort, holds: bool, row: &impl Debug) {
    assert!(rt; holds, "{row:?}");
}

/// Puts a byte at a position, if the bytes have it.
fn put(bytes: &mut [u8], at: usize, byte: u8)
    ensures { length bytes.new ≡ length bytes.old }
{
    if at < bytes.len() {
        bytes[at] = byte;
    }
}

/// The bytes of a file that has these, and else 0.
pub fn file_with(rt: &impl Abort, alloc: Global, parts: &[&[(usize, u8)]]) -> Vec<u8> {
    let mut bytes = vec![in alloc; 0u8; LENGTH].expect(rt, "memory");
    'parts: for part in parts {
        put_all(&mut bytes, part);
    }
    bytes
}

/// Puts bytes at their positions.
fn put_all(bytes: &mut [u8], part: &[(usize, u8)])
    ensures { length bytes.new ≡ length bytes.old }
{
    'bytes: for (at, byte) in part {
        put(bytes, *at, *byte);
    }
}
