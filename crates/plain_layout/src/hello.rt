//! A file by hand, to be changed byte by byte.

/// A byte of a file, by position.
pub type Change = (usize, u8);

/// The mark, k = 9, 16 names, and a settled table of sequence 1 with the one object `a` = `hello`, in a file
/// of 19,608 bytes. All other bytes are 0.
pub const HELLO: &[Change] = &[
    (0, b'C'),
    (1, b'O'),
    (2, b'S'),
    (3, b'T'),
    (4, b'O'),
    (5, b'R'),
    (6, b'E'),
    (7, b'1'),
    (8, 9),
    (16, 16),
    (64, 1),
    (72, 1),
    (80, 1),
    (120, 5),
    (8552, 1),
    (8553, b'a'),
    (8624, 5),
    (9832, 0xA5),
    (19602, 0xA5),
    (19603, b'h'),
    (19604, b'e'),
    (19605, b'l'),
    (19606, b'l'),
    (19607, b'o'),
];

/// Puts bytes by position, those that a file has.
pub fn put(file: &mut [u8], changes: &[Change]) {
    for (at, byte) in changes {
        if *at < file.len() {
            file[*at] = *byte;
        }
    }
}
