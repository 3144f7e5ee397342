//! A hand-made image with one object, and its changes.
use disk_mem::MemDisk;
pub use plain_layout::Change;
use plain_layout::{HELLO, put};
use std::alloc::Global;
use std::test::Fail;

/// The changes to an object of 160,000 bytes, in a file of 197,380 bytes. Its class is 17, with a
/// capacity of 160,000 (0x27100) and a buffer of 17,777. It is put in three pieces; this tells the
/// first byte of each, and the last.
pub const LONG: &[Change] = &[
    (120, 0),
    (241, 0x71),
    (242, 0x02),
    (8624, 0),
    (8625, 0x71),
    (8626, 0x02),
    (19_603, b'h'),
    (85_139, b'i'),
    (150_675, b'j'),
    (179_602, b'k'),
];

/// The changes to a table that is moved from boundary 2 on, behind a wall of 239 with a slack of 112,
/// in a file of 19,857 bytes: `a` of 100 bytes at 139, `b` of 10 at 239, `c` of 5 at 249.
pub const MOVING: [Change; 17] = [
    (65, 1),
    (66, 2),
    (80, 3),
    (88, 239),
    (96, 112),
    (120, 0),
    (8616, 139),
    (8624, 100),
    (8632, 1),
    (8633, b'b'),
    (8696, 239),
    (8704, 10),
    (8712, 1),
    (8713, b'c'),
    (8776, 249),
    (8784, 5),
    (9832, 0xA5),
];

/// The changes to a table of version 2, whose one record has the SHA-256 of `hello` as its digest, from 8,632
/// to 8,664.
pub const HELLO_DIGESTED: &[Change] = &[
    (64, 2),
    (8632, 0x2C),
    (8633, 0xF2),
    (8634, 0x4D),
    (8635, 0xBA),
    (8636, 0x5F),
    (8637, 0xB0),
    (8638, 0xA3),
    (8639, 0x0E),
    (8640, 0x26),
    (8641, 0xE8),
    (8642, 0x3B),
    (8643, 0x2A),
    (8644, 0xC5),
    (8645, 0xB9),
    (8646, 0xE2),
    (8647, 0x9E),
    (8648, 0x1B),
    (8649, 0x16),
    (8650, 0x1E),
    (8651, 0x5C),
    (8652, 0x1F),
    (8653, 0xA7),
    (8654, 0x42),
    (8655, 0x5E),
    (8656, 0x73),
    (8657, 0x04),
    (8658, 0x33),
    (8659, 0x62),
    (8660, 0x93),
    (8661, 0x8B),
    (8662, 0x98),
    (8663, 0x24),
];

/// The changes to a table of version 2, whose one record has the SHA-256 of the object of 160,000 bytes.
pub const LONG_DIGESTED: &[Change] = &[
    (64, 2),
    (8632, 0xCD),
    (8633, 0xF3),
    (8634, 0x08),
    (8635, 0xB4),
    (8636, 0x8C),
    (8637, 0x97),
    (8638, 0xD1),
    (8639, 0xDF),
    (8640, 0x88),
    (8641, 0x7F),
    (8642, 0xE9),
    (8643, 0x31),
    (8644, 0x3E),
    (8645, 0x90),
    (8646, 0x74),
    (8647, 0xB9),
    (8648, 0x6E),
    (8649, 0x4D),
    (8650, 0x7F),
    (8651, 0xBF),
    (8652, 0x51),
    (8653, 0x6C),
    (8654, 0x5D),
    (8655, 0x89),
    (8656, 0xD5),
    (8657, 0x0A),
    (8658, 0x08),
    (8659, 0xA4),
    (8660, 0xB7),
    (8661, 0x1F),
    (8662, 0xA0),
    (8663, 0x0D),
];

/// The image of some length, changed twice; all other bytes are 0.
pub fn image(
    alloc: Global,
    length: usize,
    first: &[Change],
    then: &[Change],
) -> Result<Vec<u8>, Fail> {
    let mut bytes = vec![in alloc; 0u8; length]?;
    put(&mut bytes, HELLO);
    put(&mut bytes, first);
    put(&mut bytes, then);
    Ok(bytes)
}

/// A disk that holds the image.
pub fn disk(
    alloc: Global,
    length: usize,
    first: &[Change],
    then: &[Change],
) -> Result<MemDisk, Fail> {
    let bytes = image(alloc, length, first, then)?;
    Ok(MemDisk::from_bytes(alloc, &bytes)?)
}
