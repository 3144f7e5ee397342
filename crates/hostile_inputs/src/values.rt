//! Spoiling a byte, a number or the length of a file: what stands there then is drawn.
ghost use Rattle.std.specs.Prelude.{◌<◌};

use crate::drawn::Drawn;
use size_class::SIZE_MAX;
use std::alloc::AllocError;

/// No file gets longer.
const LONGEST: u64 = 30_000;

/// A place below a limit, which is not 0.
pub fn below(limit: u32, words: &mut Drawn) -> usize
    requires { 0 < limit }
    ensures { result < limit }
{
    words.below(limit) as usize
}

/// Spoils the length of a file; where it gets longer its new bytes are 0.
pub fn spoil_length(bytes: &mut Vec<u8>, words: &mut Drawn) -> Result<(), AllocError> {
    let length = value(bytes.len() as u64, words).min(LONGEST);
    bytes.resize(length as usize, 0)
}

/// Spoils a byte; one behind the end of the file is left.
pub fn spoil_byte(bytes: &mut [u8], at: usize, words: &mut Drawn) {
    if at < bytes.len() {
        bytes[at] = (value(u64::from(bytes[at]), words) % 256) as u8;
    }
}

/// Spoils a number of 8 bytes; one that the file doesn't have whole is left.
pub fn spoil_number(bytes: &mut [u8], at: usize, words: &mut Drawn)
    requires { at < 24000 }
{
    if at + 8 <= bytes.len() {
        let mut piece = [0u8; 8];
        piece.copy_from_slice(&bytes[at..at + 8]);
        let number = value(u64::from_le_bytes(piece), words);
        bytes[at..at + 8].copy_from_slice(&number.to_le_bytes());
    }
}

/// What a number is spoilt to: nothing, one, one more or one less, more than a number or an object
/// may have, an open gate, something small, something more, or any number.
fn value(old: u64, words: &mut Drawn) -> u64 {
    match words.below(12) {
        0 => 0,
        1 => 1,
        2 | 3 => old.wrapping_add(1),
        4 | 5 => old.wrapping_sub(1),
        6 => 1 << 48,
        7 => SIZE_MAX + 1,
        8 => 0xA5,
        9 => u64::from(words.below(256)),
        10 => old.wrapping_add(u64::from(words.below(256))),
        _ => words.long(),
    }
}
