//! Names by numbers, as the blocks of a database have them.
use slot_codec::Name;
use std::alloc::{AllocError, Global};

/// Neighbours in the list of names are so many numbers apart: a prime, so that each number comes
/// once.
const STRIDE: u64 = 1_000_003;

/// A letter and eight digits: the name at place `n` of the `count` first numbers in a scrambled order.
fn scrambled(alloc: Global, letter: char, n: u64, count: u64) -> Result<String, AllocError> {
    let number = n.wrapping_mul(STRIDE) % count.max(1);
    format!(in alloc; "{letter}{number:08}")
}

/// The same as the name of an object, if it is one.
pub fn scrambled_name(
    alloc: Global,
    letter: char,
    n: u64,
    count: u64,
) -> Result<Option<Name>, AllocError> {
    let text = scrambled(alloc, letter, n, count)?;
    Ok(Name::new(text.as_str().as_bytes()))
}

/// A name for each number below `count`, in a scrambled order.
pub fn names_of(alloc: Global, count: u64) -> Result<Vec<String>, AllocError> {
    let mut names = Vec::new(alloc);
    for n in 0..count {
        names.push(scrambled(alloc, 'o', n, count)?)?;
    }
    Ok(names)
}
