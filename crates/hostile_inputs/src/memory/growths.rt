//! Growths of memory that are made only to be counted.
use std::alloc::{AllocError, Global};

/// Keeps so many pieces of memory: a growth for each, and one for their list. It is an error where one of
/// them was refused.
pub fn grown(alloc: Global, count: usize) -> Result<Vec<Vec<u8>>, AllocError> {
    let mut kept = Vec::with_capacity(alloc, count.saturating_add(1))?;
    for _ in 0..count {
        kept.push(Vec::with_capacity(alloc, 1)?)?;
    }
    Ok(kept)
}
