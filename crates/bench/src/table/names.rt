//! Names that are set and removed.
ghost use Rattle.std.specs.Prelude.{◌<◌, ◌^◌};

use crate::numbered::scrambled_name;
use extent_table::{Spot, Table};
use slot_codec::Name;
use std::alloc::{AllocError, Global};

/// A name for each number below `count`, in a scrambled order.
pub fn names_of(alloc: Global, letter: char, count: u64) -> Result<Vec<Name>, AllocError> {
    let mut names = Vec::new(alloc);
    for n in 0..count {
        if let Some(name) = scrambled_name(alloc, letter, n, count)? {
            names.push(name)?;
        }
    }
    Ok(names)
}

/// A spot for each number.
pub fn spot_of(n: u64) -> Spot
    ensures place { result.place < 2 ^ 48 }
    ensures size { result.size < 2 ^ 48 }
{
    Spot {
        place: n % 1_048_576 * 4096,
        size: 4096 + n % 256,
    }
}

/// Sets names while there is room for another.
pub fn fill(table: &mut Table, names: &[Name]) {
    for n in 0..names.len() {
        if table.room() {
            table.set(&names[n], spot_of(n as u64), [0; 32]);
        }
    }
}

/// Removes names.
pub fn clear(table: &mut Table, names: &[Name]) {
    for name in names {
        table.remove(name);
    }
}
