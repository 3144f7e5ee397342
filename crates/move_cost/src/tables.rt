//! Three costs: by the bytes, the same for each object, and by the bytes with a start.
ghost use Rattle.move_cost.specs.{Costs.{linear, flat, seek}, Lawful.{linear_is, flat_is, seek_is}};

use crate::CostTable;

/// An object of `2^c` bytes costs `2^c`: each byte the same.
pub struct Linear;

/// Each object of `2^c` bytes costs 1, whatever its class: a byte of a greater one costs less.
pub struct Flat;

/// An object of `2^c` bytes costs `64 + 2^c`: to find it, and its bytes.
pub struct Seek;

impl<const C: usize> CostTable<C> for Linear {
    ghost cost_of = { λ _. linear };

    fn cost(&self, c: u8) -> u64 {
        1 << c
    }

    ghost is_cost = { λ _. linear_is C };
}

impl<const C: usize> CostTable<C> for Flat {
    ghost cost_of = { λ _. flat };

    fn cost(&self, c: u8) -> u64 {
        1
    }

    ghost is_cost = { λ _. flat_is C };
}

impl<const C: usize> CostTable<C> for Seek {
    ghost cost_of = { λ _. seek };

    fn cost(&self, c: u8) -> u64 {
        64 + (1 << c)
    }

    ghost is_cost = { λ _. seek_is C };
}
