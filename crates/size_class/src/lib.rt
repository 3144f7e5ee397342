//! Size classes by powers of two, and tables over them.
#![tactic(auto)]

ghost use Rattle.std.specs.Prelude.{◌≡◌, ◌≤◌, ◌<◌, ◌*◌, ◌^◌};
ghost use Rattle.size_class.specs.Classes.{class_of, lg_up, IsClass};

mod grid;
mod row;

pub use grid::Grid;
pub use row::Row;

/// How many classes there are: objects have at most 2^26 bytes, and so a class from 0 to 26.
pub const CLASSES: usize = 27;

/// The size of the largest object, in bytes.
pub const SIZE_MAX: u64 = 67_108_864;

/// The class of an object of `w` bytes: the class `c` has the sizes from 2^c up to 2^(c + 1), this
/// one left out.
pub fn class_of(w: u64) -> u8
    requires low { 1 ≤ w }
    requires high { w ≤ 2 ^ 31 }
    ensures bounds { IsClass result w }
    ensures same { result ≡ class_of w }
{
    w.ilog2() as u8
}

/// The least `n` with `k` at most 2^n.
pub fn lg_up(k: u64) -> u64
    requires low { 2 ≤ k }
    requires high { k ≤ 64 }
    ensures same { result ≡ lg_up k }
    ensures reaches { k ≤ 2 ^ result }
    ensures least { 2 ^ result < 2 * k }
{
    u64::from((k - 1).ilog2()) + 1
}
