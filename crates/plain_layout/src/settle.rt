//! Laying the classes from a boundary on out anew.
ghost use Rattle.std.specs.Prelude.{◌≡◌, ◌≤◌, ◌<◌, ◌^◌, ◌↔◌, ℕ, IsTrue, slice_index, sum};
ghost use Rattle.segment_layout.specs.{Books.{volumes_of_sizes}, Shapes.{boundary_of, is_boundary, settled_caps, settled_grid}};

use crate::{Book, class_of};

impl Book {
    /// The greatest boundary that is at most `i`: no buffer from it on has an entry of a class below.
    pub fn boundary(&self, i: u8) -> u8
        ensures same { result ≡ boundary_of self.now.used i }
        ensures low { result ≤ i }
    {
        let mut b = i;
        'boundaries: while b > 0 && !self.is_boundary(b) {
            b -= 1;
        }
        b
    }

    /// Whether no buffer from `b` on has an entry of a class below `b`.
    pub fn is_boundary(&self, b: u8) -> bool
        ensures { result ≡ is_boundary self.now.used b }
    {
        'rows: for (j, row) in self.used.iter().enumerate() {
            if usize::from(b) <= j && !has_none_below(row, b) {
                return false;
            }
        }
        true
    }

    /// The numbers once the classes from `b` on are laid out anew for objects of these sizes.
    pub fn settled(&self, b: u8, after: &[u64]) -> Book
        requires class { b < 32 }
        requires fits { sum after.now < 2 ^ 64 }
        ensures divisor { result.k ≡ self.now.k }
        ensures caps { result.caps ≡ settled_caps b self.now.caps (volumes_of_sizes after.now) }
        ensures used { result.used ≡ settled_grid b self.now.used }
    {
        Book {
            k: self.k,
            caps: caps_from(self.caps, b, after),
            used: used_from(self.used, b),
        }
    }
}

/// Whether a row has no entry of a class below `b`.
fn has_none_below(row: &[u64], b: u8) -> bool
    ensures { IsTrue result ↔ ((c : ℕ) → c < b → slice_index row.now c ≡ 0) }
{
    'classes: for (c, taken) in row.iter().enumerate() {
        if c < usize::from(b) && *taken != 0 {
            return false;
        }
    }
    true
}

/// The capacities, those from class `b` on for objects of these sizes.
fn caps_from(mut caps: [u64; 32], b: u8, after: &[u64]) -> [u64; 32]
    requires class { b < 32 }
    requires fits { sum after.now < 2 ^ 64 }
    ensures { result ≡ settled_caps b caps (volumes_of_sizes after.now) }
{
    'classes: for c in b..32 {
        caps[usize::from(c)] = volume_of(after, c) as u64;
    }
    caps
}

/// What entries have taken, with nothing in the buffers from `b` on.
pub(crate) fn used_from(mut used: [[u64; 32]; 32], b: u8) -> [[u64; 32]; 32]
    requires class { b ≤ 32 }
    ensures { result ≡ settled_grid b used }
{
    'rows: for j in b..32 {
        used[usize::from(j)] = [0; 32];
    }
    used
}

/// How many bytes the sizes of a class have together.
pub fn volume_of(sizes: &[u64], c: u8) -> u128
    ensures volume { result ≡ slice_index (volumes_of_sizes sizes.now) c }
    ensures small { result ≤ sum sizes.now }
{
    let mut bytes = 0;
    'sizes: for size in sizes {
        if 0 < *size && class_of(*size) == c {
            bytes += u128::from(*size);
        }
    }
    bytes
}
