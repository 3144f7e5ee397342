//! A number for each class.
ghost use Rattle.std.specs.Prelude.{◌≡◌, ◌<◌, ◌≤◌, ◌+◌, ◌-◌, ◌^◌, min, slice_index, slice_set, sum};
ghost use Rattle.size_class.specs.Classes.{IsRow, zero_row};

/// A number for each class below `C`. It keeps 32 cells, whatever `C` is, and those from `C` on are
/// 0. Contracts read the cells by `cells_of`.
#[derive(Clone, Copy)]
pub struct Row<const C: usize> {
    cells: [u64; 32],
    ghost shape: { IsRow C cells },
}

impl<const C: usize> Row<C> {
    ghost use Rattle.size_class.specs.Rows.{cells_of};

    /// The row of zeros.
    pub fn zero() -> Self
        ensures { cells_of result ≡ zero_row }
    {
        Row { cells: [0; 32] }
    }

    /// The row of 32 numbers, of which those from `C` on are 0.
    pub fn of(cells: [u64; 32]) -> Self
        requires shape { IsRow C cells }
        ensures { cells_of result ≡ cells }
    {
        Row { cells }
    }

    /// All its 32 numbers.
    pub fn cells(&self) -> [u64; 32]
        ensures { result ≡ cells_of self.now }
    {
        self.cells
    }

    /// The number of class `c`.
    pub fn get(&self, c: u8) -> u64
        requires class { c < C }
        requires fits { C ≤ 32 }
        ensures { result ≡ slice_index (cells_of self.now) c }
    {
        self.cells[c as usize]
    }

    /// Makes `v` the number of class `c`.
    pub fn set(&mut self, c: u8, v: u64)
        requires class { c < C }
        requires fits { C ≤ 32 }
        ensures { cells_of self.new ≡ slice_set (cells_of self.old) c v }
    {
        self.cells[c as usize] = v;
    }

    /// All its numbers together.
    pub fn sum(&self) -> u64
        requires { sum (cells_of self.now) < 2 ^ 64 }
        ensures { result ≡ sum (cells_of self.now) }
    {
        self.cells.iter().sum()
    }

    /// Adds `w` to the number of class `c`, which stays at the last value of `u64` rather than pass
    /// it.
    pub fn add(&mut self, c: u8, w: u64)
        requires class { c < C }
        requires fits { C ≤ 32 }
        ensures { cells_of self.new ≡ slice_set (cells_of self.old) c
            (min (slice_index (cells_of self.old) c + w) (2 ^ 64 - 1)) }
    {
        let old = self.cells[c as usize];
        self.cells[c as usize] = old.saturating_add(w);
    }
}
