//! A number for each pair of classes.
ghost use Rattle.std.specs.Prelude.{◌≡◌, ◌<◌, ◌≤◌, ◌^◌, slice_set, sum};
ghost use Rattle.size_class.specs.Classes.{IsGrid, zero_grid, row, cell};

/// A number for each pair of classes below `C`: a row for each class, and in it a number for each.
/// It keeps 32 rows of 32, whatever `C` is, and the numbers from `C` on are 0. Contracts read the
/// rows by `rows_of`.
#[derive(Clone, Copy)]
pub struct Grid<const C: usize> {
    cells: [[u64; 32]; 32],
    ghost shape: { IsGrid C cells },
}

impl<const C: usize> Grid<C> {
    ghost use Rattle.size_class.specs.Rows.{rows_of};

    /// The grid of zeros.
    pub fn zero() -> Self
        ensures { rows_of result ≡ zero_grid }
    {
        Grid {
            cells: [[0; 32]; 32],
        }
    }

    /// The grid of 32 rows of 32 numbers, of which those from `C` on are 0.
    pub fn of(cells: [[u64; 32]; 32]) -> Self
        requires shape { IsGrid C cells }
        ensures { rows_of result ≡ cells }
    {
        Grid { cells }
    }

    /// All its 32 rows of 32 numbers.
    pub fn cells(&self) -> [[u64; 32]; 32]
        ensures { result ≡ rows_of self.now }
    {
        self.cells
    }

    /// The number of class `c` in row `j`.
    pub fn get(&self, j: u8, c: u8) -> u64
        requires in_row { j < C }
        requires class { c < C }
        requires fits { C ≤ 32 }
        ensures { result ≡ cell (rows_of self.now) j c }
    {
        self.cells[j as usize][c as usize]
    }

    /// Makes `v` the number of class `c` in row `j`.
    pub fn set(&mut self, j: u8, c: u8, v: u64)
        requires in_row { j < C }
        requires class { c < C }
        requires fits { C ≤ 32 }
        ensures { rows_of self.new ≡ slice_set (rows_of self.old) j
            (slice_set (row (rows_of self.old) j) c v) }
    {
        self.cells[j as usize][c as usize] = v;
    }

    /// The numbers of row `j` together.
    pub fn row_sum(&self, j: u8) -> u64
        requires in_row { j < C }
        requires fits { C ≤ 32 }
        requires small { sum (row (rows_of self.now) j) < 2 ^ 64 }
        ensures { result ≡ sum (row (rows_of self.now) j) }
    {
        self.cells[j as usize].iter().sum()
    }
}
