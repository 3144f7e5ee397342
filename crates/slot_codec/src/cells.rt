//! The numbers of a header, counted through.
ghost use Rattle.std.specs.Prelude.{◌≡◌, ◌<◌};
ghost use Rattle.slot_codec.specs.Cells.{cell_of, header_cells, with_cell};

use crate::Header;

/// How many cells a header has: 32 capacities, and 32 numbers for each of 32 buffers.
pub const HEADER_CELLS: u64 = 1056;

impl Header {
    /// The value of a cell: 0 to 31 are the capacities, and `32 + 32 * j + c` is what entries of class c have
    /// taken of buffer j.
    pub fn cell(&self, number: u64) -> u64
        requires { number < header_cells }
        ensures { result ≡ cell_of self.now number }
    {
        let at = number as usize;
        if at < 32 {
            self.caps[at]
        } else {
            self.used[at / 32 - 1][at % 32]
        }
    }

    /// Gives a cell a value.
    pub fn set_cell(&mut self, number: u64, value: u64)
        requires { number < header_cells }
        ensures { self.new ≡ with_cell self.old number value }
    {
        let at = number as usize;
        if at < 32 {
            self.caps[at] = value;
        } else {
            self.used[at / 32 - 1][at % 32] = value;
        }
    }
}
