//! The rules of live and dead bytes, each at a class.
ghost use Rattle.std.specs.Prelude.{◌≡◌, ◌≤◌, ◌<◌, ◌↔◌, ◌+◌, ◌^◌, ℕ, IsTrue, slice_index};
ghost use Rattle.plain_layout.specs.Plain.{placed};
ghost use Rattle.segment_layout.specs.Shapes.{buffer_of, taken_in};
ghost use Rattle.table_rules.specs.{Tables.{live_in_buffer}, Rules.{Balances, BuffersFull}};
ghost use Rattle.size_class.specs.Classes.{cell, width};

use crate::Table;

impl Table {
    /// In each buffer a class has at most as many live bytes as its entries have taken, and its
    /// payload segment has beyond its live bytes at most the dead ones of all buffers.
    pub fn balances(&self, c: u8) -> bool
        requires divisor { 1 ≤ self.now.k }
        ensures { IsTrue result ↔ Balances (placed self.now) c }
    {
        self.was_entered(c) && u128::from(self.cap(c)) <= self.live_in_payload(c) + self.dead(c)
    }

    /// Whether the entries of a class have taken its live bytes in each buffer.
    fn was_entered(&self, c: u8) -> bool
        requires divisor { 1 ≤ self.now.k }
        ensures { IsTrue result ↔ ((j : ℕ) → j < width
            → live_in_buffer (placed self.now) j c ≤ cell self.now.header.used j c) }
    {
        'buffers: for j in 0..32u8 {
            if u128::from(self.entry(j, c)) < self.live_in_buffer(j, c) {
                return false;
            }
        }
        true
    }

    /// Where a class has an entry in a buffer, it has taken at least the class's least size, and
    /// each buffer that it passed over is full for the class.
    pub fn buffers_full(&self, c: u8) -> bool
        requires divisor { 1 ≤ self.now.k }
        ensures { IsTrue result ↔ BuffersFull (placed self.now) c }
    {
        self.has_least_entries(c) && self.has_full_buffers(c)
    }

    /// Whether each entry of a class has taken at least the class's least size.
    fn has_least_entries(&self, c: u8) -> bool
        ensures { IsTrue result ↔ ((j : ℕ) → j < width → 0 < cell self.now.header.used j c
            → 2 ^ c ≤ cell self.now.header.used j c) }
    {
        'buffers: for j in 0..32u8 {
            let taken = self.entry(j, c);
            if 0 < taken && taken < 1u64 << c {
                return false;
            }
        }
        true
    }

    /// Whether each buffer that an entry of a class passed over is full for the class.
    fn has_full_buffers(&self, c: u8) -> bool
        requires divisor { 1 ≤ self.now.k }
        ensures { IsTrue result ↔ ((j : ℕ) → j < width → 0 < cell self.now.header.used j c → (i : ℕ) → c ≤ i
            → i < j → buffer_of self.now.k (slice_index self.now.header.caps i)
            < taken_in self.now.header.used i + 2 ^ (c + 1)) }
    {
        'buffers: for j in 0..32u8 {
            if 0 < self.entry(j, c) && !self.are_full(c, j) {
                return false;
            }
        }
        true
    }

    /// Whether each buffer from a class on and below `j` is full for the class.
    fn are_full(&self, c: u8, j: u8) -> bool
        requires class { c < 32 }
        requires divisor { 1 ≤ self.now.k }
        ensures { IsTrue result ↔ ((i : ℕ) → c ≤ i → i < j
            → buffer_of self.now.k (slice_index self.now.header.caps i)
            < taken_in self.now.header.used i + 2 ^ (c + 1)) }
    {
        'between: for i in 0..j {
            if c <= i && self.taken(i) + u128::from(2u64 << c) <= u128::from(self.buffer(i)) {
                return false;
            }
        }
        true
    }
}
