//! The numbers that a table is checked against.
ghost use Rattle.std.specs.Prelude.{◌≡◌, ◌≤◌, ◌<◌, ◌+◌, ◌*◌, ◌^◌, ◌&&◌, ℕ, IsTrue, length, nat_le, nat_lt, slice_index, sum};
ghost use Rattle.size_class.specs.Classes.{cell, class_of, row, width};
ghost use Rattle.slot_codec.specs.Reading.{all_in_range};
ghost use Rattle.segment_layout.specs.Shapes.{buffer_of, buffer_start, start_of, taken_in};
ghost use Rattle.table_rules.specs.Tables.{boundary_of_kind};
ghost use Rattle.table_check.specs.Frames.{AreSmall, IsFrame};

use crate::spots::class_at;
use extent_table::Spot;
use slot_codec::{Header, Kind};

/// A header and the limits of its table, with where each segment begins and how many bytes of each
/// buffer are taken. All are in bytes, but for the classes and the divisor.
#[derive(Clone, Copy)]
pub(crate) struct Frame {
    /// How many classes objects may have.
    pub classes: u8,
    /// The size of the largest object that there may be.
    pub size_max: u64,
    /// The divisor of the buffers.
    pub k: u64,
    /// The length of the data part.
    pub data_len: u64,
    pub header: Header,
    pub starts: [u64; 33],
    pub taken: [u64; 32],
    pub ghost shape: { IsFrame classes k header starts taken },
}

/// The numbers for a header that is in range.
pub(crate) fn framed(classes: u8, size_max: u64, k: u64, data_len: u64, header: Header) -> Frame
    requires few { classes ≤ 32 }
    requires low { 2 ≤ k }
    requires high { k ≤ 64 }
    requires ranges { IsTrue (all_in_range header) }
    ensures classes { result.classes ≡ classes }
    ensures most { result.size_max ≡ size_max }
    ensures divisor { result.k ≡ k }
    ensures long { result.data_len ≡ data_len }
    ensures header { result.header ≡ header }
{
    let starts = starts_of(k, &header.caps);
    let taken = taken_of(&header.used);
    Frame {
        classes,
        size_max,
        k,
        data_len,
        header,
        starts,
        taken,
    }
}

/// Where the payload segment of each class begins, and at 32 where the last buffer ends.
fn starts_of(k: u64, caps: &[u64; 32]) -> [u64; 33]
    requires divisor { 1 ≤ k }
    requires small { AreSmall caps.now }
    ensures { (c : ℕ) → c ≤ width → slice_index result c ≡ start_of k caps.now c }
{
    let mut starts = [0; 33];
    'classes: for c in 0..32usize {
        starts[c + 1] = starts[c] + (caps[c] + caps[c] / k);
    }
    starts
}

/// How many bytes of each buffer are taken.
fn taken_of(used: &[[u64; 32]; 32]) -> [u64; 32]
    requires small { (j : ℕ) → AreSmall (row used.now j) }
    ensures sums { (j : ℕ) → j < width → slice_index result j ≡ taken_in used.now j }
    ensures rows { (j : ℕ) → j < width → length (row used.now j) ≡ width }
{
    let mut taken = [0; 32];
    'buffers: for j in 0..32usize {
        taken[j] = row_sum(&used[j]);
    }
    taken
}

/// The sum of a row of small numbers.
fn row_sum(cells: &[u64; 32]) -> u64
    requires small { AreSmall cells.now }
    ensures same { result ≡ sum cells.now }
    ensures long { length cells.now ≡ width }
{
    sum_of(cells)
}

/// The sum of a row.
fn sum_of(cells: &[u64; 32]) -> u64
    requires fits { sum cells.now < 2 ^ 64 }
    ensures { result ≡ sum cells.now }
{
    cells.iter().sum()
}

impl Frame {
    /// The class from which on objects are of the suffix: of a settled table, how many there are.
    pub fn boundary(&self) -> u8
        ensures { result ≡ boundary_of_kind self.now.classes self.now.header.kind self.now.header.boundary }
    {
        match self.header.kind {
            Kind::Settled => self.classes,
            Kind::Moving => self.header.boundary,
        }
    }

    /// The capacity of a payload segment.
    pub fn cap(&self, c: u8) -> u64
        requires class { c < 32 }
        ensures same { result ≡ slice_index self.now.header.caps c }
        ensures small { result < 2 ^ 48 }
    {
        self.header.caps[c as usize]
    }

    /// The capacity of a buffer.
    pub fn buffer(&self, c: u8) -> u64
        requires class { c < 32 }
        ensures same { result ≡ buffer_of self.now.k (slice_index self.now.header.caps c) }
        ensures small { result < 2 ^ 48 }
    {
        self.cap(c) / self.k
    }

    /// How many bytes of buffer `j` the entries of class `c` have taken.
    pub fn entry(&self, j: u8, c: u8) -> u64
        requires in_row { j < 32 }
        requires class { c < 32 }
        ensures same { result ≡ cell self.now.header.used j c }
        ensures small { result < 2 ^ 48 }
    {
        self.header.used[j as usize][c as usize]
    }

    /// How many bytes of a buffer are taken.
    pub fn taken(&self, j: u8) -> u64
        requires class { j < 32 }
        ensures same { result ≡ taken_in self.now.header.used j }
        ensures small { result < 2 ^ 53 }
    {
        self.taken[j as usize]
    }

    /// Where a payload segment begins; at 32, where the last buffer ends.
    pub fn start(&self, c: u8) -> u64
        requires class { c ≤ 32 }
        ensures same { result ≡ start_of self.now.k self.now.header.caps c }
        ensures small { result ≤ 2 ^ 54 }
    {
        self.starts[c as usize]
    }

    /// Where a buffer begins.
    pub fn buffer_start(&self, c: u8) -> u64
        requires class { c < 32 }
        ensures same { result ≡ buffer_start self.now.k self.now.header.caps c }
        ensures small { result ≤ 2 ^ 55 }
    {
        self.start(c) + self.cap(c)
    }

    /// Whether an object lies in the payload segment of a class.
    pub fn lies_in_payload(&self, c: u8, s: Spot) -> bool
        requires class { c < 32 }
        requires low { s.place < 2 ^ 48 }
        requires small { s.size < 2 ^ 48 }
        ensures { result ≡ (nat_le (start_of self.now.k self.now.header.caps c) s.place
            && nat_le (s.place + s.size) (buffer_start self.now.k self.now.header.caps c)) }
    {
        self.start(c) <= s.place && s.place + s.size <= self.buffer_start(c)
    }

    /// Whether an object lies in what is taken of a buffer.
    pub fn lies_in_buffer(&self, j: u8, s: Spot) -> bool
        requires class { j < 32 }
        requires low { s.place < 2 ^ 48 }
        requires small { s.size < 2 ^ 48 }
        ensures { result ≡ (nat_le (buffer_start self.now.k self.now.header.caps j) s.place
            && nat_le (s.place + s.size)
            (buffer_start self.now.k self.now.header.caps j + taken_in self.now.header.used j)) }
    {
        self.buffer_start(j) <= s.place && s.place + s.size <= self.buffer_start(j) + self.taken(j)
    }

    /// Whether an object of a size is of a class below the boundary.
    pub fn is_lower(&self, size: u64) -> bool
        ensures { result ≡ (nat_lt 0 size && nat_lt (class_of size)
            (boundary_of_kind self.now.classes self.now.header.kind self.now.header.boundary)) }
    {
        0 < size && class_at(size) < self.boundary()
    }

    /// Whether an object of a size is of a class from the boundary on.
    pub fn is_suffix(&self, size: u64) -> bool
        ensures { result ≡ (nat_lt 0 size && nat_le
            (boundary_of_kind self.now.classes self.now.header.kind self.now.header.boundary)
            (class_of size)) }
    {
        0 < size && self.boundary() <= class_at(size)
    }

    /// Whether an object is of the suffix and begins below the wall.
    pub fn is_below_wall(&self, s: Spot) -> bool
        ensures { result ≡ ((nat_lt 0 s.size && nat_le
            (boundary_of_kind self.now.classes self.now.header.kind self.now.header.boundary)
            (class_of s.size)) && nat_lt s.place self.now.header.wall) }
    {
        self.is_suffix(s.size) && s.place < self.header.wall
    }
}
