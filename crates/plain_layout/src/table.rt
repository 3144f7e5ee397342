//! A table, and the numbers that its rules speak of.
ghost use Rattle.std.specs.Prelude.{◌≡◌, ◌≤◌, ◌<◌, ◌+◌, ◌*◌, ◌^◌, sum, slice_index, slice_index_or, length};
ghost use Rattle.plain_layout.specs.Plain.{placed};
ghost use Rattle.segment_layout.specs.Shapes.{buffer_of, buffer_start, start_of, taken_in};
ghost use Rattle.table_rules.specs.Tables.{table_boundary, end_of_record, is_lower, is_of, is_suffix, last_end, lies_in_buffer, lies_in_payload, lies_within, nth};
ghost use Rattle.size_class.specs.Classes.{cell, class_of};

use crate::class_of;
use slot_codec::{Header, Kind, Record};

/// A table of records under a header, with what its rules are tried against. All numbers are in
/// bytes, and places count from the start of the data part.
#[derive(Drop)]
pub struct Table {
    /// How many classes objects may have.
    pub classes: u8,
    /// The size of the largest object that there may be.
    pub size_max: u64,
    /// The divisor of the buffers, at least 1.
    pub k: u64,
    /// The length of the data part.
    pub data_len: u64,
    pub header: Header,
    pub records: Vec<Record>,
}

impl Table {
    /// The place of a record, or 0 where there is none.
    pub fn place(&self, at: usize) -> u64
        ensures { result ≡ (nth (placed self.now) at).place }
    {
        match self.records.get(at) {
            Some(record) => record.place,
            None => 0,
        }
    }

    /// The size of a record, or 0 where there is none.
    pub fn size(&self, at: usize) -> u64
        ensures { result ≡ (nth (placed self.now) at).size }
    {
        match self.records.get(at) {
            Some(record) => record.size,
            None => 0,
        }
    }

    /// Where a record ends.
    pub fn end_of(&self, at: usize) -> u128
        ensures place { result ≡ end_of_record (nth (placed self.now) at) }
        ensures small { result < 2 ^ 65 }
    {
        u128::from(self.place(at)) + u128::from(self.size(at))
    }

    /// The class of a record.
    pub fn class(&self, at: usize) -> u8
        ensures same { result ≡ class_of (nth (placed self.now) at).size }
        ensures small { result < 32 }
    {
        class_of(self.size(at))
    }

    /// The payload capacity of a class, or 0 from class 32 on.
    pub fn cap(&self, c: u8) -> u64
        ensures { result ≡ slice_index self.now.header.caps c }
    {
        match self.header.caps.get(usize::from(c)) {
            Some(cap) => *cap,
            None => 0,
        }
    }

    /// What the entries of class `c` have taken of buffer `j`, or 0 from class 32 on.
    pub fn entry(&self, j: u8, c: u8) -> u64
        ensures same { result ≡ cell self.now.header.used j c }
        ensures beyond { 32 ≤ c → result ≡ 0 }
    {
        match self.header.used.get(usize::from(j)) {
            Some(row) => match row.get(usize::from(c)) {
                Some(taken) => *taken,
                None => 0,
            },
            None => 0,
        }
    }

    /// The capacity of a buffer.
    pub fn buffer(&self, j: u8) -> u64
        requires divisor { 1 ≤ self.now.k }
        ensures { result ≡ buffer_of self.now.k (slice_index self.now.header.caps j) }
    {
        self.cap(j) / self.k
    }

    /// Where the payload segment of a class begins.
    #[tactic(auto, using(segment_layout::proofs::StepLaws::start_more))]
    pub fn start(&self, c: u8) -> u128
        requires divisor { 1 ≤ self.now.k }
        ensures place { result ≡ start_of self.now.k self.now.header.caps c }
        ensures small { result ≤ c * 2 ^ 65 }
    {
        let mut start = 0;
        'classes: for d in 0..c {
            start += u128::from(self.cap(d)) + u128::from(self.buffer(d));
        }
        start
    }

    /// Where the buffer of a class begins.
    pub fn buffer_start(&self, c: u8) -> u128
        requires divisor { 1 ≤ self.now.k }
        ensures place { result ≡ buffer_start self.now.k self.now.header.caps c }
        ensures small { result < 2 ^ 74 }
    {
        self.start(c) + u128::from(self.cap(c))
    }

    /// How many bytes of a buffer are taken.
    pub fn taken(&self, j: u8) -> u128
        ensures sum { result ≡ taken_in self.now.header.used j }
        ensures small { result < 2 ^ 127 }
    {
        match self.header.used.get(usize::from(j)) {
            Some(row) => sum_of(row),
            None => 0,
        }
    }

    /// The boundary of a moving table. A settled one has its boundary behind the last class.
    pub fn table_boundary(&self) -> u8
        ensures { result ≡ table_boundary (placed self.now) }
    {
        match self.header.kind {
            Kind::Settled => self.classes,
            Kind::Moving => self.header.boundary,
        }
    }

    /// Where a settled table's layout of the classes in use ends, or a moving table's wall.
    pub fn last_end(&self) -> u128
        requires divisor { 1 ≤ self.now.k }
        ensures { result ≡ last_end (placed self.now) self.now.header.kind }
    {
        match self.header.kind {
            Kind::Settled => self.start(self.classes),
            Kind::Moving => u128::from(self.header.wall),
        }
    }

    /// Whether a record has a class, and this one.
    pub fn is_of(&self, c: u8, at: usize) -> bool
        ensures { result ≡ is_of c (nth (placed self.now) at) }
    {
        0 < self.size(at) && self.class(at) == c
    }

    /// Whether a record has a class below the boundary.
    pub fn is_lower(&self, at: usize) -> bool
        ensures { result ≡ is_lower (placed self.now) (nth (placed self.now) at) }
    {
        0 < self.size(at) && self.class(at) < self.table_boundary()
    }

    /// Whether a record has a class from the boundary on.
    pub fn is_suffix(&self, at: usize) -> bool
        ensures { result ≡ is_suffix (placed self.now) (nth (placed self.now) at) }
    {
        0 < self.size(at) && self.table_boundary() <= self.class(at)
    }

    /// Whether a record lies in the payload segment of a class.
    pub fn lies_in_payload(&self, c: u8, at: usize) -> bool
        requires divisor { 1 ≤ self.now.k }
        ensures { result ≡ lies_in_payload (placed self.now) c (nth (placed self.now) at) }
    {
        self.start(c) <= u128::from(self.place(at)) && self.end_of(at) <= self.buffer_start(c)
    }

    /// Whether a record lies in what is taken of a buffer.
    pub fn lies_in_buffer(&self, j: u8, at: usize) -> bool
        requires divisor { 1 ≤ self.now.k }
        ensures { result ≡ lies_in_buffer (placed self.now) j (nth (placed self.now) at) }
    {
        self.buffer_start(j) <= u128::from(self.place(at))
            && self.end_of(at) <= self.buffer_start(j) + self.taken(j)
    }
}

/// The sum of a row.
pub(crate) fn sum_of(row: &[u64]) -> u128
    ensures sum { result ≡ sum row.now }
    ensures small { result < 2 ^ 127 }
{
    let mut all = 0;
    'cells: for taken in row {
        all += u128::from(*taken);
    }
    all
}
