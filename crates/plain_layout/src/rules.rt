//! The rules of every table, each at a place.
ghost use Rattle.std.specs.Prelude.{◌≡◌, ◌≤◌, ◌<◌, ◌⊎◌, ◌↔◌, ◌+◌, ◌^◌, ℕ, IsTrue, slice_index};
ghost use Rattle.plain_layout.specs.Plain.{placed};
ghost use Rattle.segment_layout.specs.Shapes.{buffer_of, taken_in};
ghost use Rattle.table_rules.specs.{Tables.{Apart, StandsInBuffer, table_boundary, nth}, Rules.{SizeFits, EmptyAtZero, EndsWithin, KindFits, NothingAbove, RowFits, LowerStands, ApartFromEarlier}};
ghost use Rattle.size_class.specs.Classes.{cell, width};

use crate::Table;
use slot_codec::Kind;

impl Table {
    /// A record's size is at most the greatest.
    pub fn size_fits(&self, at: usize) -> bool
        ensures { IsTrue result ↔ SizeFits (placed self.now) at }
    {
        self.size(at) <= self.size_max
    }

    /// A record of size 0 has place 0.
    pub fn empty_at_zero(&self, at: usize) -> bool
        ensures { IsTrue result ↔ EmptyAtZero (placed self.now) at }
    {
        self.size(at) != 0 || self.place(at) == 0
    }

    /// A record ends within the data part; behind the last record, the layout or the wall does.
    pub fn ends_within(&self, at: usize) -> bool
        requires divisor { 1 ≤ self.now.k }
        ensures { IsTrue result ↔ EndsWithin (placed self.now) at }
    {
        let end = if at < self.records.len() {
            self.end_of(at)
        } else {
            self.last_end()
        };
        end <= u128::from(self.data_len)
    }

    /// A settled table has boundary, wall and slack 0; a moving one has a boundary below its classes.
    pub fn kind_fits(&self) -> bool
        ensures { IsTrue result ↔ KindFits (placed self.now) self.now.header.kind }
    {
        match self.header.kind {
            Kind::Settled => {
                self.header.boundary == 0 && self.header.wall == 0 && self.header.slack == 0
            }
            Kind::Moving => self.header.boundary < self.classes,
        }
    }

    /// A class from the boundary on has no capacity, and no buffer has an entry of a greater class
    /// or, from the boundary on, of any.
    pub fn nothing_above(&self, c: u8) -> bool
        ensures { IsTrue result ↔ NothingAbove (placed self.now) c }
    {
        (c < self.table_boundary() || self.cap(c) == 0) && self.has_no_entry_above(c)
    }

    /// Whether a buffer has no entry of a greater class, nor from the boundary on of any.
    fn has_no_entry_above(&self, j: u8) -> bool
        ensures { IsTrue result ↔ ((d : ℕ) → d < width → (table_boundary (placed self.now) ≤ j) ⊎ (j < d)
            → cell self.now.header.used j d ≡ 0) }
    {
        'classes: for d in 0..32u8 {
            if (self.table_boundary() <= j || j < d) && self.entry(j, d) != 0 {
                return false;
            }
        }
        true
    }

    /// What is taken of a buffer is at most its capacity.
    pub fn row_fits(&self, j: u8) -> bool
        requires divisor { 1 ≤ self.now.k }
        ensures { IsTrue result ↔ RowFits (placed self.now) j }
    {
        self.taken(j) <= u128::from(self.buffer(j))
    }

    /// A record of a class below the boundary lies in the payload segment of its class, or in what
    /// is taken of a buffer of its class or a greater one, below the boundary.
    pub fn lower_stands(&self, at: usize) -> bool
        requires divisor { 1 ≤ self.now.k }
        ensures { IsTrue result ↔ LowerStands (placed self.now) at }
    {
        !self.is_lower(at) || self.lies_in_payload(self.class(at), at) || self.stands_in_buffer(at)
    }

    /// Whether a record lies in a buffer in which one of its class may stand.
    fn stands_in_buffer(&self, at: usize) -> bool
        requires divisor { 1 ≤ self.now.k }
        ensures { IsTrue result ↔ StandsInBuffer (placed self.now) (nth (placed self.now) at) }
    {
        'buffers: for j in 0..self.table_boundary() {
            if self.class(at) <= j && self.lies_in_buffer(j, at) {
                return true;
            }
        }
        false
    }

    /// A record shares no byte with an earlier one.
    pub fn apart_from_earlier(&self, at: usize) -> bool
        ensures { IsTrue result ↔ ApartFromEarlier (placed self.now) at }
    {
        'earlier: for h in 0..at {
            if !self.are_apart(h, at) {
                return false;
            }
        }
        true
    }

    /// Whether two records share no byte.
    fn are_apart(&self, h: usize, i: usize) -> bool
        ensures { IsTrue result ↔ Apart (nth (placed self.now) h) (nth (placed self.now) i) }
    {
        self.size(h) == 0
            || self.size(i) == 0
            || self.end_of(h) <= u128::from(self.place(i))
            || self.end_of(i) <= u128::from(self.place(h))
    }
}
