//! The book that a table gives.
ghost use Rattle.std.specs.Prelude.{◌≡◌, ◌≤◌, ◌<◌, ◌^◌, ◌&&◌, not};
ghost use Rattle.plain_layout.specs.Plain.{placed};
ghost use Rattle.segment_layout.specs.{Books.{volumes_of_sizes}, Shapes.{settled_caps}};
ghost use Rattle.table_rules.specs.Tables.{book_of, table_boundary, is_lower, lies_in_payload, nth, size_sum, sizes};
ghost use Rattle.size_class.specs.Classes.{class_of};

use crate::settle::used_from;
use crate::{Book, Table};

impl Table {
    /// The numbers of the book that the table gives: below the boundary those of the header, and
    /// from it on those of a layout of the records' sizes, with nothing in a buffer.
    pub fn book(&self) -> Book
        requires boundary { table_boundary (placed self.now) ≤ 32 }
        requires fits { size_sum self.now.records.items < 2 ^ 64 }
        ensures divisor { result.k ≡ self.now.k }
        ensures caps { result.caps ≡ (book_of (placed self.now)).caps }
        ensures used { result.used ≡ (book_of (placed self.now)).grid }
    {
        Book {
            k: self.k,
            caps: self.with_volumes(self.header.caps),
            used: used_from(self.header.used, self.table_boundary()),
        }
    }

    /// Whether the book that the table gives has a record's name among those in buffers: the record
    /// has a class below the boundary, and does not lie in the payload segment of its class.
    pub fn is_buffered(&self, at: usize) -> bool
        requires divisor { 1 ≤ self.now.k }
        ensures { let r = nth (placed self.now) at in
            result ≡ (is_lower (placed self.now) r
            && not (lies_in_payload (placed self.now) (class_of r.size) r)) }
    {
        self.is_lower(at) && !self.lies_in_payload(self.class(at), at)
    }

    /// Capacities, those from the boundary on for the records' sizes.
    fn with_volumes(&self, mut caps: [u64; 32]) -> [u64; 32]
        requires boundary { table_boundary (placed self.now) ≤ 32 }
        requires fits { size_sum self.now.records.items < 2 ^ 64 }
        ensures { result ≡ settled_caps (table_boundary (placed self.now)) caps
            (volumes_of_sizes (sizes self.now.records.items)) }
    {
        let boundary = self.table_boundary();
        'classes: for c in boundary..32 {
            let live = self.live(c);
            caps[usize::from(c)] = live as u64;
        }
        caps
    }
}
