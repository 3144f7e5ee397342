//! Records that share bytes.
ghost use Rattle.std.specs.Prelude.{◌≡◌, ◌≤◌, ◌<◌, ◌+◌, ◌↔◌, ℕ, IsTrue, IsNone, IfSome, length, slice_index, vec_capacity};
ghost use Rattle.extent_table.specs.{Extents.{records_of}, Places.{by_place}};
ghost use Rattle.table_rules.specs.{Tables.{end_of_record}, Rules.{AllHold, ApartFromEarlier, apart_from_earlier}, Breaks.{BreaksAt}};
ghost use Rattle.table_check.specs.{Nexts.{EndBeforeNext}, Placed.{placed, ranked}};

use crate::frame::Frame;
use crate::order::order_objects;
use crate::spots::{count, spot_at, spot_by_place};
use extent_table::Table;

/// The least record that shares a byte with an earlier one. The table's own order of places shows that
/// there is none. Else it is the last of the shortest front of the records of which two share a byte,
/// and the front's length is found by halves.
pub(crate) fn first_overlap(table: &Table, frame: &Frame, order: &mut Vec<u32>) -> Option<u64>
    requires room { length (records_of table.now.now) ≤ vec_capacity order.old }
    ensures none { IsNone result → AllHold apart_from_earlier (placed table.now frame.now) }
    ensures first { IfSome result (λ at. BreaksAt apart_from_earlier (placed table.now frame.now) at) }
    ensures capacity { vec_capacity order.new ≡ vec_capacity order.old }
{
    let mut high = count(table);
    if end_before_next(table) {
        return None;
    }
    if are_apart(table, frame, high, order) {
        return None;
    }
    let mut low = 0;
    'halves: while low + 1 < high {
        let middle = low + (high - low) / 2;
        if are_apart(table, frame, middle, order) {
            low = middle;
        } else {
            high = middle;
        }
    }
    Some(low)
}

/// Whether each object of at least 1 byte ends where the next one by place begins, or before.
fn end_before_next(table: &Table) -> bool
    ensures { IsTrue result → EndBeforeNext table.now.now (length (by_place table.now.now)) }
{
    let mut end = 0;
    'ranks: for rank in 0..table.place_count() {
        let s = spot_by_place(table, rank);
        if s.place < end {
            return false;
        }
        end = s.place + s.size;
    }
    true
}

/// Whether no two records before a rank share a byte.
fn are_apart(table: &Table, frame: &Frame, end: u64, order: &mut Vec<u32>) -> bool
    requires within { end ≤ length (records_of table.now.now) }
    requires room { end ≤ vec_capacity order.old }
    ensures apart { IsTrue result
        ↔ ((i : ℕ) → i < end → ApartFromEarlier (placed table.now frame.now) i) }
    ensures capacity { vec_capacity order.new ≡ vec_capacity order.old }
{
    order_objects(table, end, order);
    are_neighbours_apart(table, order)
}

/// Whether each record of an order ends where the next one begins, or before.
fn are_neighbours_apart(table: &Table, order: &[u32]) -> bool
    ensures { IsTrue result ↔ ((p : ℕ) → p + 1 < length order.now
        → end_of_record (ranked table.now (slice_index order.now p))
        ≤ (ranked table.now (slice_index order.now (p + 1))).place) }
{
    let mut end = 0;
    'records: for at in 0..order.len() {
        let s = spot_at(table, u64::from(order[at]));
        if s.place < end {
            return false;
        }
        end = s.place + s.size;
    }
    true
}
