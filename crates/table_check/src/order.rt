//! Ranks in the order of their records' places.
ghost use Rattle.std.specs.Prelude.{◌≡◌, ◌≤◌, IsPermutation, length, vec_capacity};
ghost use Rattle.extent_table.specs.Extents.{records_of};
ghost use Rattle.table_rules.specs.Tables.{is_below_wall};
ghost use Rattle.table_check.specs.{Orders.{IsByPlace, has_bytes, passing}, Placed.{placed, ranked}};
ghost use Rattle.std.specs.List.Sorted.{IsNonDecreasingBy};

use crate::frame::Frame;
use crate::spots::{count, spot_at};
use extent_table::Table;

/// Orders the records before a rank that have at least 1 byte by their places.
pub(crate) fn order_objects(table: &Table, end: u64, order: &mut Vec<u32>)
    requires within { end ≤ length (records_of table.now.now) }
    requires room { end ≤ vec_capacity order.old }
    ensures order { IsByPlace table.now (has_bytes table.now) end order.new.items }
    ensures capacity { vec_capacity order.new ≡ vec_capacity order.old }
{
    list_objects(table, end, order);
    sort_by_place(table, order);
}

/// Orders the suffix records below the wall by their places.
pub(crate) fn order_below_wall(table: &Table, frame: &Frame, order: &mut Vec<u32>)
    requires room { length (records_of table.now.now) ≤ vec_capacity order.old }
    ensures order { IsByPlace table.now
        (λ i. is_below_wall (placed table.now frame.now) (ranked table.now i))
        (length (records_of table.now.now)) order.new.items }
    ensures capacity { vec_capacity order.new ≡ vec_capacity order.old }
{
    list_below_wall(table, frame, order);
    sort_by_place(table, order);
}

/// Lists the records before a rank that have at least 1 byte.
fn list_objects(table: &Table, end: u64, order: &mut Vec<u32>)
    requires within { end ≤ length (records_of table.now.now) }
    requires room { end ≤ vec_capacity order.old }
    ensures listed { order.new.items ≡ passing (has_bytes table.now) end }
    ensures capacity { vec_capacity order.new ≡ vec_capacity order.old }
{
    let _few = count(table);
    order.clear();
    'ranks: for rank in 0..end {
        if spot_at(table, rank).size > 0 {
            order.push_reserved(rank as u32);
        }
    }
}

/// Lists the suffix records below the wall.
fn list_below_wall(table: &Table, frame: &Frame, order: &mut Vec<u32>)
    requires room { length (records_of table.now.now) ≤ vec_capacity order.old }
    ensures listed { order.new.items
        ≡ passing (λ i. is_below_wall (placed table.now frame.now) (ranked table.now i))
        (length (records_of table.now.now)) }
    ensures capacity { vec_capacity order.new ≡ vec_capacity order.old }
{
    order.clear();
    'ranks: for rank in 0..count(table) {
        if is_below_wall(table, frame, rank) {
            order.push_reserved(rank as u32);
        }
    }
}

/// Whether a record is of the suffix and begins below the wall.
fn is_below_wall(table: &Table, frame: &Frame, rank: u64) -> bool
    ensures { result ≡ is_below_wall (placed table.now frame.now) (ranked table.now rank) }
{
    frame.is_below_wall(spot_at(table, rank))
}

/// Orders ranks by the places of their records.
fn sort_by_place(table: &Table, order: &mut Vec<u32>)
    ensures same { IsPermutation order.old.items order.new.items }
    ensures rising { IsNonDecreasingBy (λ i. (ranked table.now i).place) order.new.items }
    ensures capacity { vec_capacity order.new ≡ vec_capacity order.old }
{
    order.sort_unstable_by_key(|rank| spot_at(table, u64::from(*rank)).place);
}
