//! Whether the records of a moving table stand where a flush can go on with them.
ghost use Rattle.std.specs.Prelude.{◌≡◌, ◌≤◌, ◌<◌, ◌+◌, ◌^◌, ◌⊎◌, ◌↔◌, ℕ, IsTrue, IsNone, IfSome, length, vec_capacity};
ghost use Rattle.slot_codec.specs.declared.codec.Kind.TheVariants.{Moving};
ghost use Rattle.extent_table.specs.Extents.{records_of};
ghost use Rattle.table_rules.specs.{Tables.{is_below_wall, table_boundary}, Rules.{AllHold, apart_from_earlier, places_to_resume}, Breaks.{BreaksAt}};
ghost use Rattle.table_check.specs.{Firsts.{IsLeast}, Orders.{IsByPlace}, Placed.{placed, ranked}, Suffixes.{HasWideGap, IsInOrder, StandsBesideWall}};

use crate::frame::Frame;
use crate::order::order_below_wall;
use crate::spots::{class_at, count, spot_at};
use extent_table::{Spot, Table};

/// The least record that doesn't stand where a flush can go on with it.
pub(crate) fn first_misplaced(table: &Table, frame: &Frame, order: &mut Vec<u32>) -> Option<u64>
    requires moving { frame.now.header.kind ≡ Moving }
    requires boundary { table_boundary (placed table.now frame.now) ≤ 32 }
    requires apart { AllHold apart_from_earlier (placed table.now frame.now) }
    requires room { length (records_of table.now.now) ≤ vec_capacity order.old }
    ensures none { IsNone result → AllHold places_to_resume (placed table.now frame.now) }
    ensures first { IfSome result (λ at. BreaksAt places_to_resume (placed table.now frame.now) at) }
    ensures capacity { vec_capacity order.new ≡ vec_capacity order.old }
{
    let beside = first_across_wall(table, frame);
    order_below_wall(table, frame, order);
    let ordered = first_out_of_order(table, frame, order);
    let gap = first_narrow_gap(table, frame, order);
    let first = beside.min(ordered).min(gap);
    if first < count(table) {
        Some(first)
    } else {
        None
    }
}

/// The least suffix record that stands on neither side of the wall, or the number of records.
fn first_across_wall(table: &Table, frame: &Frame) -> u64
    requires boundary { table_boundary (placed table.now frame.now) ≤ 32 }
    ensures { IsLeast (StandsBesideWall (placed table.now frame.now)) (length (records_of table.now.now))
        result }
{
    let count = count(table);
    'records: for rank in 0..count {
        if !stands_beside_wall(table, frame, rank) {
            return rank;
        }
    }
    count
}

/// Whether a suffix record stands on one side of the wall.
fn stands_beside_wall(table: &Table, frame: &Frame, rank: u64) -> bool
    requires boundary { table_boundary (placed table.now frame.now) ≤ 32 }
    ensures { IsTrue result ↔ StandsBesideWall (placed table.now frame.now) rank }
{
    let s = spot_at(table, rank);
    let wall = frame.header.wall;
    !frame.is_suffix(s.size)
        || wall <= s.place
        || (frame.start(frame.boundary()) <= s.place && s.place + s.size <= wall)
}

/// The least record below the wall that a record of a greater class stands below, or the number of
/// records: in the order of the places, the greatest class so far is kept.
fn first_out_of_order(table: &Table, frame: &Frame, order: &[u32]) -> u64
    requires apart { AllHold apart_from_earlier (placed table.now frame.now) }
    requires order { IsByPlace table.now
        (λ i. is_below_wall (placed table.now frame.now) (ranked table.now i))
        (length (records_of table.now.now)) order.now }
    ensures { IsLeast (IsInOrder (placed table.now frame.now)) (length (records_of table.now.now)) result }
{
    let _classes = frame.classes;
    let mut least = count(table);
    let mut greatest = 0;
    'records: for at in 0..order.len() {
        let rank = u64::from(order[at]);
        let class = class_at(spot_at(table, rank).size);
        if class < greatest {
            least = least.min(rank);
        } else {
            greatest = class;
        }
    }
    least
}

/// The least record below the wall that packing would leave a narrow gap above, or the number of
/// records: from the greatest place down, the bytes of the records above are kept.
fn first_narrow_gap(table: &Table, frame: &Frame, order: &[u32]) -> u64
    requires apart { AllHold apart_from_earlier (placed table.now frame.now) }
    requires order { IsByPlace table.now
        (λ i. is_below_wall (placed table.now frame.now) (ranked table.now i))
        (length (records_of table.now.now)) order.now }
    ensures { IsLeast (HasWideGap (placed table.now frame.now)) (length (records_of table.now.now)) result }
{
    let mut least = count(table);
    let mut above = 0;
    let mut left = order.len();
    'records: while left > 0 {
        left -= 1;
        let rank = u64::from(order[left]);
        let s = spot_at(table, rank);
        if !is_gap_wide(frame, s, above) {
            least = least.min(rank);
        }
        above += u128::from(s.size);
    }
    least
}

/// Whether there is no gap between a record that is packed and the wall, or one of at least the slack.
fn is_gap_wide(frame: &Frame, s: Spot, above: u128) -> bool
    requires low { s.place < 2 ^ 48 }
    requires small { s.size < 2 ^ 48 }
    requires above { above < 2 ^ 120 }
    ensures { IsTrue result ↔ ((s.place + s.size + above ≡ frame.now.header.wall)
        ⊎ (s.place + s.size + above + frame.now.header.slack ≤ frame.now.header.wall)) }
{
    let packed = u128::from(s.place + s.size) + above;
    let wall = u128::from(frame.header.wall);
    packed == wall || packed + u128::from(frame.header.slack) <= wall
}
