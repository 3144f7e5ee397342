//! A plain plan of a flush in three passes over its items.
ghost use Rattle.std.specs.Prelude.{◌<◌, ◌≤◌};

use crate::list_shelf::sort_by_place;
use flush_model::{Item, Move, Numbers};
use segment_layout::Layout;
use size_class::{Row, class_of};
use std::alloc::AllocError;

/// The sizes of the items of a class.
fn volume_of(items: &[Item], class: u8) -> u64 {
    let mut sum = 0u64;
    'items: for item in items {
        if item.class == class {
            sum = sum.saturating_add(item.size);
        }
    }
    sum
}

/// The sizes of the items that stand in their payload segments, or of those that don't.
fn payload_of<const C: usize>(layout: &Layout<C>, items: &[Item], stands: bool) -> u64 {
    let mut sum = 0u64;
    'items: for item in items {
        if in_payload(layout, item) == stands {
            sum = sum.saturating_add(item.size);
        }
    }
    sum
}

/// Whether an item stands in its payload segment.
fn in_payload<const C: usize>(layout: &Layout<C>, item: &Item) -> bool {
    C <= 32
        && (item.class as usize) < C
        && layout.start(item.class) <= item.place
        && item.place.saturating_add(item.size) <= layout.buffer_start(item.class)
}

/// The numbers of a flush.
pub(crate) fn slow_numbers<const C: usize>(
    layout: &Layout<C>,
    b: u8,
    items: &[Item],
    pending: u64,
) -> Numbers
    requires fits { C ≤ 32 }
    requires boundary { b < C }
{
    let k = layout.k().max(2);
    let start = layout.start(b);
    let mut end = start;
    let mut largest = pending;
    'classes: for class in b..C as u8 {
        let mut volume = volume_of(items, class);
        if pending > 0 && pending < 1 << 31 && class_of(pending) == class {
            volume = volume.saturating_add(pending);
        }
        end = end.saturating_add(volume.saturating_add(volume / k));
    }
    'items: for item in items {
        largest = largest.max(item.size);
    }
    let kept = payload_of(layout, items, true);
    let lifted = payload_of(layout, items, false);
    let slack = largest.saturating_add(kept / k).saturating_add(1);
    let wall = layout.end().max(end).saturating_add(slack);
    Numbers {
        boundary: b,
        start,
        wall,
        slack,
        reach: wall.saturating_add(lifted).saturating_add(pending),
        end,
    }
}

/// Notes a move, and puts the item there.
fn put(item: &mut Item, to: u64, moves: &mut Vec<Move>) -> Result<(), AllocError> {
    if item.place != to {
        moves.push(Move {
            key: item.key,
            class: item.class,
            from: item.place,
            to,
            size: item.size,
        })?;
        item.place = to;
    }
    Ok(())
}

/// Lift: what stands in buffers goes in a row from the wall on, in the order of its places.
pub(crate) fn slow_lift<const C: usize>(
    layout: &Layout<C>,
    wall: u64,
    items: &mut Vec<Item>,
    moves: &mut Vec<Move>,
) -> Result<(), AllocError> {
    sort_by_place(items);
    let mut to = wall;
    'items: for item in items.iter_mut() {
        if item.place < wall && !in_payload(layout, item) {
            put(item, to, moves)?;
            to = to.saturating_add(item.size);
        }
    }
    Ok(())
}

/// Pack: from the greatest place down, each object ends where the one before it begins.
pub(crate) fn slow_pack(
    wall: u64,
    items: &mut Vec<Item>,
    moves: &mut Vec<Move>,
) -> Result<(), AllocError> {
    items.sort_unstable_by_key(|item| u64::MAX - item.place);
    let mut end = wall;
    'items: for item in items.iter_mut() {
        if item.place < wall {
            let to = end.saturating_sub(item.size);
            put(item, to, moves)?;
            end = to;
        }
    }
    Ok(())
}

/// Lay: class by class, in the order of the places, one object behind the other.
pub(crate) fn slow_lay<const C: usize>(
    k: u64,
    numbers: Numbers,
    items: &mut Vec<Item>,
    moves: &mut Vec<Move>,
) -> Result<(), AllocError>
    requires fits { C ≤ 32 }
    requires divisor { 2 ≤ k }
{
    sort_by_place(items);
    let mut start = numbers.start;
    'classes: for class in numbers.boundary..C as u8 {
        let mut to = start;
        'items: for item in items.iter_mut() {
            if item.class == class {
                put(item, to, moves)?;
                to = to.saturating_add(item.size);
            }
        }
        let volume = to.saturating_sub(start);
        start = to.saturating_add(volume / k);
    }
    Ok(())
}
