//! The numbers of a flush, from one pass over the end of a shelf.
ghost use Rattle.std.specs.Prelude.{◌≡◌, ℕ, ◌<◌, ◌≤◌, ◌^◌, List, slice_index};
ghost use Rattle.size_class.specs.Classes.{class_of as class_of_lem};
ghost use Rattle.size_class.specs.Rows.{cells_of};
ghost use Rattle.segment_layout.specs.{Shapes.{start_of}, Layouts.{divisor_of, caps_of}};
ghost use Rattle.flush_model.specs.declared.item.Item.{Item as AnyItem};
ghost use Rattle.flush_model.specs.{Plans.{in_class, numbers_of, object_of}, Phases.{CanFlush}};
ghost use Rattle.flush_plan.specs.{Shelves.{from_place, IsOnShelf, IsShelf}, Counts.{IsCount}};

use crate::ranks::rank_from;
use crate::shelf::Shelf;
use flush_model::{Item, Numbers, places_of, stands, starts_of};
use segment_layout::Layout;
use size_class::{Row, class_of};

/// The numbers of a flush from class `b` on, of the objects that stand from the start of that class on.
/// The pending object, of `pending` bytes, isn't among them; with none pending it is 0.
pub fn numbers<S: Shelf, const C: usize>(
    layout: &Layout<C>,
    b: u8,
    shelf: &S,
    pending: u64,
) -> Numbers
    requires fits { C ≤ 32 }
    requires boundary { b < C }
    requires flush { (items : List AnyItem) × CanFlush (divisor_of layout.now) (caps_of layout.now) b items
        × IsOnShelf (start_of (divisor_of layout.now) (caps_of layout.now) b) items (S.items shelf.now) }
    requires high { pending ≤ 2 ^ 31 }
    requires class { 1 ≤ pending → class_of_lem pending < C }
    ensures { (items : List AnyItem)
        → IsOnShelf (start_of (divisor_of layout.now) (caps_of layout.now) b) items (S.items shelf.now)
        → result ≡ numbers_of (divisor_of layout.now) (caps_of layout.now) b items pending }
{
    let k = layout.k();
    let start = layout.start(b);
    let count = count_from(layout, b, shelf, pending);
    let (_, end) = places_of(&count.volumes, start, b, k);
    let slack = count.largest + (count.in_payload / k + 1);
    let wall = layout.end().max(end) + slack;
    Numbers {
        boundary: b,
        start,
        wall,
        slack,
        reach: wall + count.in_buffers + pending,
        end,
    }
}

/// What is counted up over the objects of a flush and its pending object: the bytes of each class, the
/// largest size, and the bytes in payload segments and in buffers, without the pending ones.
#[derive(Drop)]
struct Count<const C: usize> {
    volumes: Row<C>,
    largest: u64,
    in_payload: u64,
    in_buffers: u64,
}

/// Counts up the objects from the start of class `b` on, and the pending object.
fn count_from<S: Shelf, const C: usize>(
    layout: &Layout<C>,
    b: u8,
    shelf: &S,
    pending: u64,
) -> Count<C>
    requires fits { C ≤ 32 }
    requires boundary { b < C }
    requires rises { IsShelf (S.items shelf.now) }
    requires flush { CanFlush (divisor_of layout.now) (caps_of layout.now) b
        (from_place (start_of (divisor_of layout.now) (caps_of layout.now) b) (S.items shelf.now)) }
    requires high { pending ≤ 2 ^ 31 }
    requires class { 1 ≤ pending → class_of_lem pending < C }
    ensures { IsCount (divisor_of layout.now) (caps_of layout.now) pending
        (from_place (start_of (divisor_of layout.now) (caps_of layout.now) b) (S.items shelf.now)) result }
{
    let starts = starts_of(layout);
    let caps = layout.caps();
    let mut volumes: Row<C> = volume_of(pending);
    let mut largest = pending;
    let mut in_payload = 0;
    let mut in_buffers = 0;
    let first = rank_from(shelf, layout.start(b), 0);
    let len = shelf.len();
    let mut rank = first;
    'ranks: while rank < len {
        let item: Item = shelf.item(rank);
        let more = volumes.get(item.class) + item.size;
        volumes.set(item.class, more);
        largest = largest.max(item.size);
        if stands(&starts, &caps, item) {
            in_payload += item.size;
        } else {
            in_buffers += item.size;
        }
        rank += 1;
    }
    Count {
        volumes,
        largest,
        in_payload,
        in_buffers,
    }
}

/// The bytes of each class, where there is one object of so many bytes.
fn volume_of<const C: usize>(size: u64) -> Row<C>
    requires fits { C ≤ 32 }
    requires high { size ≤ 2 ^ 31 }
    requires class { 1 ≤ size → class_of_lem size < C }
    ensures { (c : ℕ) → c < C → slice_index (cells_of result) c ≡ in_class c (object_of size) }
{
    let mut volumes = Row::zero();
    if size > 0 {
        volumes.set(class_of(size), size);
    }
    volumes
}
