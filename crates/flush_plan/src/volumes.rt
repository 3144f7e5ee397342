//! The bytes of each class over the end of a shelf.
ghost use Rattle.std.specs.Prelude.{◌≡◌, ℕ, ◌<◌, ◌≤◌, ◌^◌, Contains, slice_index};
ghost use Rattle.size_class.specs.Rows.{cells_of};
ghost use Rattle.flush_model.specs.declared.item.Item.{Item as AnyItem};
ghost use Rattle.flush_model.specs.Plans.{AreBelow, class_total};
ghost use Rattle.flush_plan.specs.Shelves.{from_place, IsShelf};

use crate::ranks::rank_from;
use crate::shelf::Shelf;
use size_class::Row;

/// The bytes of each class over the objects that stand from a place on, in one pass.
pub(crate) fn volumes_from<S: Shelf, const C: usize>(shelf: &S, start: u64) -> Row<C>
    requires fits { C ≤ 32 }
    requires rises { IsShelf (S.items shelf.now) }
    requires classes { AreBelow C (from_place start (S.items shelf.now)) }
    requires small { (it : AnyItem) → Contains (from_place start (S.items shelf.now)) it
        → class_total (from_place start (S.items shelf.now)) it.class < 2 ^ 64 }
    ensures { (c : ℕ) → c < C
        → slice_index (cells_of result) c ≡ class_total (from_place start (S.items shelf.now)) c }
{
    let first = rank_from(shelf, start, 0);
    let count = shelf.len();
    let mut volumes: Row<C> = Row::zero();
    let mut rank = first;
    'ranks: while rank < count {
        let item = shelf.item(rank);
        let more = volumes.get(item.class) + item.size;
        volumes.set(item.class, more);
        rank += 1;
    }
    volumes
}
