//! The numbers of a flush that goes on after it was interrupted.
ghost use Rattle.std.specs.Prelude.{◌≡◌, ◌<◌, ◌≤◌, List};
ghost use Rattle.segment_layout.specs.{Shapes.{start_of}, Layouts.{caps_of, divisor_of}};
ghost use Rattle.flush_model.specs.declared.item.Item.{Item as AnyItem};
ghost use Rattle.flush_model.specs.Resumed.{numbers_again as again};
ghost use Rattle.flush_plan.specs.{Shelves.{IsOnShelf}, Packs.{CanGoOn}};

use crate::shelf::Shelf;
use crate::volumes::volumes_from;
use flush_model::{Numbers, places_of};
use segment_layout::Layout;
use size_class::Row;

/// The numbers of a flush from class `b` on that was interrupted, by the wall and the slack of its
/// moving table. Its layout is that of the classes below `b`, and its objects are those that stand from
/// the end of these on.
pub fn numbers_again<S: Shelf, const C: usize>(
    layout: &Layout<C>,
    b: u8,
    wall: u64,
    slack: u64,
    shelf: &S,
) -> Numbers
    requires fits { C ≤ 32 }
    requires boundary { b < C }
    requires goes_on { (items : List AnyItem) × CanGoOn C (divisor_of layout.now) (caps_of layout.now)
        (again (divisor_of layout.now) (caps_of layout.now) b wall slack items) items (S.items shelf.now) }
    ensures { (items : List AnyItem)
        → IsOnShelf (start_of (divisor_of layout.now) (caps_of layout.now) b) items (S.items shelf.now)
        → result ≡ again (divisor_of layout.now) (caps_of layout.now) b wall slack items }
{
    let start = layout.start(b);
    let volumes: Row<C> = volumes_from(shelf, start);
    let (_, end) = places_of(&volumes, start, b, layout.k());
    Numbers {
        boundary: b,
        start,
        wall,
        slack,
        reach: wall,
        end,
    }
}
