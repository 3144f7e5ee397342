//! What a store tells its guard and its ledger when an object goes or comes.
ghost use Rattle.std.specs.Prelude.{◌≡◌, ◌<◌, ◌≤◌, ◌^◌, IfSome, Some, fold};
ghost use Rattle.size_class.specs.Rows.{cells_of};
ghost use Rattle.segment_layout.specs.Books.{some_size};
ghost use Rattle.extent_table.specs.declared.spot.Spot.{Spot as AnySpot};
ghost use Rattle.placement_model.specs.Held.{FreesSpot};
ghost use Rattle.store_model.specs.Quiet.{CanFree, added, sizes_at};

use data_area::Ledger;
use extent_table::Spot;
use held_guard::Guard;
use size_class::{SIZE_MAX, class_of};
use span_math::Span;

/// Tells the guard that an object goes from where it stands, if it was kept there.
pub(crate) fn free_spot(guard: &mut Guard, now: Option<Spot>, kept: Option<Spot>)
    requires { (s : AnySpot) → now ≡ Some s → kept ≡ Some s → CanFree guard.old s }
    ensures freed { FreesSpot now kept guard.old.spans guard.new.spans }
    ensures room { guard.new.room ≡ guard.old.room }
{
    if let (Some(spot), Some(held)) = (now, kept) {
        if spot == held {
            guard.freed(Span {
                place: spot.place,
                size: spot.size,
            });
        }
    }
}

/// Adds the object at a spot to the bytes asked for.
pub(crate) fn add_gone<const C: usize>(ledger: &mut Ledger<C>, old: Option<Spot>)
    requires fits { C ≤ 32 }
    requires wide { SIZE_MAX < 2 ^ C }
    requires small { IfSome old (λ s. s.size ≤ SIZE_MAX) }
    ensures asked { cells_of ledger.new.asked ≡ fold added (cells_of ledger.old.asked) (sizes_at old) }
    ensures moved { cells_of ledger.new.moved ≡ cells_of ledger.old.moved }
{
    if let Some(spot) = old {
        add_size(ledger, spot.size);
    }
}

/// Adds an object of a size to the bytes asked for.
pub(crate) fn add_size<const C: usize>(ledger: &mut Ledger<C>, size: u64)
    requires fits { C ≤ 32 }
    requires wide { SIZE_MAX < 2 ^ C }
    requires small { size ≤ SIZE_MAX }
    ensures asked { cells_of ledger.new.asked ≡ fold added (cells_of ledger.old.asked) (some_size size) }
    ensures moved { cells_of ledger.new.moved ≡ cells_of ledger.old.moved }
{
    if size > 0 {
        ledger.asked.add(class_of(size), size);
    }
}
