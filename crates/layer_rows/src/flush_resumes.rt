//! Flushes that go on after they were interrupted, over the shelf on which their objects were found.
ghost use Rattle.std.specs.Prelude.{◌≡◌, List, IfSome, IsPermutation};
ghost use Rattle.std.specs.List.Sorted.{IsNonDecreasingBy};
ghost use Rattle.segment_layout.specs.Layouts.{divisor_of};
ghost use Rattle.flush_model.specs.declared.item.Item.{Item as AnyItem};
ghost use Rattle.flush_model.specs.{Plans.{AreBelow, AreSmall}, Phases.{IsPacking}};
ghost use Rattle.flush_plan.specs.Shelves.{PlanFrame, phase_on};
ghost use Rattle.layer_rows.specs.Listed.{LaysList, PacksList};

use crate::list_shelf::ListShelf;
use flush_plan::{Laying, Numbers, Packing, numbers_again};
use segment_layout::Layout;

/// Goes on with a flush that was interrupted within Pack, or before its first move.
pub(crate) fn found_again<const C: usize>(
    layout: &Layout<C>,
    packing: Packing<C>,
    shelf: &ListShelf,
) -> Option<Packing<C>>
    requires { PacksList C (divisor_of layout.now) packing shelf.now.items.items }
    ensures { IfSome result (λ again. PacksList C (divisor_of layout.now) again shelf.now.items.items) }
{
    resumed(layout, packing.numbers(), shelf)
}

/// Goes on with a flush that was interrupted within Lay.
pub(crate) fn found_laid<const C: usize>(
    layout: &Layout<C>,
    laying: Laying<C>,
    shelf: &ListShelf,
) -> Option<Packing<C>>
    requires { LaysList C (divisor_of layout.now) laying shelf.now.items.items }
    ensures { IfSome result (λ again. PacksList C (divisor_of layout.now) again shelf.now.items.items) }
{
    resumed(layout, laying.numbers(), shelf)
}

/// Goes on with a flush of which the layout, the boundary, the wall and the slack are known, over the shelf
/// on which its objects were found.
fn resumed<const C: usize>(
    layout: &Layout<C>,
    numbers: Numbers,
    shelf: &ListShelf,
) -> Option<Packing<C>>
    requires { (v : PlanFrame) × (v.k ≡ divisor_of layout.now) × (v.numbers ≡ numbers)
        × (items : List AnyItem)
        × IsPacking (phase_on v items) × AreBelow C items × AreSmall v.numbers items
        × IsPermutation items shelf.now.items.items
        × IsNonDecreasingBy (λ (it : AnyItem). it.place) shelf.now.items.items }
    ensures { IfSome result (λ again. PacksList C (divisor_of layout.now) again shelf.now.items.items) }
{
    let b = numbers.boundary;
    if C > 32 || b as usize >= C || layout.start(b) != numbers.start {
        return None;
    }
    let again = numbers_again(layout, b, numbers.wall, numbers.slack, shelf);
    Some(Packing::resume(layout, again, shelf))
}
