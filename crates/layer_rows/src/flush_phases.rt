//! The moves of a phase, made on a shelf that is a list. The layout is the one that the flush began with.
ghost use Rattle.std.specs.Prelude.{◌≡◌, Ok, IfOk};
ghost use Rattle.segment_layout.specs.Layouts.{divisor_of};
ghost use Rattle.layer_rows.specs.Listed.{LaysList, LiftsList, PacksList};

use crate::list_shelf::ListShelf;
use flush_plan::{Laying, Lifting, Move, Packing, Settled};
use segment_layout::Layout;
use std::process::Abort;
use std::test::Fail;

/// What a phase gave, which may not fail.
pub(crate) fn got<T>(rt: &impl Abort, given: Result<T, Fail>) -> T
    ensures { given ≡ Ok result }
{
    match given {
        Ok(value) => value,
        Err(_) => panic!(rt; "a phase that failed"),
    }
}

/// Makes all moves of Lift, and notes them. It fails where they don't end.
pub(crate) fn lift_all<const C: usize>(
    layout: &Layout<C>,
    phase: Lifting<C>,
    shelf: &mut ListShelf,
    moves: &mut Vec<Move>,
) -> Result<Packing<C>, Fail>
    requires { LiftsList C (divisor_of layout.now) phase shelf.old.items.items }
    ensures { IfOk result (λ packing. PacksList C (divisor_of layout.now) packing shelf.new.items.items) }
{
    let mut lifting = phase;
    'lifts: for _ in 0..100 {
        match lifting.next(&*shelf) {
            None => return Ok(lifting.into_packing(&*shelf)),
            Some(mv) => {
                shelf.relocate(mv);
                moves.push(mv)?;
            }
        }
    }
    Err(Fail::new("Lift has no end"))
}

/// Makes all moves of Pack, and notes them. It fails where they don't end.
pub(crate) fn pack_all<const C: usize>(
    layout: &Layout<C>,
    phase: Packing<C>,
    shelf: &mut ListShelf,
    moves: &mut Vec<Move>,
) -> Result<Laying<C>, Fail>
    requires { PacksList C (divisor_of layout.now) phase shelf.old.items.items }
    ensures { IfOk result (λ laying. LaysList C (divisor_of layout.now) laying shelf.new.items.items) }
{
    let packing = pack_some(layout, phase, shelf, moves, 100)?;
    if !packing.at_end(&*shelf) {
        return Err(Fail::new("Pack has no end"));
    }
    Ok(packing.into_laying(&*shelf))
}

/// Makes so many moves of Pack, or those that are left, and notes them.
pub(crate) fn pack_some<const C: usize>(
    layout: &Layout<C>,
    phase: Packing<C>,
    shelf: &mut ListShelf,
    moves: &mut Vec<Move>,
    most: u64,
) -> Result<Packing<C>, Fail>
    requires { PacksList C (divisor_of layout.now) phase shelf.old.items.items }
    ensures { IfOk result (λ packing. PacksList C (divisor_of layout.now) packing shelf.new.items.items) }
{
    let mut packing = phase;
    'packs: for _ in 0..most {
        match packing.next(&*shelf) {
            None => return Ok(packing),
            Some(mv) => {
                shelf.relocate(mv);
                moves.push(mv)?;
            }
        }
    }
    Ok(packing)
}

/// Makes all moves of Lay, and notes them. It fails where they don't end.
pub(crate) fn lay_all<const C: usize>(
    layout: &Layout<C>,
    phase: Laying<C>,
    shelf: &mut ListShelf,
    moves: &mut Vec<Move>,
) -> Result<Settled<C>, Fail>
    requires { LaysList C (divisor_of layout.now) phase shelf.old.items.items }
{
    let laying = lay_some(layout, phase, shelf, moves, 100)?;
    if !laying.at_end(&*shelf) {
        return Err(Fail::new("Lay has no end"));
    }
    Ok(laying.into_settled(&*shelf))
}

/// Makes so many moves of Lay, or those that are left, and notes them.
pub(crate) fn lay_some<const C: usize>(
    layout: &Layout<C>,
    phase: Laying<C>,
    shelf: &mut ListShelf,
    moves: &mut Vec<Move>,
    most: u64,
) -> Result<Laying<C>, Fail>
    requires { LaysList C (divisor_of layout.now) phase shelf.old.items.items }
    ensures { IfOk result (λ laying. LaysList C (divisor_of layout.now) laying shelf.new.items.items) }
{
    let mut laying = phase;
    'lays: for _ in 0..most {
        match laying.next(&*shelf) {
            None => return Ok(laying),
            Some(mv) => {
                shelf.relocate(mv);
                moves.push(mv)?;
            }
        }
    }
    Ok(laying)
}
