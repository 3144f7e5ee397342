//! The charges of a put and of a removal, each tried whether or not the other found room.
ghost use Rattle.std.specs.Prelude.{◌≡◌, ◌<◌, ◌≤◌, ◌^◌, IfSome, IsFalse, IsNone, Some};
ghost use Rattle.segment_layout.specs.{Books.{is_quiet}, Charges.{KeepsSegments}, Layouts.{caps_of, divisor_of, grid_of}};
ghost use Rattle.placement_model.specs.Tried.{between, gone_charged, size_at};
ghost use Rattle.store_model.specs.Charging.{IsChargedBy, PlacesNew, lesser};

use extent_table::Spot;
use segment_layout::Layout;
use size_class::{SIZE_MAX, class_of};

/// The class that is answered where all found room: the last one.
const LAST_CLASS: u8 = 31;

/// What came of the charges of a change: whether what the old object charges found room, where the new
/// object stands, if it found room, and the least class of what found none, or 31.
#[derive(Clone, Copy, Debug, PartialEq, Eq)]
pub struct ChargeResult {
    pub gone: bool,
    pub place: Option<u64>,
    pub class: u8,
}

/// Charges the object that goes, where it stands in its payload segment, and then a new one of `size`
/// bytes, of which an empty one charges nothing and has place 0. Each is tried, whether or not the
/// other found room, and each that found room is done.
pub fn charge_change<const C: usize>(
    layout: &mut Layout<C>,
    old: Option<Spot>,
    size: u64,
) -> ChargeResult
    requires fits { C ≤ 32 }
    requires wide { SIZE_MAX < 2 ^ C }
    requires old_small { IfSome old (λ s. s.size ≤ SIZE_MAX) }
    requires small { size ≤ SIZE_MAX }
    ensures charged { IsChargedBy (divisor_of layout.old) (caps_of layout.old) (grid_of layout.old) old size
        layout.new result }
{
    let gone = charge_gone(layout, old);
    let place = charge_new(layout, size);
    let first = or_missed(LAST_CLASS, gone, size_of(old));
    let class = or_missed(first, place.is_some(), size);
    ChargeResult { gone, place, class }
}

/// The lesser of a class and that of a size which found no room.
fn or_missed(class: u8, found: bool, size: u64) -> u8
    requires some { IsFalse found → 1 ≤ size }
    requires small { IsFalse found → size ≤ SIZE_MAX }
    ensures { result ≡ lesser class (size, found) }
{
    if found {
        return class;
    }
    class.min(class_of(size))
}

/// The size of an object, or 0 where there is none.
fn size_of(spot: Option<Spot>) -> u64
    ensures { result ≡ size_at spot }
{
    match spot {
        Some(spot) => spot.size,
        None => 0,
    }
}

/// Charges the object that goes: its size, where it stands in the payload segment of its class. False
/// where no buffer has room for it.
fn charge_gone<const C: usize>(layout: &mut Layout<C>, old: Option<Spot>) -> bool
    requires fits { C ≤ 32 }
    requires wide { SIZE_MAX < 2 ^ C }
    requires small { IfSome old (λ s. s.size ≤ SIZE_MAX) }
    ensures quiet { result
        ≡ is_quiet (gone_charged (divisor_of layout.old) (caps_of layout.old) (grid_of layout.old) old) }
    ensures grid { grid_of layout.new
        ≡ between (divisor_of layout.old) (caps_of layout.old) (grid_of layout.old) old }
    ensures some { IsFalse result → 1 ≤ size_at old }
    ensures frame { KeepsSegments layout.old layout.new }
{
    match old {
        Some(spot) if spot.size > 0 => charge_spot(layout, spot),
        _ => true,
    }
}

/// Charges an object of at least 1 byte that goes.
fn charge_spot<const C: usize>(layout: &mut Layout<C>, spot: Spot) -> bool
    requires fits { C ≤ 32 }
    requires wide { SIZE_MAX < 2 ^ C }
    requires some { 1 ≤ spot.size }
    requires small { spot.size ≤ SIZE_MAX }
    ensures quiet { result ≡ is_quiet
        (gone_charged (divisor_of layout.old) (caps_of layout.old) (grid_of layout.old) (Some spot)) }
    ensures grid { grid_of layout.new
        ≡ between (divisor_of layout.old) (caps_of layout.old) (grid_of layout.old) (Some spot) }
    ensures frame { KeepsSegments layout.old layout.new }
{
    let class = class_of(spot.size);
    if layout.in_payload(class, spot.place) {
        layout.charge(class, spot.size).is_some()
    } else {
        true
    }
}

/// Charges a new object, and answers its place; an empty one has place 0 and charges nothing. None
/// where no buffer has room for it.
fn charge_new<const C: usize>(layout: &mut Layout<C>, size: u64) -> Option<u64>
    requires fits { C ≤ 32 }
    requires wide { SIZE_MAX < 2 ^ C }
    requires small { size ≤ SIZE_MAX }
    ensures place { PlacesNew (divisor_of layout.old) (caps_of layout.old) (grid_of layout.old) size
        (grid_of layout.new) result }
    ensures none { IsNone result → 1 ≤ size }
    ensures frame { KeepsSegments layout.old layout.new }
{
    if size == 0 {
        return Some(0);
    }
    match layout.charge(class_of(size), size) {
        Some(charge) => Some(charge.place),
        None => None,
    }
}
