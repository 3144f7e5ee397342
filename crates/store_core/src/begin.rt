//! What a change does in the table and the layout before its flush. The disk has no part in it.
ghost use Rattle.std.specs.Prelude.{◌≡◌, ◌+◌, ◌<◌, ◌≤◌, ◌^◌, ℕ, List, [], true, false, None, length};
ghost use Rattle.std.specs.FinMap as fin;
ghost use Rattle.size_class.specs.Classes.{class_of as class_of_size};
ghost use Rattle.segment_layout.specs.Layouts.{caps_of, divisor_of, grid_of};
ghost use Rattle.extent_table.specs.Extents.{Extents};
ghost use Rattle.flush_run.specs.{Parts.{parts_of}, Shelved.{items_now, phase_now}};
ghost use Rattle.store_model.specs.Starts.{IsWith};
ghost use Rattle.store_model.specs.{Charges.{CanPut, ChargesParts, change_of}, Flushing.{CanStartAt, IsBegun, NeedsFlushAt, IsStarted, MayBegin, StartsPlaced, StartsWaiting, TakesOut}, Quiet.{del_of, put_of}};
ghost use Rattle.flush_plan.specs.Lifts.{KeepsLifting};

use crate::digest::digest_of;
use crate::held::{add_gone, add_size, free_spot};
use crate::plan::Charged;
use extent_table::{Spot, Table};
use flush_model::Item;
use flush_plan::{Lifting, numbers};
use flush_run::{Hands, TableShelf};
use segment_layout::Layout;
use size_class::{SIZE_MAX, class_of};
use slot_codec::Name;

/// A flush that begins: its moves, and the place at which the new object is to be written.
#[derive(Drop)]
pub(crate) struct StartedFlush<const C: usize> {
    pub(crate) phase: Lifting<C>,
    pub(crate) place: u64,
}

/// Makes a change that isn't quiet in the table and the layout, as it was charged: a put, or where no
/// object comes, and there are no bytes, a removal.
pub(crate) fn start_change<const C: usize>(
    hands: &mut Hands<C>,
    name: &Name,
    bytes: &[u8],
    comes: bool,
    charged: &Charged<C>,
) -> StartedFlush<C>
    requires fits { C ≤ 32 }
    requires wide { SIZE_MAX < 2 ^ C }
    requires nothing { comes ≡ false → bytes.now ≡ [] }
    requires can { CanPut (parts_of hands.old) name.now bytes.now comes }
    requires before { (kept_grid : List (List ℕ)) × MayBegin C kept_grid (parts_of hands.old) }
    requires charged { ChargesParts (parts_of hands.old) name.now (length bytes.now) charged.now.layout
        charged.now.outcome }
    requires needs_flush { NeedsFlushAt (parts_of hands.old) name.now (length bytes.now) }
    ensures begun { IsBegun C (parts_of hands.old) (change_of name.now bytes.now comes) (parts_of hands.new)
        (phase_now result.phase.course hands.new.table) result.place }
    ensures keeps { KeepsLifting C result.phase (items_now result.phase.course hands.new.table) }
{
    if comes {
        start_put(hands, name, bytes, charged)
    } else {
        start_del(hands, name, charged)
    }
}

/// Makes a put. A new object that found no room stands where the flush reaches to.
fn start_put<const C: usize>(
    hands: &mut Hands<C>,
    name: &Name,
    bytes: &[u8],
    charged: &Charged<C>,
) -> StartedFlush<C>
    requires fits { C ≤ 32 }
    requires wide { SIZE_MAX < 2 ^ C }
    requires can { CanPut (parts_of hands.old) name.now bytes.now true }
    requires before { (kept_grid : List (List ℕ)) × MayBegin C kept_grid (parts_of hands.old) }
    requires charged { ChargesParts (parts_of hands.old) name.now (length bytes.now) charged.now.layout
        charged.now.outcome }
    requires needs_flush { NeedsFlushAt (parts_of hands.old) name.now (length bytes.now) }
    ensures begun { IsBegun C (parts_of hands.old) (put_of name.now bytes.now) (parts_of hands.new)
        (phase_now result.phase.course hands.new.table) result.place }
    ensures keeps { KeepsLifting C result.phase (items_now result.phase.course hands.new.table) }
{
    let size = bytes.len() as u64;
    let digest = digest_of(hands.version, bytes);
    take_out(hands, name);
    add_size(&mut hands.ledger, size);
    hands.layout = charged.layout;
    let boundary = hands.layout.boundary(charged.outcome.class);
    match charged.outcome.place {
        Some(place) => start_placed(hands, name, boundary, Spot { place, size }, digest),
        None => start_waiting(hands, name, boundary, size, digest),
    }
}

/// Makes a removal.
fn start_del<const C: usize>(
    hands: &mut Hands<C>,
    name: &Name,
    charged: &Charged<C>,
) -> StartedFlush<C>
    requires fits { C ≤ 32 }
    requires wide { SIZE_MAX < 2 ^ C }
    requires before { (kept_grid : List (List ℕ)) × MayBegin C kept_grid (parts_of hands.old) }
    requires charged { ChargesParts (parts_of hands.old) name.now 0 charged.now.layout charged.now.outcome }
    requires needs_flush { NeedsFlushAt (parts_of hands.old) name.now 0 }
    ensures begun { IsBegun C (parts_of hands.old) (del_of name.now) (parts_of hands.new)
        (phase_now result.phase.course hands.new.table) result.place }
    ensures keeps { KeepsLifting C result.phase (items_now result.phase.course hands.new.table) }
{
    take_out(hands, name);
    hands.layout = charged.layout;
    let b = hands.layout.boundary(charged.outcome.class);
    StartedFlush {
        phase: start_lifting(&hands.table, &hands.layout, b),
        place: 0,
    }
}

/// Takes a name out of the table, and tells the guard and the ledger.
fn take_out<const C: usize>(hands: &mut Hands<C>, name: &Name)
    requires fits { C ≤ 32 }
    requires wide { SIZE_MAX < 2 ^ C }
    requires before { (kept_grid : List (List ℕ)) × MayBegin C kept_grid (parts_of hands.old) }
    ensures { TakesOut name.now (parts_of hands.old) (parts_of hands.new) }
{
    let old = hands.table.get(name);
    free_spot(&mut hands.guard, old, hands.table.old(name));
    add_gone(&mut hands.ledger, old);
    hands.table.remove(name);
}

/// Sets a new object that found room, with its digest, and begins a flush with nothing pending.
fn start_placed<const C: usize>(
    hands: &mut Hands<C>,
    name: &Name,
    b: u8,
    spot: Spot,
    digest: [u8; 32],
) -> StartedFlush<C>
    requires fits { C ≤ 32 }
    requires room { fin.len hands.old.table.now < hands.old.table.cap }
    requires low { spot.place + spot.size < 2 ^ 48 }
    requires start { (key : ℕ) (put : Extents) → IsWith name.now spot key hands.old.table put
        → CanStartAt C b (divisor_of hands.old.layout) (caps_of hands.old.layout) (grid_of hands.old.layout)
        put }
    ensures starts { StartsPlaced b name.now digest spot (parts_of hands.old) (parts_of hands.new)
        (phase_now result.phase.course hands.new.table) }
    ensures keeps { KeepsLifting C result.phase (items_now result.phase.course hands.new.table) }
    ensures place { result.place ≡ spot.place }
{
    hands.table.set(name, spot, digest);
    StartedFlush {
        phase: start_lifting(&hands.table, &hands.layout, b),
        place: spot.place,
    }
}

/// Begins a flush of the objects of a table from class `b` on, with nothing pending.
fn start_lifting<const C: usize>(table: &Table, layout: &Layout<C>, b: u8) -> Lifting<C>
    requires fits { C ≤ 32 }
    requires start { CanStartAt C b (divisor_of layout.now) (caps_of layout.now) (grid_of layout.now)
        table.now }
    ensures started { IsStarted b (divisor_of layout.now) (caps_of layout.now) table.now
        (phase_now result.course table.now) }
    ensures keeps { KeepsLifting C result (items_now result.course table.now) }
{
    let shelf = TableShelf(table);
    let found = numbers(layout, b, &shelf, 0);
    Lifting::new(layout, found, &shelf, None)
}

/// Sets a new object that found no room where the flush reaches to, with its digest, and begins a
/// flush with it pending.
fn start_waiting<const C: usize>(
    hands: &mut Hands<C>,
    name: &Name,
    b: u8,
    size: u64,
    digest: [u8; 32],
) -> StartedFlush<C>
    requires fits { C ≤ 32 }
    requires wide { SIZE_MAX < 2 ^ C }
    requires some { 1 ≤ size }
    requires small { size ≤ SIZE_MAX }
    requires high { b ≤ class_of_size size }
    requires new { fin.get hands.old.table.now name.now ≡ None }
    requires room { fin.len hands.old.table.now < hands.old.table.cap }
    requires start { CanStartAt C b (divisor_of hands.old.layout) (caps_of hands.old.layout)
        (grid_of hands.old.layout) hands.old.table }
    ensures starts { StartsWaiting b name.now digest size result.place
        (parts_of hands.old) (parts_of hands.new)
        (phase_now result.phase.course hands.new.table) }
    ensures keeps { KeepsLifting C result.phase (items_now result.phase.course hands.new.table) }
{
    let found = numbers(&hands.layout, b, &TableShelf(&hands.table), size);
    let place = found.reach - size;
    let key = hands.table.set(name, Spot { place, size }, digest);
    let pending = Item {
        key,
        class: class_of(size),
        place,
        size,
    };
    let shelf = TableShelf(&hands.table);
    StartedFlush {
        phase: Lifting::new(&hands.layout, found, &shelf, Some(pending)),
        place,
    }
}
