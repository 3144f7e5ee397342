//! Flushes of a shelf that is a list, with which one may begin.
ghost use Rattle.std.specs.Prelude.{◌≡◌, ◌≢◌, ◌⊎◌, ℕ, ◌+◌, ◌<◌, ◌≤◌, ◌^◌, IfSome, IsTrue, Some, slice_get};
ghost use Rattle.size_class.specs.Classes.{class_of as class_of_lem};
ghost use Rattle.segment_layout.specs.Layouts.{divisor_of, caps_of};
ghost use Rattle.flush_model.specs.declared.item.Item.{Item as AnyItem};
ghost use Rattle.flush_model.specs.{Plans.{IsInBuffer, ItemsApart, stands_in_payload}, Phases.{CanFlush}};
ghost use Rattle.layer_rows.specs.Listed.{LiftsList};

use crate::list_shelf::ListShelf;
use flush_plan::{Item, Lifting, numbers};
use segment_layout::Layout;
use size_class::{Row, class_of};

/// The key of a pending object.
pub(crate) const PENDING: u32 = 1_000;

/// The layout with these volumes of classes, and with empty buffers.
pub(crate) fn layout_of<const C: usize>(k: u64, volumes: &[(u8, u64)]) -> Layout<C>
    requires fits { C ≤ 32 }
    requires some { 0 < C }
    requires low { 2 ≤ k }
    requires high { k ≤ 64 }
{
    let mut row: Row<C> = Row::zero();
    'volumes: for (class, volume) in volumes {
        if (*class as usize) < C && *volume < 1 << 40 {
            row.set(*class, *volume);
        }
    }
    let mut layout = Layout::empty(k);
    layout.settle(0, &row);
    layout
}

/// A flush that begins, with the shelf on which its objects stand.
#[derive(Drop)]
pub(crate) struct Begun<const C: usize> {
    pub(crate) lifting: Lifting<C>,
    pub(crate) shelf: ListShelf,
}

/// A flush of these objects and of a pending one of so many bytes, if one may begin.
pub(crate) fn flush_of<const C: usize>(
    layout: &Layout<C>,
    b: u8,
    objects: Vec<Item>,
    pending: u64,
) -> Option<Begun<C>>
    requires { C ≤ 32 }
    ensures { IfSome result (λ begun.
        LiftsList C (divisor_of layout.now) begun.lifting begun.shelf.items.items) }
{
    let shelf = ListShelf::new(objects);
    if b as usize >= C || pending > 1 << 31 || !can_flush(layout, b, &shelf.items) {
        return None;
    }
    if pending == 0 {
        let plain = numbers(layout, b, &shelf, 0);
        let lifting = Lifting::new(layout, plain, &shelf, None);
        return Some(Begun { lifting, shelf });
    }
    let class = class_of(pending);
    if class < b || class as usize >= C || !lacks_key(&shelf.items, PENDING) {
        return None;
    }
    let whole = numbers(layout, b, &shelf, pending);
    let item = Item {
        key: PENDING,
        class,
        place: whole.reach - pending,
        size: pending,
    };
    let ListShelf { items } = shelf;
    let mut all = items;
    if all.len() == all.capacity() {
        return None;
    }
    all.push_reserved(item);
    let shelf = ListShelf::new(all);
    let lifting = Lifting::new(layout, whole, &shelf, Some(item));
    Some(Begun { lifting, shelf })
}

/// Whether a flush from class `b` on may begin with these items.
fn can_flush<const C: usize>(layout: &Layout<C>, b: u8, items: &[Item]) -> bool
    requires { C ≤ 32 }
    ensures { IsTrue result → CanFlush (divisor_of layout.now) (caps_of layout.now) b items.now }
{
    let mut i = 0;
    'items: while i < items.len() {
        if !stands_well(layout, b, items[i]) || !is_apart(&items[..i], items[i]) {
            return false;
        }
        i += 1;
    }
    true
}

/// Whether no item has a key.
fn lacks_key(items: &[Item], key: u32) -> bool
    ensures { IsTrue result → (i : ℕ) (it : AnyItem) → slice_get items.now i ≡ Some it → it.key ≢ key }
{
    let mut i = 0;
    'items: while i < items.len() {
        if items[i].key == key {
            return false;
        }
        i += 1;
    }
    true
}

/// Whether an item shares no byte and no key with the others.
fn is_apart(others: &[Item], item: Item) -> bool
    ensures { IsTrue result → (i : ℕ) (it : AnyItem) → slice_get others.now i ≡ Some it
        → ItemsApart it item }
{
    let mut i = 0;
    'others: while i < others.len() {
        let other = others[i];
        if other.key == item.key || !ends_before(other, item) && !ends_before(item, other) {
            return false;
        }
        i += 1;
    }
    true
}

/// Whether one item ends where another begins, or before.
fn ends_before(one: Item, other: Item) -> bool
    ensures { IsTrue result → one.place + one.size ≤ other.place }
{
    one.place <= other.place && one.size <= other.place - one.place
}

/// Whether an item has the class of its size, from `b` on, and stands in a segment for it.
fn stands_well<const C: usize>(layout: &Layout<C>, b: u8, item: Item) -> bool
    requires fits { C ≤ 32 }
    ensures some { IsTrue result → 1 ≤ item.size }
    ensures class { IsTrue result → item.class ≡ class_of_lem item.size }
    ensures from { IsTrue result → b ≤ item.class }
    ensures stands { IsTrue result
        → IsTrue (stands_in_payload (divisor_of layout.now) (caps_of layout.now) item)
        ⊎ ((j : ℕ) × IsInBuffer (divisor_of layout.now) (caps_of layout.now) j item) }
{
    if item.size == 0 || item.size > 1 << 31 || item.place > 1 << 60 {
        return false;
    }
    if item.class != class_of(item.size) || item.class < b || item.class as usize >= C {
        return false;
    }
    let end = item.place + item.size;
    if layout.start(item.class) <= item.place && end <= layout.buffer_start(item.class) {
        return true;
    }
    is_in_buffer(layout, item)
}

/// Whether an item stands in a buffer from its class on.
fn is_in_buffer<const C: usize>(layout: &Layout<C>, item: Item) -> bool
    requires fits { C ≤ 32 }
    requires small { item.place + item.size < 2 ^ 62 }
    ensures { IsTrue result → (j : ℕ) × IsInBuffer (divisor_of layout.now) (caps_of layout.now) j item }
{
    let k = layout.k();
    let caps = layout.caps();
    let mut j = item.class;
    'buffers: while (j as usize) < C {
        let first = layout.buffer_start(j);
        let cap = caps.get(j);
        if first <= item.place && item.place + item.size <= first + cap / k {
            return true;
        }
        j += 1;
    }
    false
}
