//! Pack: the objects below the wall go up to it, the one at the greatest place first.
ghost use Rattle.std.specs.Prelude.{◌≡◌, ◌≢◌, ℕ, ◌+◌, ◌<◌, ◌≤◌, ◌↔◌, List, Contains, IfSome, IsNone, IsTrue};
ghost use Rattle.segment_layout.specs.Layouts.{caps_of, divisor_of};
ghost use Rattle.flush_model.specs.declared.item.Item.{Item as AnyItem};
ghost use Rattle.flush_model.specs.{Plans.{relocated}, Phases.{IsPackedWhole}, Steps.{IsPackStep}};
ghost use Rattle.flush_plan.specs.{Shelves.{course_of, IsLastBefore, IsOnShelf, IsShelf, phase_on}, Packs.{CanGoOn, IsPackedFrom, KeepsPacking, Packs}, Lays.{KeepsLaying}};

use crate::lay::{Laying, next_segment};
use crate::ranks::rank_from;
use crate::shelf::Shelf;
use crate::volumes::volumes_from;
use flush_model::{Item, Move, Numbers, places_of};
use segment_layout::Layout;
use size_class::Row;
use std::marker::Model;

/// The moves of Pack. An object that ends where the one above it begins, or at the wall, isn't moved.
/// The rank is that of the last object that was touched, and no more than a hint.
#[derive(Drop)]
pub struct Packing<const C: usize> {
    pub(crate) k: u64,
    pub(crate) caps: Row<C>,
    pub(crate) numbers: Numbers,
    pub(crate) pending: u64,
    pub(crate) top: u64,
    pub(crate) rank: u64,
}

impl<const C: usize> Model for Packing<C> {
    ghost use Rattle.size_class.specs.Rows.{cells_of};
    ghost use Rattle.flush_plan.specs.{Shelves.{course_of}, Packs.{Pack}};

    ghost Value = { Pack };

    ghost view = { λ p. record {
      course = course_of p.k (cells_of p.caps) p.numbers p.pending;
      top = p.top;
    } };
}

impl<const C: usize> Packing<C> {
    /// Goes on with a flush that was interrupted, from any places that keep the rules of a moving table.
    /// It passes over what is packed already.
    pub fn resume<S: Shelf>(layout: &Layout<C>, numbers: Numbers, shelf: &S) -> Packing<C>
        requires fits { C ≤ 32 }
        requires boundary { numbers.boundary < C }
        requires goes_on { (items : List AnyItem)
            × CanGoOn C (divisor_of layout.now) (caps_of layout.now) numbers items (S.items shelf.now) }
        ensures course { result.course
            ≡ course_of (divisor_of layout.now) (caps_of layout.now) numbers 0 }
        ensures keeps { (items : List AnyItem)
            → CanGoOn C (divisor_of layout.now) (caps_of layout.now) numbers items (S.items shelf.now)
            → KeepsPacking C result items }
    {
        let objects = shelf.len();
        let (top, rank) = packed_down(layout, numbers, shelf, objects);
        Packing {
            k: layout.k(),
            caps: layout.caps(),
            numbers,
            pending: 0,
            top,
            rank,
        }
    }

    /// The next move, which counts as done; None at the phase's end.
    pub fn next<S: Shelf>(&mut self, shelf: &S) -> Option<Move>
        requires packs { (items : List AnyItem) × Packs C self.old items (S.items shelf.now) }
        ensures course { self.new.course ≡ self.old.course }
        ensures step { (items : List AnyItem) → Packs C self.old items (S.items shelf.now)
            → IfSome result (λ mv. IsPackStep (phase_on self.old.course items) mv) }
        ensures keeps { (items : List AnyItem) → Packs C self.old items (S.items shelf.now)
            → IfSome result (λ mv. KeepsPacking C self.new (relocated mv.key mv.to items)) }
        ensures same { IsNone result → self.new ≡ self.old }
        ensures end { (items : List AnyItem) → Packs C self.old items (S.items shelf.now)
            → (IsNone result ↔ IsPackedWhole (phase_on self.old.course items)) }
    {
        let (at, item) = last_before(shelf, self.numbers.start, self.top, self.rank)?;
        let to = self.top - item.size;
        self.rank = at;
        self.top = to;
        Some(Move {
            key: item.key,
            class: item.class,
            from: item.place,
            to,
            size: item.size,
        })
    }

    /// Whether no move is left.
    pub fn at_end<S: Shelf>(&self, shelf: &S) -> bool
        requires packs { (items : List AnyItem) × Packs C self.now items (S.items shelf.now) }
        ensures { (items : List AnyItem) → Packs C self.now items (S.items shelf.now)
            → (IsTrue result ↔ IsPackedWhole (phase_on self.now.course items)) }
    {
        last_before(shelf, self.numbers.start, self.top, self.rank).is_none()
    }

    /// The same once more.
    pub fn copied(&self) -> Packing<C>
        ensures { result ≡ self.now }
    {
        Packing {
            k: self.k,
            caps: self.caps,
            numbers: self.numbers,
            pending: self.pending,
            top: self.top,
            rank: self.rank,
        }
    }

    /// Goes on with Lay.
    pub fn into_laying<S: Shelf>(self, shelf: &S) -> Laying<C>
        requires end { (items : List AnyItem) × Packs C self items (S.items shelf.now)
            × IsPackedWhole (phase_on self.course items) }
        ensures course { result.course ≡ self.entry.course }
        ensures keeps { (items : List AnyItem) → Packs C self.entry items (S.items shelf.now)
            → IsPackedWhole (phase_on self.entry.course items) → KeepsLaying C result items }
    {
        let volumes = volumes_from(shelf, self.numbers.start);
        let (places, _) = places_of(&volumes, self.numbers.start, self.numbers.boundary, self.k);
        let (class, to) = next_segment(&volumes, &places, self.numbers.boundary);
        Laying {
            k: self.k,
            caps: self.caps,
            numbers: self.numbers,
            pending: self.pending,
            volumes,
            places,
            class,
            to,
            ahead: self.numbers.wall,
            near: self.rank,
            far: self.rank,
        }
    }

    /// The numbers that the flush began with.
    pub fn numbers(&self) -> Numbers
        ensures { result ≡ self.now.course.numbers }
    {
        self.numbers
    }
}

/// The last object of the suffix that begins before a place, with its rank. The hint is a rank near it.
fn last_before<S: Shelf>(shelf: &S, start: u64, place: u64, hint: u64) -> Option<(u64, Item)>
    requires rises { IsShelf (S.items shelf.now) }
    ensures none { IsNone result → (items : List AnyItem) → IsOnShelf start items (S.items shelf.now)
        → (it : AnyItem) → Contains items it → place ≤ it.place }
    ensures last { IfSome result (λ r. (items : List AnyItem) → IsOnShelf start items (S.items shelf.now)
        → IsLastBefore items place r.1) }
{
    let rank = rank_from(shelf, place, hint);
    if rank == 0 {
        return None;
    }
    let item = shelf.item(rank - 1);
    if item.place < start {
        return None;
    }
    Some((rank - 1, item))
}

/// Goes down past what is packed: the place from which all is packed, and a rank near it.
fn packed_down<S: Shelf, const C: usize>(
    layout: &Layout<C>,
    numbers: Numbers,
    shelf: &S,
    hint: u64,
) -> (u64, u64)
    requires goes_on { (items : List AnyItem)
        × CanGoOn C (divisor_of layout.now) (caps_of layout.now) numbers items (S.items shelf.now) }
    ensures packed { (items : List AnyItem)
        → CanGoOn C (divisor_of layout.now) (caps_of layout.now) numbers items (S.items shelf.now)
        → IsPackedFrom numbers items result.0 }
    ensures loose { (items : List AnyItem)
        → CanGoOn C (divisor_of layout.now) (caps_of layout.now) numbers items (S.items shelf.now)
        → (it : AnyItem) → Contains items it → it.place < result.0 → it.place + it.size ≢ result.0 }
{
    let mut top = numbers.wall;
    let mut rank = hint;
    'down: while let Some((at, item)) = last_before(shelf, numbers.start, top, rank) {
        if item.place + item.size != top {
            return (top, at);
        }
        top = item.place;
        rank = at;
    }
    (top, rank)
}
