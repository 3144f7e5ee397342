//! Lift: the objects of the buffers go past the wall, the one at the least place first.
ghost use Rattle.std.specs.Prelude.{◌≡◌, ℕ, ◌<◌, ◌≤◌, ◌↔◌, List, IfSome, IsNone, IsPermutation, IsTrue};
ghost use Rattle.segment_layout.specs.Layouts.{divisor_of, caps_of};
ghost use Rattle.flush_model.specs.declared.item.Item.{Item as AnyItem};
ghost use Rattle.flush_model.specs.{Plans.{relocated}, Phases.{bytes_below, IsLifted, lifted_in, PaysFor}, Steps.{IsLiftStep}, Begins.{Begins, pending_size, with_pending}};
ghost use Rattle.flush_plan.specs.{Shelves.{course_of, phase_on}, Lifts.{IsFirstUnlifted, KeepsLifting, Lifts}, Packs.{KeepsPacking}};

use crate::pack::Packing;
use crate::ranks::rank_from;
use crate::shelf::Shelf;
use flush_model::{Item, Move, Numbers, stands, starts_of};
use segment_layout::Layout;
use size_class::Row;
use std::marker::Model;

/// The moves of Lift. An object that stands in its payload segment isn't moved. The rank is that of the
/// object that was moved last, and no more than a hint.
#[derive(Drop)]
pub struct Lifting<const C: usize> {
    k: u64,
    caps: Row<C>,
    starts: Row<C>,
    numbers: Numbers,
    pending: u64,
    from: u64,
    to: u64,
    rank: u64,
}

impl<const C: usize> Model for Lifting<C> {
    ghost use Rattle.size_class.specs.Rows.{cells_of};
    ghost use Rattle.flush_model.specs.Segments.{AreStarts};
    ghost use Rattle.flush_plan.specs.{Shelves.{course_of}, Lifts.{Lift}};

    ghost Value = { Lift };

    ghost view = { λ p. record {
      course = course_of p.k (cells_of p.caps) p.numbers p.pending;
      from = p.from;
      to = p.to;
    } };

    ghost invariant = { λ p. AreStarts C p.k (cells_of p.caps) (cells_of p.starts) };
}

impl<const C: usize> Lifting<C> {
    /// Begins a flush of the objects from the start of its suffix on, and of a pending one that was
    /// written past the room for what is lifted and stands on the shelf. Nothing is looked up yet.
    pub fn new<S: Shelf>(
        layout: &Layout<C>,
        numbers: Numbers,
        _shelf: &S,
        pending: Option<Item>,
    ) -> Lifting<C>
        requires fits { C ≤ 32 }
        requires boundary { numbers.boundary < C }
        requires class { IfSome pending (λ item. item.class < C) }
        ensures course { result.course
            ≡ course_of (divisor_of layout.now) (caps_of layout.now) numbers (pending_size pending) }
        ensures keeps { (items all : List AnyItem)
            → Begins (divisor_of layout.now) (caps_of layout.now) numbers items pending
            → IsPermutation (with_pending items pending) all → KeepsLifting C result all }
        ensures none { (items all : List AnyItem) (c : ℕ)
            → Begins (divisor_of layout.now) (caps_of layout.now) numbers items pending
            → IsPermutation (with_pending items pending) all
            → lifted_in (phase_on result.course all) c ≡ 0 }
    {
        Lifting {
            k: layout.k(),
            caps: layout.caps(),
            starts: starts_of(layout),
            numbers,
            pending: size_of(pending),
            from: numbers.start,
            to: numbers.wall,
            rank: 0,
        }
    }

    /// The next move, which counts as done; None at the phase's end.
    pub fn next<S: Shelf>(&mut self, shelf: &S) -> Option<Move>
        requires lifts { (items : List AnyItem) × Lifts C self.old items (S.items shelf.now) }
        ensures course { self.new.course ≡ self.old.course }
        ensures step { (items : List AnyItem) → Lifts C self.old items (S.items shelf.now)
            → IfSome result (λ mv. IsLiftStep (phase_on self.old.course items) mv) }
        ensures keeps { (items : List AnyItem) → Lifts C self.old items (S.items shelf.now)
            → IfSome result (λ mv. KeepsLifting C self.new (relocated mv.key mv.to items)) }
        ensures end { (items : List AnyItem) → Lifts C self.old items (S.items shelf.now)
            → (IsNone result ↔ IsLifted (phase_on self.old.course items)) }
        ensures same { IsNone result → self.new ≡ self.old }
    {
        let (item, rank) = self.first_unlifted(shelf)?;
        let to = self.to;
        self.from = item.place + 1;
        self.to += item.size;
        self.rank = rank;
        Some(Move {
            key: item.key,
            class: item.class,
            from: item.place,
            to,
            size: item.size,
        })
    }

    /// Whether no move is left. It takes as long as the next move does.
    pub fn at_end<S: Shelf>(&self, shelf: &S) -> bool
        requires lifts { (items : List AnyItem) × Lifts C self.now items (S.items shelf.now) }
        ensures { (items : List AnyItem) → Lifts C self.now items (S.items shelf.now)
            → (IsTrue result ↔ IsLifted (phase_on self.now.course items)) }
    {
        self.first_unlifted(shelf).is_none()
    }

    /// The numbers that the flush began with.
    pub fn numbers(&self) -> Numbers
        ensures { result ≡ self.now.course.numbers }
    {
        self.numbers
    }

    /// The same once more.
    pub fn copied(&self) -> Lifting<C>
        ensures { result ≡ self.now }
    {
        Lifting {
            k: self.k,
            caps: self.caps,
            starts: self.starts,
            numbers: self.numbers,
            pending: self.pending,
            from: self.from,
            to: self.to,
            rank: self.rank,
        }
    }

    /// Goes on with Pack, at the phase's end. Nothing is looked up yet.
    pub fn into_packing<S: Shelf>(self, _shelf: &S) -> Packing<C>
        ensures course { result.course ≡ self.entry.course }
        ensures keeps { (items : List AnyItem) → KeepsLifting C self.entry items
            → IsLifted (phase_on self.entry.course items) → KeepsPacking C result items }
        ensures pays { (items : List AnyItem) → KeepsLifting C self.entry items
            → IsLifted (phase_on self.entry.course items)
            → PaysFor (phase_on result.course items) (bytes_below (phase_on result.course items)) }
    {
        let Lifting {
            k,
            caps,
            starts: _,
            numbers,
            pending,
            from: _,
            to: _,
            rank,
        } = self;
        Packing {
            k,
            caps,
            numbers,
            pending,
            top: numbers.wall,
            rank,
        }
    }

    /// The first object below the wall that doesn't stand in its payload segment, and its rank. Where an
    /// object stands in one, all that follow up to the segment's end do, so it is looked at once for
    /// each class at most.
    fn first_unlifted<S: Shelf>(&self, shelf: &S) -> Option<(Item, u64)>
        requires lifts { (items : List AnyItem) × Lifts C self.now items (S.items shelf.now) }
        ensures some { (items : List AnyItem) → Lifts C self.now items (S.items shelf.now)
            → IfSome result (λ found. IsFirstUnlifted self.now.course items found.0) }
        ensures none { (items : List AnyItem) → Lifts C self.now items (S.items shelf.now)
            → IsNone result → IsLifted (phase_on self.now.course items) }
    {
        let mut from = self.from;
        let mut rank = self.rank;
        'segments: while from < self.numbers.wall {
            rank = rank_from(shelf, from, rank);
            if rank == shelf.len() {
                return None;
            }
            let item = shelf.item(rank);
            if item.place >= self.numbers.wall {
                return None;
            }
            if !stands(&self.starts, &self.caps, item) {
                return Some((item, rank));
            }
            from = self.starts.get(item.class) + self.caps.get(item.class);
        }
        None
    }
}

/// The size of the pending item, or 0.
fn size_of(pending: Option<Item>) -> u64
    ensures { result ≡ pending_size pending }
{
    match pending {
        None => 0,
        Some(item) => item.size,
    }
}
