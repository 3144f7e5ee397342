//! Lay: the objects go down to their new places, in the order of class and place.
ghost use Rattle.std.specs.Prelude.{◌≡◌, ◌≢◌, ℕ, ◌+◌, ◌<◌, ◌≤◌, ◌↔◌, List, IfSome, IsNone, IsTrue, length, slice_get, slice_index, Some};
ghost use Rattle.size_class.specs.Rows.{cells_of};
ghost use Rattle.flush_model.specs.declared.item.Item.{Item as AnyItem};
ghost use Rattle.flush_model.specs.{Plans.{relocated}, Phases.{IsLaidWhole}, Steps.{IsLayStep}};
ghost use Rattle.flush_plan.specs.{Shelves.{IsFirstOf, phase_on}, Lays.{HasSettled, IsNextClass, KeepsLaying, Lays, StandsPast}};

use crate::ranks::rank_from;
use crate::settled::Settled;
use crate::shelf::Shelf;
use flush_model::{Item, Move, Numbers};
use size_class::Row;
use std::marker::Model;

/// The moves of Lay, class by class. The two ranks are those that were found last for the place where
/// the next object goes and for the objects past the wall, and no more than hints.
#[derive(Drop)]
pub struct Laying<const C: usize> {
    pub(crate) k: u64,
    pub(crate) caps: Row<C>,
    pub(crate) numbers: Numbers,
    pub(crate) pending: u64,
    pub(crate) volumes: Row<C>,
    pub(crate) places: Row<C>,
    pub(crate) class: u8,
    pub(crate) to: u64,
    pub(crate) ahead: u64,
    pub(crate) near: u64,
    pub(crate) far: u64,
}

impl<const C: usize> Model for Laying<C> {
    ghost use Rattle.std.specs.Prelude.{slice_index};
    ghost use Rattle.size_class.specs.Rows.{cells_of};
    ghost use Rattle.flush_model.specs.Segments.{ArePlaces};
    ghost use Rattle.flush_plan.specs.{Shelves.{course_of}, Lays.{Lay}};

    ghost Value = { Lay };

    ghost view = { λ p. record {
      course = course_of p.k (cells_of p.caps) p.numbers p.pending;
      volumes = cells_of p.volumes;
      class = p.class;
      to = p.to;
      ahead = p.ahead;
    } };

    ghost invariant = { λ p. ArePlaces p.k p.numbers.start p.numbers.boundary
        (slice_index (cells_of p.volumes)) C (cells_of p.places) };
}

/// The object that is to be laid, with ranks near it.
#[derive(Clone, Copy)]
struct Waiting {
    item: Item,
    near: u64,
    far: u64,
}

impl<const C: usize> Laying<C> {
    /// The next move, which counts as done; None at the phase's end.
    pub fn next<S: Shelf>(&mut self, shelf: &S) -> Option<Move>
        requires lays { (items : List AnyItem) × Lays C self.old items (S.items shelf.now) }
        ensures course { self.new.course ≡ self.old.course }
        ensures step { (items : List AnyItem) → Lays C self.old items (S.items shelf.now)
            → IfSome result (λ mv. IsLayStep (phase_on self.old.course items) mv) }
        ensures keeps { (items : List AnyItem) → Lays C self.old items (S.items shelf.now)
            → IfSome result (λ mv. KeepsLaying C self.new (relocated mv.key mv.to items)) }
        ensures same { IsNone result → self.new ≡ self.old }
        ensures end { (items : List AnyItem) → Lays C self.old items (S.items shelf.now)
            → (IsNone result ↔ IsLaidWhole (phase_on self.old.course items)) }
    {
        if self.class as usize >= C {
            return None;
        }
        let found = self.waiting(shelf);
        let item = found.item;
        let to = self.to;
        self.near = found.near;
        self.far = found.far;
        self.go_on(item);
        Some(Move {
            key: item.key,
            class: item.class,
            from: item.place,
            to,
            size: item.size,
        })
    }

    /// Whether no move is left. It is known without the shelf.
    pub fn at_end<S: Shelf>(&self, _shelf: &S) -> bool
        requires keeps { (items : List AnyItem) × KeepsLaying C self.now items }
        ensures { (items : List AnyItem) → KeepsLaying C self.now items
            → (IsTrue result ↔ IsLaidWhole (phase_on self.now.course items)) }
    {
        self.class as usize >= C
    }

    /// The numbers that the flush began with.
    pub fn numbers(&self) -> Numbers
        ensures { result ≡ self.now.course.numbers }
    {
        self.numbers
    }

    /// The same once more.
    pub fn copied(&self) -> Laying<C>
        ensures { result ≡ self.now }
    {
        Laying {
            k: self.k,
            caps: self.caps,
            numbers: self.numbers,
            pending: self.pending,
            volumes: self.volumes,
            places: self.places,
            class: self.class,
            to: self.to,
            ahead: self.ahead,
            near: self.near,
            far: self.far,
        }
    }

    /// Hands on what was laid. The bytes of each class are known since the phase began.
    pub fn into_settled<S: Shelf>(self, _shelf: &S) -> Settled<C>
        ensures course { result.course ≡ self.entry.course }
        ensures settled { (items : List AnyItem) → KeepsLaying C self.entry items
            → IsLaidWhole (phase_on self.entry.course items) → HasSettled C result items }
    {
        Settled {
            k: self.k,
            caps: self.caps,
            numbers: self.numbers,
            pending: self.pending,
            volumes: self.volumes,
        }
    }

    /// The first object of the class that isn't laid.
    fn waiting<S: Shelf>(&self, shelf: &S) -> Waiting
        requires low { self.now.class < C }
        requires lays { (items : List AnyItem) × Lays C self.now items (S.items shelf.now) }
        ensures { (items : List AnyItem) → Lays C self.now items (S.items shelf.now)
            → IsFirstOf items self.now.class self.now.to result.item }
    {
        let (near, at_hand) = self.at_hand(shelf);
        if let Some(item) = at_hand {
            return Waiting {
                item,
                near,
                far: self.far,
            };
        }
        let from = rank_from(shelf, self.ahead, self.far);
        let far = of_class_from(shelf, self.class, from);
        Waiting {
            item: shelf.item(far),
            near,
            far,
        }
    }

    /// The first object from the place on where the next one goes, if it is of the class, and its rank.
    /// If there is none, those of the class that aren't laid stand past the wall.
    fn at_hand<S: Shelf>(&self, shelf: &S) -> (u64, Option<Item>)
        requires low { self.now.class < C }
        requires lays { (items : List AnyItem) × Lays C self.now items (S.items shelf.now) }
        ensures first { IfSome result.1 (λ m. (items : List AnyItem)
            → Lays C self.now items (S.items shelf.now)
            → IsFirstOf items self.now.class self.now.to m) }
        ensures none { IsNone result.1 → (items : List AnyItem) → Lays C self.now items (S.items shelf.now)
            → StandsPast self.now items }
    {
        let near = rank_from(shelf, self.to, self.near);
        if near == shelf.len() {
            return (near, None);
        }
        let item = shelf.item(near);
        if item.class != self.class {
            return (near, None);
        }
        (near, Some(item))
    }

    /// Goes on behind an object that is laid: in its class, or in the next one that has objects.
    fn go_on(&mut self, item: Item)
        requires low { self.old.class < C }
        requires waits { (items : List AnyItem) × KeepsLaying C self.old items
            × IsFirstOf items self.old.class self.old.to item }
        ensures course { self.new.course ≡ self.old.course }
        ensures keeps { (items : List AnyItem) → KeepsLaying C self.old items
            → IsFirstOf items self.old.class self.old.to item
            → KeepsLaying C self.new (relocated item.key self.old.to items) }
    {
        let behind = self.to + item.size;
        let end = self.places.get(self.class) + self.volumes.get(self.class);
        if behind < end {
            self.to = behind;
            self.ahead = self.ahead.max(item.place);
            return;
        }
        let (class, to) = next_segment(&self.volumes, &self.places, self.class + 1);
        self.class = class;
        self.to = to;
        self.ahead = self.numbers.wall;
    }
}

/// The first class from one on that has bytes, or `C`, and where its new segment begins.
pub(crate) fn next_segment<const C: usize>(volumes: &Row<C>, places: &Row<C>, from: u8) -> (u8, u64)
    requires fits { C ≤ 32 }
    requires from { from ≤ C }
    ensures class { IsNextClass C (cells_of volumes.now) from result.0 }
    ensures place { result.0 < C → result.1 ≡ slice_index (cells_of places.now) result.0 }
{
    let mut class = from;
    'classes: while (class as usize) < C {
        if volumes.get(class) > 0 {
            return (class, places.get(class));
        }
        class += 1;
    }
    (class, 0)
}

/// The rank of the first object of a class from a rank on, or how many objects there are.
fn of_class_from<S: Shelf>(shelf: &S, class: u8, from: u64) -> u64
    requires { from ≤ length (S.items shelf.now) }
    ensures low { from ≤ result }
    ensures skipped { (i : ℕ) (it : AnyItem) → from ≤ i → i < result
        → slice_get (S.items shelf.now) i ≡ Some it → it.class ≢ class }
    ensures found { (it : AnyItem) → slice_get (S.items shelf.now) result ≡ Some it → it.class ≡ class }
{
    let objects = shelf.len();
    let mut rank = from;
    'objects: while rank < objects {
        if shelf.item(rank).class == class {
            return rank;
        }
        rank += 1;
    }
    rank
}
