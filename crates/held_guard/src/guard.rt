//! The guard of held space.
ghost use Rattle.std.specs.Prelude.{◌≡◌, ◌<◌, ◌≤◌, ◌↔◌, ◌*◌, ◌+◌, ℕ, [], All, Any, IfOk, IsFalse, IsTrue, length, slice_index_or};
ghost use Rattle.held_guard.specs.Freed.{AreInOrder, Joins};
ghost use Rattle.span_math.specs.{Lists.{RisesWithin}, Spans.{IsApart, SharesByte}};
ghost use Rattle.span_math.specs.declared.span.Span.{Span as AnySpan};

use crate::search::begun_before;
use slot_codec::NoMemory;
use span_math::{Span, SpanList, Steps, meets};
use std::alloc::Global;
use std::marker::{Brand, Model};
use std::sync::ledger::{Blank, Ledger};

/// The spans of the last checkpoint's objects that don't stand there now. Contracts see them sorted by
/// place, and for how many it has room.
#[derive(Drop)]
pub struct Guard {
    list: SpanList,
}

impl Model for Guard {
    ghost use Rattle.held_guard.specs.Freed.{AreInOrder, Freed};

    ghost Value = { Freed };

    ghost view = { λ guard. record { room = guard.list.room; spans = guard.list.spans } };

    ghost invariant = { λ guard. AreInOrder guard.list.spans };
}

impl Guard {
    /// A guard without spans, which has room for as many as a store may have names, at most 65,536.
    /// It takes the memory that it will ever have.
    pub fn with_room(alloc: Global, names: u64) -> Result<Guard, NoMemory>
        requires { names ≤ 65536 }
        ensures empty { IfOk result (λ guard. guard.spans ≡ []) }
        ensures room { IfOk result (λ guard. guard.room ≡ names) }
    {
        let list = SpanList::with_room(alloc, names)?;
        Ok(Guard { list })
    }

    /// Holds a span that was freed: an object of the last checkpoint doesn't stand there any more. It
    /// meets none that is held. An empty span isn't held.
    pub fn freed(&mut self, span: Span)
        requires room { length self.old.spans < self.old.room }
        requires apart { All (λ other. IsApart other span) self.old.spans }
        ensures joins { 0 < span.size → Joins span self.old.spans self.new.spans }
        ensures order { AreInOrder self.new.spans }
        ensures empty { span.size ≡ 0 → self.new.spans ≡ self.old.spans }
        ensures room { self.new.room ≡ self.old.room }
    {
        if span.size > 0 {
            let place = place_of::<Brand>(&self.list, span.end(), Blank::new(1));
            self.list.insert(place, span);
        }
    }

    /// Whether a span shares a byte with one that is held. Each held span that it looks at is a step: of
    /// `n` that are held an r with 2^r at most 4n + 2.
    pub fn touches_in<L: Ledger>(&self, span: Span, steps: &mut Steps<L>) -> bool
        ensures shares { IsTrue result ↔ Any (λ held. SharesByte held span) self.now.spans }
        ensures apart { IsFalse result → All (λ held. IsApart held span) self.now.spans }
        ensures steps { RisesWithin (4 * length self.now.spans + 2) steps.old steps.new }
    {
        let begun = begun_before(&self.list, span.end(), steps);
        begun > 0 && meets(self.list.look(begun - 1, steps), span)
    }

    /// Whether a span shares a byte with one that is held.
    pub fn touches(&self, span: Span) -> bool
        ensures shares { IsTrue result ↔ Any (λ held. SharesByte held span) self.now.spans }
        ensures apart { IsFalse result → All (λ held. IsApart held span) self.now.spans }
    {
        has_touched::<Brand>(self, span, Blank::new(1))
    }

    /// Holds nothing any more: a checkpoint was saved, or the store went back to one.
    pub fn clear(&mut self)
        ensures empty { self.new.spans ≡ [] }
        ensures room { self.new.room ≡ self.old.room }
    {
        self.list.clear();
    }
}

/// How many spans of a list in order begin before an end, where nobody asks for the steps.
fn place_of<L: Ledger>(list: &SpanList, end: u64, blank: Blank) -> u64
    requires order { AreInOrder list.now.spans }
    requires name { blank.name ≡ L.name }
    requires parts { blank.parts ≡ L.parts }
    requires some { 0 < blank.parts }
    ensures within { result ≤ length list.now.spans }
    ensures below { (k : ℕ) (d : AnySpan) → k < result → (slice_index_or list.now.spans k d).place < end }
    ensures above { (k : ℕ) (d : AnySpan) → result ≤ k → k < length list.now.spans
        → end ≤ (slice_index_or list.now.spans k d).place }
{
    let mut steps = Steps::<L>::new(blank);
    begun_before(list, end, &mut steps)
}

/// Whether a span shares a byte with one that is held, where nobody asks for the steps.
fn has_touched<L: Ledger>(guard: &Guard, span: Span, blank: Blank) -> bool
    requires name { blank.name ≡ L.name }
    requires parts { blank.parts ≡ L.parts }
    requires some { 0 < blank.parts }
    ensures shares { IsTrue result ↔ Any (λ held. SharesByte held span) guard.now.spans }
    ensures apart { IsFalse result → All (λ held. IsApart held span) guard.now.spans }
{
    let mut steps = Steps::<L>::new(blank);
    guard.touches_in(span, &mut steps)
}
