//! Lists of spans whose reads are counted.
ghost use Rattle.std.specs.Prelude.{◌≡◌, ◌+◌, ◌<◌, ◌≤◌, [], IfOk, Some, insert, length, slice_get};

use crate::{Span, Steps};
use slot_codec::NoMemory;
use std::alloc::Global;
use std::collections::VecDeque;
use std::marker::Model;
use std::sync::ledger::Ledger;

/// A list of spans with room for a number of them that is chosen once. Its spans are read by `look`
/// alone. It is a ring: a span that is inserted moves the fewer of those before it and those behind it.
#[derive(Drop)]
pub struct SpanList {
    room: u64,
    spans: VecDeque<Span>,
}

impl Model for SpanList {
    ghost use Rattle.std.specs.Prelude.{◌≤◌};
    ghost use Rattle.std.specs.VecDeque.{deque_len, deque_capacity};
    ghost use Rattle.span_math.specs.Lists.{SpansInRoom};

    ghost Value = { SpansInRoom };

    ghost view = { λ list. record { room = list.room; spans = list.spans.items } };

    ghost invariant = { λ list. (deque_len list.spans ≤ list.room)
        × (list.room ≤ deque_capacity list.spans) };
}

impl SpanList {
    /// A list without spans, which has room for `n`. It takes the memory that it will ever have.
    pub fn with_room(alloc: Global, n: u64) -> Result<SpanList, NoMemory>
        ensures empty { IfOk result (λ list. list.spans ≡ []) }
        ensures room { IfOk result (λ list. list.room ≡ n) }
    {
        match VecDeque::with_capacity(alloc, n as usize) {
            Ok(spans) => Ok(SpanList { room: n, spans }),
            Err(_) => Err(NoMemory),
        }
    }

    /// The number of spans.
    pub fn len(&self) -> u64
        ensures { result ≡ length self.now.spans }
    {
        self.spans.len() as u64
    }

    /// Span `i`, counted as one step.
    pub fn look<L: Ledger>(&self, i: u64, steps: &mut Steps<L>) -> Span
        requires within { i < length self.now.spans }
        ensures span { slice_get self.now.spans i ≡ Some result }
        ensures step { steps.new ≡ steps.old + 1 }
    {
        steps.take();
        *self.spans.get(i as usize).unwrap()
    }

    /// A span stands at `i` from here on, and those from `i` on stand one further.
    pub fn insert(&mut self, i: u64, s: Span)
        requires within { i ≤ length self.old.spans }
        requires room { length self.old.spans < self.old.room }
        ensures spans { self.new.spans ≡ insert self.old.spans i s }
        ensures room { self.new.room ≡ self.old.room }
    {
        self.spans.insert(i as usize, s).unwrap();
    }

    /// The list is empty from here on.
    pub fn clear(&mut self)
        ensures empty { self.new.spans ≡ [] }
        ensures room { self.new.room ≡ self.old.room }
    {
        self.spans.clear();
    }
}
