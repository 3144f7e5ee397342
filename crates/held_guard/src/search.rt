//! Where a place stands among the spans of a list.
ghost use Rattle.std.specs.Prelude.{ℕ, ◌*◌, ◌+◌, ◌<◌, ◌≤◌, length, slice_index_or};
ghost use Rattle.held_guard.specs.Freed.{AreInOrder};
ghost use Rattle.span_math.specs.Lists.{RisesWithin};
ghost use Rattle.span_math.specs.declared.span.Span.{Span as AnySpan};

use span_math::{SpanList, Steps};
use std::sync::ledger::Ledger;

/// How many spans of a list in order begin before an end. They stand first.
pub(crate) fn begun_before<L: Ledger>(list: &SpanList, end: u64, steps: &mut Steps<L>) -> u64
    requires order { AreInOrder list.now.spans }
    ensures within { result ≤ length list.now.spans }
    ensures below { (k : ℕ) (d : AnySpan) → k < result → (slice_index_or list.now.spans k d).place < end }
    ensures above { (k : ℕ) (d : AnySpan) → result ≤ k → k < length list.now.spans
        → end ≤ (slice_index_or list.now.spans k d).place }
    ensures steps { RisesWithin (2 * length list.now.spans + 1) steps.old steps.new }
{
    let mut low = 0;
    let mut high = list.len();
    'halves: while low < high {
        let middle = low + (high - low) / 2;
        if list.look(middle, steps).place < end {
            low = middle + 1;
        } else {
            high = middle;
        }
    }
    low
}
