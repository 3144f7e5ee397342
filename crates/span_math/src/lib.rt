//! Spans of bytes: where they end, and whether they share a byte.
#![tactic(auto)]

ghost use Rattle.std.specs.Prelude.{◌↔◌, ℕ};
ghost use Rattle.span_math.specs.declared.span.Span.{Span as AnySpan};
ghost use Rattle.span_math.specs.Spans.{Covers, SharesByte};

mod list;
mod meeting;
mod span;
mod steps;

pub use list::SpanList;
pub use meeting::{any_meets, meets};
pub use span::Span;
pub use steps::Steps;

/// Spans overlap as `meets` tests it exactly where some byte belongs to both.
pub fn spans_that_overlap_share_a_byte()
    ensures { (a b : AnySpan) → SharesByte a b ↔ ((place : ℕ) × Covers a place × Covers b place) }
{}
