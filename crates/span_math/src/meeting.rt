//! Whether spans share a byte.
ghost use Rattle.std.specs.Prelude.{◌↔◌, Any, All, IsTrue, IsFalse};
ghost use Rattle.span_math.specs.Spans.{SharesByte, IsApart};

use crate::Span;

/// Whether two spans share a byte. An empty span meets nothing, also inside another one, and spans
/// that only touch don't meet.
pub fn meets(a: Span, b: Span) -> bool
    ensures shares { IsTrue result ↔ SharesByte a b }
    ensures apart { IsFalse result → IsApart a b }
{
    a.size > 0 && b.size > 0 && a.place < b.end() && b.place < a.end()
}

/// Whether a span shares a byte with some span of a list.
pub fn any_meets(list: &[Span], s: Span) -> bool
    ensures shares { IsTrue result ↔ Any (λ other. SharesByte other s) list.now }
    ensures apart { IsFalse result → All (λ other. IsApart other s) list.now }
{
    for other in list {
        if meets(*other, s) {
            return true;
        }
    }
    false
}
