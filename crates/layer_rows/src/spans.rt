//! Spans that share a byte, and some that don't.
use span_math::{Span, any_meets, meets};

const WIDE: Span = Span { place: 0, size: 10 };

const NEXT: Span = Span { place: 10, size: 5 };

const LAST: Span = Span { place: 9, size: 1 };

const EMPTY: Span = Span { place: 3, size: 0 };

/// Two spans, and whether they meet.
const PAIRS: [(Span, Span, bool); 4] = [
    (WIDE, NEXT, false),
    (WIDE, LAST, true),
    (EMPTY, WIDE, false),
    (WIDE, EMPTY, false),
];

#[test]
fn spans_meet_where_they_share_a_byte(rt: HostRuntime) {
    for (one, other, is_met) in PAIRS {
        assert!(rt; meets(one, other) == is_met);
    }
}

#[test]
fn a_span_meets_some_of_a_list(rt: HostRuntime) {
    assert!(rt; any_meets(&[NEXT, EMPTY, LAST], WIDE));
    assert!(rt; !any_meets(&[NEXT, EMPTY], WIDE));
}
