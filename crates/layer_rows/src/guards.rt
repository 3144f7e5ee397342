//! Worked guards.
use crate::rows::try_holds;
use held_guard::Guard;
use span_math::Span;

/// A place, a size, and whether the guard of 20 to 24 and 0 to 9 is met there.
const ROWS: &[(u64, u64, bool)] = &[
    (10, 10, false),
    (9, 1, true),
    (24, 1, true),
    (25, 100, false),
    (5, 0, false),
];

#[test]
fn only_a_shared_byte_is_met(rt: HostRuntime) {
    let mut guard = Guard::with_room(rt.alloc(), 2).expect(&rt, "no memory");
    guard.freed(Span { place: 20, size: 5 });
    guard.freed(Span { place: 0, size: 10 });
    for (place, size, is_met) in ROWS {
        let (place, size) = (*place, *size);
        let is_touched = guard.touches(Span { place, size });
        try_holds(&rt, is_touched == *is_met, &place);
    }
}
