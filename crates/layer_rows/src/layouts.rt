//! Charges, boundaries and ends at known values.
ghost use Rattle.std.specs.Prelude.{◌<◌, ◌≤◌, ◌^◌, ℕ, slice_index};
ghost use Rattle.size_class.specs.Rows.{cells_of};

use crate::rows::try_holds;
use segment_layout::{Charge, Layout};
use size_class::{CLASSES, Row, SIZE_MAX, class_of};

/// A class, a size of it, and where such bytes are charged, if anywhere.
type Charging = (u8, u64, Option<Charge>);

/// What is charged beside an object of 100 bytes.
const BESIDE: &[Charging] = &[
    (
        3,
        10,
        Some(Charge {
            buffer: 6,
            place: 100,
        }),
    ),
    (2, 5, None),
];

/// A class, and the boundary from it down.
const BOUNDARIES: &[(u8, u8)] = &[(2, 2), (3, 3), (6, 3)];

/// What is charged where there is one class.
const ALONE: &[Charging] = &[
    (
        0,
        1,
        Some(Charge {
            buffer: 0,
            place: 4,
        }),
    ),
    (
        0,
        1,
        Some(Charge {
            buffer: 0,
            place: 5,
        }),
    ),
    (0, 1, None),
];

/// A class, and where its segment and its buffer begin.
const SEGMENTS: &[(u8, u64, u64)] = &[(2, 0, 10), (3, 12, 21), (CLASSES as u8 - 1, 23, 23)];

/// A place, and whether it lies in the payload segment of class 3.
const PLACES: &[(u64, bool)] = &[(11, false), (12, true), (20, true), (21, false)];

/// The volumes of two classes, below 2^48 bytes, and 0 for every other class.
fn volumes<const C: usize>(first: u8, small: u64, second: u8, large: u64) -> Row<C>
    requires first { first < C }
    requires second { second < C }
    requires fits { C ≤ 32 }
    requires small { small < 2 ^ 48 }
    requires large { large < 2 ^ 48 }
    ensures { (c : ℕ) → slice_index (cells_of result) c < 2 ^ 48 }
{
    let mut row = Row::zero();
    row.set(first, small);
    row.set(second, large);
    row
}

/// Lays every class out anew.
#[tactic(auto, using(segment_layout::proofs::ShapeLaws::boundary_zero))]
fn settle<const C: usize>(layout: &mut Layout<C>, volumes: &Row<C>)
    requires some { 0 < C }
    requires fits { C ≤ 32 }
    requires volumes { (c : ℕ) → slice_index (cells_of volumes.now) c < 2 ^ 48 }
{
    layout.settle(0, volumes);
}

/// Whether bytes are charged so, the size being of the class.
fn is_charged<const C: usize>(layout: &mut Layout<C>, charging: &Charging) -> bool
    requires fits { C ≤ 32 }
{
    let (class, size, wanted) = *charging;
    (class as usize) < C
        && 1 <= size
        && size <= SIZE_MAX
        && class_of(size) == class
        && layout.charge(class, size) == wanted
}

/// Whether the bytes of each row are charged so, one after another.
fn are_charged<const C: usize>(layout: &mut Layout<C>, rows: &[Charging]) -> bool
    requires fits { C ≤ 32 }
{
    for charging in rows {
        if !is_charged(layout, charging) {
            return false;
        }
    }
    true
}

#[test]
fn a_small_object_beside_a_large_one(rt: HostRuntime) {
    let mut layout = Layout::<CLASSES>::empty(9);
    assert!(rt; is_charged(&mut layout, &(6, 100, None)));
    settle(&mut layout, &volumes(0, 0, 6, 100));
    assert!(rt; layout.end() == 111);
    assert!(rt; are_charged(&mut layout, BESIDE));
    for (class, boundary) in BOUNDARIES {
        assert!(rt; (*class as usize) < CLASSES && layout.boundary(*class) == *boundary);
    }
}

#[test]
fn one_class_alone(rt: HostRuntime) {
    let mut layout = Layout::<1>::empty(2);
    settle(&mut layout, &volumes(0, 0, 0, 4));
    assert!(rt; layout.end() == 6);
    assert!(rt; are_charged(&mut layout, ALONE));
}

/// The layout of 10 bytes of class 2 and 9 of class 3.
fn two_classes() -> Layout<CLASSES> {
    let mut layout = Layout::<CLASSES>::empty(4);
    settle(&mut layout, &volumes(2, 10, 3, 9));
    layout
}

/// Whether the segment and the buffer of a class begin there.
fn is_segment(layout: &Layout<CLASSES>, class: u8, start: u64, buffer: u64) -> bool {
    (class as usize) < CLASSES
        && layout.start(class) == start
        && layout.buffer_start(class) == buffer
}

#[test]
fn segments_of_a_layout(rt: HostRuntime) {
    let layout = two_classes();
    for (class, start, buffer) in SEGMENTS {
        try_holds(&rt, is_segment(&layout, *class, *start, *buffer), class);
    }
}

#[test]
fn places_of_a_payload(rt: HostRuntime) {
    let layout = two_classes();
    for (place, is_in) in PLACES {
        try_holds(&rt, layout.in_payload(3, *place) == *is_in, place);
    }
}

#[test]
fn a_layout_of_the_same_numbers(rt: HostRuntime) {
    let layout = two_classes();
    let copy = Layout::of(layout.k(), layout.caps(), layout.used());
    assert!(rt; (copy.end(), copy.k()) == (23, 4));
    assert!(rt; (copy.caps().get(3), copy.used().get(3, 3)) == (9, 0));
}
