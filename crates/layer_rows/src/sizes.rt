//! Classes and tables at known values.
use crate::rows::try_holds;
use size_class::{CLASSES, Grid, Row, SIZE_MAX, class_of, lg_up};

/// The last class.
const LAST: u8 = CLASSES as u8 - 1;

/// A size, and its class.
const SIZES: &[(u64, u8)] = &[
    (1, 0),
    (2, 1),
    (3, 1),
    (4, 2),
    (1_048_575, 19),
    (1_048_576, 20),
    (67_108_863, 25),
    (67_108_864, 26),
    (SIZE_MAX, LAST),
    (2_147_483_647, 30),
    (2_147_483_648, 31),
];

/// A number from 2 to 64, and the power of two from it on.
const POWERS: &[(u64, u64)] = &[(2, 1), (3, 2), (4, 2), (9, 4), (64, 6)];

/// Whether this is the class of a size, from 1 to 2^31.
fn is_class(size: u64, class: u8) -> bool {
    1 <= size && size <= 2_147_483_648 && class_of(size) == class
}

/// Whether this is the power of two from a number on, from 2 to 64.
fn is_power(k: u64, n: u64) -> bool {
    2 <= k && k <= 64 && lg_up(k) == n
}

#[test]
fn classes_of_sizes(rt: HostRuntime) {
    for (size, class) in SIZES {
        try_holds(&rt, is_class(*size, *class), size);
    }
}

#[test]
fn powers_from_numbers_on(rt: HostRuntime) {
    for (k, n) in POWERS {
        try_holds(&rt, is_power(*k, *n), k);
    }
}

/// A row of two classes, the last at the greatest number.
fn full_row() -> Row<CLASSES> {
    let mut row = Row::<CLASSES>::zero();
    row.set(6, 100);
    row.add(6, 11);
    row.add(LAST, u64::MAX);
    row.add(LAST, 1);
    row
}

#[test]
fn rows_keep_numbers(rt: HostRuntime) {
    let row = full_row();
    assert!(rt; (row.get(6), row.get(7), row.get(LAST)) == (111, 0, u64::MAX));
}

#[test]
fn grids_keep_numbers(rt: HostRuntime) {
    let mut grid = Grid::<CLASSES>::zero();
    grid.set(6, 3, 10);
    grid.set(7, 3, 1);
    assert!(rt; (grid.get(6, 3), grid.get(3, 6), grid.get(7, 3)) == (10, 0, 1));
}

#[test]
#[tactic(auto, unfolding(size_class::specs::Classes::zero_row))]
fn sums_of_a_row(rt: HostRuntime) {
    let mut row = Row::<CLASSES>::zero();
    row.set(6, 100);
    row.set(LAST, 16);
    assert!(rt; row.sum() == 116);
}

#[test]
#[tactic(auto, unfolding(size_class::specs::Classes::zero_row, size_class::specs::Classes::zero_grid))]
fn sums_of_a_grid(rt: HostRuntime) {
    let mut grid = Grid::<CLASSES>::zero();
    grid.set(6, 3, 10);
    grid.set(6, 5, 7);
    assert!(rt; grid.row_sum(6) == 17);
}
