//! Weights and factors at known values.
use crate::rows::try_holds;
use move_cost::{Flat, Linear, Seek, factor, weighted};
use size_class::{CLASSES, Row};

/// A divisor, and its factor.
const FACTORS: &[(u64, u64)] = &[(2, 79), (9, 561), (64, 4995)];

/// Whether this is the factor of a divisor, from 2 to 64.
fn is_factor(k: u64, wanted: u64) -> bool {
    2 <= k && k <= 64 && factor(k) == wanted
}

#[test]
fn factors(rt: HostRuntime) {
    for (k, wanted) in FACTORS {
        try_holds(&rt, is_factor(*k, *wanted), k);
    }
}

/// A row of three classes.
fn moved() -> Row<CLASSES> {
    let mut moved = Row::<CLASSES>::zero();
    moved.set(6, 300);
    moved.set(3, 20);
    moved.set(2, 5);
    moved
}

#[test]
fn weights_of_rows(rt: HostRuntime) {
    let moved = moved();
    assert!(rt; weighted(&Linear, &moved) == 21_810_380_800);
    assert!(rt; weighted(&Flat, &moved) == 566_231_040);
    assert!(rt; weighted(&Seek, &moved) == 58_049_167_360);
    assert!(rt; weighted(&Linear, &Row::<CLASSES>::zero()) == 0);
}
