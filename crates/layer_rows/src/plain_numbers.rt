//! Worked lengths within the bounds, and worked classes, as the plain definitions have them.
use crate::rows::try_holds;
use plain_layout::{Sizes, class_of, is_loose, is_tight};
use std::process::Abort;

/// A divisor, the bytes of all objects together, and the most bytes that a data part may have.
type Bound = (u64, u64, u64);

const TIGHT: &[Bound] = &[
    (9, 0, 0),
    (9, 100, 125),
    (9, 115, 143),
    (2, 1, 3),
    (64, 63, 65),
];

/// The bytes are those of one object.
const LOOSE: &[Bound] = &[(9, 100, 450), (2, 1, 8)];

/// Sizes, and their classes.
const CLASSES: &[(u64, u8)] = &[
    (0, 0),
    (1, 0),
    (2, 1),
    (3, 1),
    (4, 2),
    (1_048_575, 19),
    (1_048_576, 20),
    (67_108_863, 25),
    (67_108_864, 26),
    (4_294_967_296, 31),
];

/// Tries the bound between requests, and one byte more.
fn try_tight(rt: &impl Abort, k: u64, bytes: u64, most: u64) {
    assert!(rt; 1 <= k && k <= 64 && most < u64::MAX);
    let is_within = is_tight(k, most, bytes);
    try_holds(rt, is_within && !is_tight(k, most + 1, bytes), &(k, bytes));
}

/// Tries the bound within a request that puts the one object or removes it, and one byte more.
fn try_loose(rt: &impl Abort, k: u64, bytes: u64, most: u64) {
    assert!(rt; 1 <= k && k <= 64 && most < u64::MAX);
    let none = Sizes {
        volume: 0,
        largest: 0,
    };
    let one = Sizes {
        volume: bytes,
        largest: bytes,
    };
    let is_within = is_loose(k, most, none, one) && is_loose(k, most, one, none);
    try_holds(
        rt,
        is_within && !is_loose(k, most + 1, none, one),
        &(k, bytes),
    );
}

#[test]
fn lengths_within_bounds(rt: HostRuntime) {
    for (k, bytes, most) in TIGHT {
        try_tight(&rt, *k, *bytes, *most);
    }
    for (k, bytes, most) in LOOSE {
        try_loose(&rt, *k, *bytes, *most);
    }
}

#[test]
fn classes_of_sizes(rt: HostRuntime) {
    for (size, class) in CLASSES {
        try_holds(&rt, class_of(*size) == *class, size);
    }
}
