//! What a session puts that goes on from a map: one object is put, all are read, and a checkpoint is saved.
use row_vectors::inputs::{DATA_A, DATA_B, DATA_C, KEPT, MISSING, OK};

/// Its input, of eight requests.
pub const FURTHER: &str = "put d 7\nABCDEFG\nget a\nget b\nget c\nget d\nlist\nstat\nkeep\n";

/// The reply that has the object that was put.
const DATA_D: &str = "data 7\nABCDEFG\n";

/// From no object.
pub const NONE: &[&str] = &[
    KEPT,
    MISSING,
    MISSING,
    MISSING,
    DATA_D,
    "list 1\nd 7\n",
    "stat 1 7 1 7\n",
    KEPT,
];

/// From `a` of 100 bytes.
pub const ONE: &[&str] = &[
    OK,
    DATA_A,
    MISSING,
    MISSING,
    DATA_D,
    "list 2\na 100\nd 7\n",
    "stat 2 107 1 100\n",
    KEPT,
];

/// From `a` of 100 bytes, `b` of 10 and `c` of 5.
pub const THREE: &[&str] = &[
    OK,
    DATA_A,
    DATA_B,
    DATA_C,
    DATA_D,
    "list 4\na 100\nb 10\nc 5\nd 7\n",
    "stat 4 122 3 115\n",
    KEPT,
];

/// From `a` of 10 bytes.
pub const TEN: &[&str] = &[
    KEPT,
    DATA_B,
    MISSING,
    MISSING,
    DATA_D,
    "list 2\na 10\nd 7\n",
    "stat 2 17 2 17\n",
    KEPT,
];
