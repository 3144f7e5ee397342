//! What `check` and `map` put of changed images.
use crate::answers::{CHECK, MAP, MOVED, got, try_unchanged};
use crate::images::{Change, image};
use std::alloc::Global;
use std::process::Abort;

/// Changes of an image, and what each of the two commands puts of it.
#[derive(Clone, Copy)]
struct Row {
    length: usize,
    changes: &'static [Change],
    check: &'static str,
    map: &'static str,
}

macro_rules! rows {
    ($($length:literal, $changes:expr => $check:literal $map:literal;)*) => {
        [$(Row { length: $length, changes: &$changes, check: $check, map: $map }),*]
    };
}

/// Puts the texts of a row's image, which is changed at first as all are.
fn try_row(rt: &impl Abort, alloc: Global, first: &[Change], row: &Row) {
    let bytes = got(rt, image(alloc, row.length, first, row.changes));
    try_unchanged(rt, alloc, &bytes, CHECK, 0, row.check);
    try_unchanged(rt, alloc, &bytes, MAP, 0, row.map);
}

/// Changes of the hand-made file.
const AT_REST: &[Row] = &rows! {
    19608, [] => "store 9 16 1 5 5 1 still\n" "class 2 5 0 0\nobject a 0 5\n";
    // The layout ends at 111, in a file that had grown to 254 bytes of data.
    19857, [(72, 7), (120, 0), (152, 100), (8624, 100)]
        => "store 9 16 1 100 254 7 still\n" "class 6 100 11 0\nobject a 0 100\n";
    // `b` stands in the buffer of class 6.
    19714, [(80, 2), (120, 0), (152, 100), (1920, 10), (8624, 100), (8632, 1), (8633, b'b'), (8696, 100),
        (8704, 10)]
        => "store 9 16 2 110 111 1 still\n" "class 6 100 11 10\nobject a 0 100\nobject b 100 10\n";
};

#[test]
fn tells_files_at_rest(rt: HostRuntime) {
    for row in AT_REST {
        try_row(&rt, rt.alloc(), &[], row);
    }
}

/// Changes of the moving file.
const MOVING: &[Row] = &rows! {
    19857, [] => "store 9 16 3 115 254 1 moving\n"
        "moving 2 239 112\nobject a 139 100\nobject b 239 10\nobject c 249 5\n";
    19714, [(66, 7), (80, 1), (88, 111), (96, 0), (152, 100), (8616, 0)]
        => "store 9 16 1 100 111 1 moving\n" "moving 7 111 0\nclass 6 100 11 0\nobject a 0 100\n";
};

#[test]
fn tells_moving_files(rt: HostRuntime) {
    for row in MOVING {
        try_row(&rt, rt.alloc(), MOVED, row);
    }
}
