//! What `get` answers on changed images that are stores.
use crate::answers::{GET, MOVED, got, try_ends, try_unchanged};
use crate::images::{Change, disk, image};
use std::alloc::Global;
use std::process::Abort;

/// A change of the image, the status of `get f a` on it, and all that it puts.
#[derive(Clone, Copy)]
struct Row {
    length: usize,
    changes: &'static [Change],
    status: u8,
    puts: &'static str,
}

macro_rules! rows {
    ($($length:literal, $changes:expr => $status:literal $puts:literal;)*) => {
        [$(Row { length: $length, changes: &$changes, status: $status, puts: $puts }),*]
    };
}

/// Gets the object of a row's image.
fn try_row(rt: &impl Abort, alloc: Global, row: &Row) {
    let bytes = got(rt, image(alloc, row.length, row.changes, &[]));
    try_unchanged(rt, alloc, &bytes, GET, row.status, row.puts);
}

/// Changes of the hand-made file.
const ROWS: &[Row] = &rows! {
    19608, [] => 0 "hello";
    19608, [(8553, b'b')] => 6 "fault missing\n";
    // The sequence 2^61.
    19608, [(72, 0), (79, 0x20)] => 0 "hello";
    19608, [(72, 7), (9833, 1), (9841, 8), (19601, 0xA5)] => 6 "fault missing\n";
    19608, [(72, 8), (9833, 1), (9841, 7), (19601, 0xA5)] => 0 "hello";
    19608, [(9832, 0), (9833, 1), (9841, 8), (19601, 0xA5)] => 6 "fault missing\n";
    19608, [(80, 2), (8632, 2), (8633, b'a'), (8634, b'a')] => 0 "hello";
    // `a` is empty, and what stood behind the layout's end stays unread.
    19857, [(120, 0), (8624, 0), (19_700, 0x5A)] => 0 "";
    19857, [(19_608, 0x5A), (19_856, 0x5A)] => 0 "hello";
};

#[test]
fn gets_what_the_table_says(rt: HostRuntime) {
    for row in ROWS {
        try_row(&rt, rt.alloc(), row);
    }
}

/// An object of a file of 19,857 bytes, whose table has some changes: its name, its first and its last byte,
/// and its length.
#[derive(Clone, Copy)]
struct Marked {
    changes: &'static [Change],
    name: &'static str,
    bytes: &'static [Change],
    length: u64,
}

macro_rules! marked {
    ($($changes:expr, $name:literal $bytes:expr, $length:literal;)*) => {
        [$(Marked { changes: $changes, name: $name, bytes: &$bytes, length: $length }),*]
    };
}

/// Gets such an object.
fn try_marked(rt: &impl Abort, alloc: Global, row: &Marked) {
    let file = got(rt, disk(alloc, 19_857, row.changes, row.bytes));
    try_ends(rt, alloc, row.name, file, row.length);
}

/// The objects of the moving file.
const OBJECTS: &[Marked] = &marked! {
    MOVED, "a" [(19_742, b'<'), (19_841, b'>')], 100;
    MOVED, "b" [(19_842, b'<'), (19_851, b'>')], 10;
    MOVED, "c" [(19_852, b'<'), (19_856, b'>')], 5;
};

#[test]
fn gets_the_objects_of_a_moving_file_as_they_stand(rt: HostRuntime) {
    for row in OBJECTS {
        try_marked(&rt, rt.alloc(), row);
    }
}

/// `a` of 100 bytes in class 6, whose layout ends at 111, in a file that had grown.
const GROWN: &[Marked] = &marked! {
    &[(120, 0), (152, 100), (8624, 100)],
        "a" [(19_603, b'<'), (19_702, b'>'), (19_703, 0x5A), (19_856, 0x5A)], 100;
};

#[test]
fn gets_an_object_before_what_a_flush_left(rt: HostRuntime) {
    for row in GROWN {
        try_marked(&rt, rt.alloc(), row);
    }
}

/// Changes of the moving file. The second has the sequence 2^61 + 1.
const OTHERS: &[&[Change]] = &[&[], &[(79, 0x20)]];

/// Finds no object `d` in a moving file.
fn try_other(rt: &impl Abort, alloc: Global, changes: &[Change]) {
    let bytes = got(rt, image(alloc, 19_857, MOVED, changes));
    try_unchanged(rt, alloc, &bytes, OTHER, 6, "fault missing\n");
}

/// The words of a command that asks for another name.
const OTHER: &[&str] = &["get", "f", "d"];

#[test]
fn finds_no_other_name_in_a_moving_file(rt: HostRuntime) {
    for changes in OTHERS {
        try_other(&rt, rt.alloc(), *changes);
    }
}
