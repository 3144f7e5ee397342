//! A worked file with a moving table, its changes, and what each opens to.
use crate::answers::try_number;
use crate::openings::{Row, Standing, open_plainly, stand, try_rows};
use plain_layout::Refusal;
use row_vectors::images::{Change, MOVING};

macro_rules! rows {
    ($($what:literal: $length:literal, $changes:expr => $refusal:expr;)*) => {
        &[$(Row { what: $what, length: $length, changes: &$changes, refusal: $refusal }),*]
    };
}

/// The changes to the file.
const MOVED: &[Change] = &MOVING;

const SPOTS: &[Standing] = &[
    ("a", Some((139, 100))),
    ("b", Some((239, 10))),
    ("c", Some((249, 5))),
];

#[test]
fn opens_a_moving_file(rt: HostRuntime) {
    let opened = open_plainly(&rt, rt.alloc(), 19857, MOVED);
    try_number(&rt, opened.table.records.len() as u64, 3, &"records");
    try_number(&rt, opened.table.data_len, 254, &"data");
    try_number(&rt, opened.table.table_boundary() as u64, 2, &"boundary");
    stand(&rt, &opened, SPOTS);
}

const MORE: &[Row] = rows! {
        "the largest is laid": 19857, [(8616, 16), (80, 1), (96, 100)] => None;
        "all behind the wall": 19957, [(8616, 254)] => None;
        "none from the boundary on": 19714,
            [(66, 7), (80, 1), (88, 111), (96, 0), (152, 100), (8616, 0)] => None;
};

#[test]
fn opens_more_moving_files(rt: HostRuntime) {
    try_rows(&rt, rt.alloc(), MOVED, MORE);
}

const ANY_TABLE: &[Row] = rows! {
        "1: an object of 67,108,865 bytes": 19857, [(8624, 1), (8627, 4)] => Some(Refusal::Rule(1, 0));
        "2: an empty object at 249": 19857, [(8784, 0)] => Some(Refusal::Rule(2, 2));
        "3: an object of 1,048,577 bytes": 19857, [(8624, 1), (8626, 0x10)] => Some(Refusal::Rule(3, 0));
        "3: an object past the end": 19857, [(8776, 250)] => Some(Refusal::Rule(3, 2));
        "3: a wall past the end": 19857, [(88, 255)] => Some(Refusal::Rule(3, 3));
        "4: a boundary behind all classes": 19857, [(66, 27)] => Some(Refusal::Rule(4, 0));
        "5: a capacity from the boundary on": 19857, [(120, 5)] => Some(Refusal::Rule(5, 2));
        "5: an entry from the boundary on": 19857, [(888, 1)] => Some(Refusal::Rule(5, 2));
        "6: more in a buffer than it has": 19857, [(360, 1)] => Some(Refusal::Rule(6, 0));
        "7: an object below the boundary past its segment": 19857, [(8784, 1)] => Some(Refusal::Rule(7, 2));
        "7: a boundary behind the classes of all objects": 19857, [(66, 21)] => Some(Refusal::Rule(7, 0));
        "8: two objects share a byte": 19857, [(8696, 240)] => Some(Refusal::Rule(8, 2));
        "9: a byte that nothing has": 19857, [(112, 1)] => Some(Refusal::Rule(9, 1));
        // Below boundary 7 the one object fills its segment of 100 bytes, behind which its buffer has 11.
        "10: an entry below its class's sizes": 19714,
            [(66, 7), (80, 1), (88, 111), (96, 0), (152, 100), (1912, 1), (8616, 0)]
            => Some(Refusal::Rule(10, 2));
};

#[test]
fn refuses_by_the_rules_of_any_table(rt: HostRuntime) {
    try_rows(&rt, rt.alloc(), MOVED, ANY_TABLE);
}

const MOVING_TABLES: &[Row] = rows! {
        "11: no room for the slack below the wall": 19857, [(96, 113)] => Some(Refusal::Rule(11, 0));
        "11: a slack below the size of an object": 19857, [(96, 99)] => Some(Refusal::Rule(11, 0));
        "12: an object across the wall": 19858, [(8616, 140), (8696, 240), (8776, 250)]
            => Some(Refusal::Rule(12, 0));
        "12: a gap above that is below the slack": 19857, [(8616, 100)] => Some(Refusal::Rule(12, 0));
        "12: a greater class below a lesser one": 19857, [(8616, 129), (8696, 229)]
            => Some(Refusal::Rule(12, 1));
};

#[test]
fn refuses_by_the_rules_of_moving_tables(rt: HostRuntime) {
    try_rows(&rt, rt.alloc(), MOVED, MOVING_TABLES);
}
