//! Tables that break a rule, and the place that is named, worked by hand: as a table is checked when a file
//! is opened, and as the plain definitions name it.
ghost use Rattle.std.specs.Prelude.{IfSome, IsTrue};
ghost use Rattle.slot_codec.specs.Reading.{all_in_range};

use crate::rows::try_holds;
use crate::table_words::{FEWER, LIMITS, Limits, Number, TableWords, header_of, plain_table};
use extent_table::{Spot, Table};
use size_class::{CLASSES, SIZE_MAX};
use slot_codec::{HEADER_LEN, Header, Kind, Name, NoMemory, read_header, write_header};
use std::alloc::Global;
use std::process::Abort;
use table_check::{check_moving, check_settled};

/// A table, and the first rule that it breaks, with the place.
#[derive(Clone, Copy)]
struct Tried {
    what: &'static str,
    table: TableWords,
    first: Option<(u8, u64)>,
}

macro_rules! settled {
    ($($what:literal: $len:literal, $boundary:literal, [$($number:expr),*], [$($object:expr),*] =>
        $first:expr),*) => {
        &[$(Tried {
            what: $what,
            table: TableWords {
                kind: Kind::Settled,
                boundary: $boundary,
                wall: 0,
                slack: 0,
                len: $len,
                numbers: &[$($number),*],
                objects: &[$($object),*],
            },
            first: $first,
        }),*]
    };
}

macro_rules! moving {
    ($($what:literal: $kind:ident $boundary:expr, $wall:literal, $slack:literal, $place:literal =>
        $first:expr),*) => {
        &[$(Tried {
            what: $what,
            table: TableWords {
                kind: Kind::$kind,
                boundary: $boundary,
                wall: $wall,
                slack: $slack,
                len: 254,
                numbers: &[],
                objects: &[(b'a', $place, 100), (b'b', 239, 10), (b'c', 249, 5)],
            },
            first: $first,
        }),*]
    };
}

/// Tables that break the same rule among all classes and among fewer.
const SETTLED: &[Tried] = settled!(
    "one object": 5, 0, [Number::Cap(2, 5)], [(b'a', 0, 5)] => None,
    "no object": 0, 0, [], [] => None,
    "one in a buffer": 111, 0, [Number::Cap(6, 100), Number::Used(6, 3, 10)],
        [(b'a', 0, 100), (b'b', 100, 10)] => None,
    "laid out by class": 127, 0, [Number::Cap(2, 5), Number::Cap(3, 10), Number::Cap(6, 100)],
        [(b'a', 16, 100), (b'b', 5, 10), (b'c', 0, 5)] => None,
    "too large": 5, 0, [Number::Cap(2, 5)], [(b'a', 0, SIZE_MAX + 1)] => Some((1, 0)),
    "empty and not at 0": 5, 0, [Number::Cap(2, 5)], [(b'a', 1, 0)] => Some((2, 0)),
    "the second empty and not at 0": 5, 0, [Number::Cap(2, 5)], [(b'a', 0, 5), (b'b', 1, 0)] => Some((2, 1)),
    "past the end": 5, 0, [Number::Cap(2, 5)], [(b'a', 1, 5)] => Some((3, 0)),
    "cut": 4, 0, [Number::Cap(2, 5)], [(b'a', 0, 5)] => Some((3, 0)),
    "a layout past the end": 5, 0, [Number::Cap(2, 5), Number::Cap(3, 1)], [(b'a', 0, 5)] => Some((3, 1)),
    "a boundary": 5, 2, [Number::Cap(2, 5)], [(b'a', 0, 5)] => Some((4, 0)),
    "a class too many": 5, 0, [Number::Cap(2, 5), Number::Cap(CLASSES, 1)], [(b'a', 0, 5)] =>
        Some((5, CLASSES as u64)),
    "an entry without room": 5, 0, [Number::Cap(2, 5), Number::Used(2, 2, 1)], [(b'a', 0, 5)] => Some((6, 2)),
    "in another class": 5, 0, [Number::Cap(3, 5)], [(b'a', 0, 5)] => Some((7, 0)),
    "half in a buffer": 111, 0, [Number::Cap(6, 100), Number::Used(6, 3, 10)],
        [(b'a', 0, 100), (b'b', 95, 10)] => Some((7, 1)),
    "shared bytes": 222, 0, [Number::Cap(6, 200)], [(b'a', 0, 100), (b'b', 50, 100)] => Some((8, 1)),
    "the first and the last share bytes": 222, 0, [Number::Cap(6, 200)],
        [(b'a', 0, 70), (b'b', 100, 100), (b'c', 30, 70)] => Some((8, 2)),
    "an empty one between two that share bytes": 222, 0, [Number::Cap(6, 200)],
        [(b'a', 0, 100), (b'b', 0, 0), (b'c', 50, 100)] => Some((8, 2)),
    "a byte that nothing has": 6, 0, [Number::Cap(2, 6)], [(b'a', 0, 5)] => Some((9, 2)),
    "an entry passed over an empty buffer": 333, 0,
        [Number::Cap(6, 100), Number::Cap(7, 200), Number::Used(7, 2, 5)],
        [(b'a', 0, 100), (b'b', 111, 200)] => Some((10, 2)),
    "an entry below its class's sizes": 333, 0,
        [Number::Cap(6, 100), Number::Cap(7, 200), Number::Used(7, 7, 1)],
        [(b'a', 0, 100), (b'b', 111, 200)] => Some((10, 7))
);

/// The same of moving tables.
const MOVING: &[Tried] = moving!(
    "as a flush left it": Moving 2, 239, 112, 139 => None,
    "settled with a boundary": Settled 2, 0, 0, 139 => Some((4, 0)),
    "no class to move": Moving CLASSES as u8, 239, 112, 139 => Some((4, 0)),
    "a wall past the end": Moving 2, 255, 112, 139 => Some((3, 3)),
    "too little room": Moving 2, 238, 112, 139 => Some((11, 0)),
    "a gap of a byte": Moving 2, 239, 112, 138 => Some((12, 0)),
    "across the wall": Moving 2, 239, 112, 140 => Some((8, 1))
);

/// Tables that break another rule among all classes than among fewer: there the object is within the sizes,
/// the capacity is one of the layout, and the boundary is among the classes.
const OTHERWISE: &[Tried] = settled!(
    "large": 5, 0, [Number::Cap(2, 5)], [(b'a', 0, 1_048_577)] => Some((3, 0)),
    "a larger class past the end": 5, 0, [Number::Cap(2, 5), Number::Cap(21, 1)], [(b'a', 0, 5)] =>
        Some((3, 1))
);

const MOVING_OTHERWISE: &[Tried] = moving!(
    "a larger class to move": Moving 21, 239, 112, 139 => Some((7, 0))
);

/// The same tables among fewer.
const OF_FEWER_CLASSES: &[Tried] = settled!(
    "too large": 5, 0, [Number::Cap(2, 5)], [(b'a', 0, 1_048_577)] => Some((1, 0)),
    "a class too many": 5, 0, [Number::Cap(2, 5), Number::Cap(21, 1)], [(b'a', 0, 5)] => Some((5, 21))
);

const MOVING_OF_FEWER: &[Tried] = moving!(
    "no class to move": Moving 21, 239, 112, 139 => Some((4, 0))
);

/// A header as it is read back once it is written, which has its numbers in range.
fn read_back(header: &Header) -> Option<Header>
    ensures { IfSome result (λ read. IsTrue (all_in_range read)) }
{
    let mut bytes = [0u8; HEADER_LEN];
    write_header(header, &mut bytes);
    read_header(&bytes, 16).ok()
}

/// The table of objects by name, place and size.
fn table_of(alloc: Global, objects: &[(u8, u64, u64)]) -> Result<Table, NoMemory> {
    let mut table = Table::with_room(alloc, 16)?;
    'objects: for (name, place, size) in objects {
        if let Some(name) = Name::new(&[*name]) {
            if table.room() && *place < 1 << 48 && *size < 1 << 48 {
                let spot = Spot {
                    place: *place,
                    size: *size,
                };
                table.set(&name, spot, [0; 32]);
            }
        }
    }
    Ok(table)
}

/// The rule and the place that the check of a table names, for the divisor 9, or none.
fn checked(alloc: Global, words: &TableWords) -> Result<Option<(u8, u64)>, NoMemory> {
    let table = table_of(alloc, words.objects)?;
    let Ok(mut order) = Vec::with_capacity(alloc, 16) else {
        return Err(NoMemory);
    };
    let Some(header) = read_back(&header_of(words)) else {
        return Ok(Some((0, 0)));
    };
    if table.count() > 16 {
        return Ok(Some((0, 0)));
    }
    let checked = match words.kind {
        Kind::Settled => check_settled::<CLASSES>(&table, &header, 9, words.len, &mut order),
        Kind::Moving => check_moving::<CLASSES>(&table, &header, 9, words.len, &mut order),
    };
    match checked {
        Ok(_layout) => Ok(None),
        Err(fault) => Ok(Some((fault.rule, fault.at))),
    }
}

/// Tries the rule and the place that were named.
fn try_first(rt: &impl Abort, by: &str, found: Option<(u8, u64)>, tried: &Tried) {
    try_holds(rt, found == tried.first, &(tried.what, by, found));
}

/// Tries what the check of a table names.
fn try_checked(rt: &impl Abort, alloc: Global, tried: &Tried) {
    let found = checked(alloc, &tried.table).expect(rt, "memory");
    try_first(rt, "checked", found, tried);
}

/// Tries what the plain definitions name, for some limits.
fn try_plain(rt: &impl Abort, alloc: Global, limits: Limits, tried: &Tried) {
    let table = plain_table(alloc, limits, &tried.table).expect(rt, "memory");
    try_first(rt, "plainly", table.first_broken(), tried);
}

/// Tries what the check of each table names, and the plain definitions for the program's limits.
fn try_each(rt: &impl Abort, alloc: Global, tables: &[Tried]) {
    for tried in tables {
        try_checked(rt, alloc, tried);
        try_plain(rt, alloc, LIMITS, tried);
    }
}

/// Tries what the plain definitions name of each table among fewer classes.
fn try_fewer(rt: &impl Abort, alloc: Global, tables: &[Tried]) {
    for tried in tables {
        try_plain(rt, alloc, FEWER, tried);
    }
}

#[test]
fn broken_rules_of_settled_tables(rt: HostRuntime) {
    try_each(&rt, rt.alloc(), SETTLED);
    try_fewer(&rt, rt.alloc(), SETTLED);
}

#[test]
fn broken_rules_of_moving_tables(rt: HostRuntime) {
    try_each(&rt, rt.alloc(), MOVING);
    try_fewer(&rt, rt.alloc(), MOVING);
}

#[test]
fn more_classes_break_other_rules(rt: HostRuntime) {
    try_each(&rt, rt.alloc(), OTHERWISE);
    try_each(&rt, rt.alloc(), MOVING_OTHERWISE);
    try_fewer(&rt, rt.alloc(), OF_FEWER_CLASSES);
    try_fewer(&rt, rt.alloc(), MOVING_OF_FEWER);
}
