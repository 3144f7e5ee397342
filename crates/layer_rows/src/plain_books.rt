//! Worked changes of a book, and the books of worked tables, as the plain definitions have them.
ghost use Rattle.std.specs.Prelude.{◌≡◌, ◌<◌, ◌^◌, sum};

use crate::rows::try_holds;
use crate::table_words::{LIMITS, Number, TableWords, header_of, plain_table};
use plain_layout::{Book, items_of};
use slot_codec::Kind;
use std::alloc::Global;
use std::process::Abort;

/// A change of a book: the divisor, the numbers before it, the items and the sizes of all objects after it;
/// whether it is quiet, the boundary, where the layout ends, and the numbers after it.
#[derive(Clone, Copy)]
struct Changed {
    what: &'static str,
    k: u64,
    numbers: &'static [Number],
    items: &'static [u64],
    sizes: &'static [u64],
    quiet: bool,
    boundary: u8,
    end: u128,
    after: &'static [Number],
}

macro_rules! changes {
    ($($what:literal: $k:literal, [$($number:expr),*], [$($item:literal),*], [$($size:literal),*] =>
        $quiet:literal, $boundary:literal, $end:literal, [$($after:expr),*]),*) => {
        &[$(Changed {
            what: $what,
            k: $k,
            numbers: &[$($number),*],
            items: &[$($item),*],
            sizes: &[$($size),*],
            quiet: $quiet,
            boundary: $boundary,
            end: $end,
            after: &[$($after),*],
        }),*]
    };
}

const CHANGES: &[Changed] = changes!(
    "the first object": 9, [], [100], [100] => false, 6, 111, [Number::Cap(6, 100)],
    "an object in a buffer": 9, [Number::Cap(6, 100)], [10], [100, 10] =>
        true, 31, 111, [Number::Cap(6, 100), Number::Used(6, 3, 10)],
    "a small one beside a large one": 9, [Number::Cap(6, 100), Number::Used(6, 3, 10)], [5], [100, 10, 5] =>
        false, 2, 127, [Number::Cap(2, 5), Number::Cap(3, 10), Number::Cap(6, 100)],
    "a replacement": 9, [Number::Cap(6, 100)], [100, 10], [10] => false, 3, 11, [Number::Cap(3, 10)],
    "a removal that is charged": 9,
        [Number::Cap(2, 5), Number::Cap(3, 10), Number::Cap(6, 100)], [10], [5, 100] =>
        true, 31, 127, [Number::Cap(2, 5), Number::Cap(3, 10), Number::Cap(6, 100), Number::Used(6, 3, 10)],
    "a removal after it": 9,
        [Number::Cap(2, 5), Number::Cap(3, 10), Number::Cap(6, 100), Number::Used(6, 3, 10)], [5], [100] =>
        false, 2, 111, [Number::Cap(6, 100)],
    "the last object": 9, [Number::Cap(6, 100)], [100], [] => false, 6, 0, [],
    "an object of a byte": 2, [], [1], [1] => false, 0, 1, [Number::Cap(0, 1)],
    "eleven objects": 9, [Number::Cap(6, 900), Number::Used(6, 6, 100)], [100],
        [100, 100, 100, 100, 100, 100, 100, 100, 100, 100, 100] => false, 6, 1222, [Number::Cap(6, 1100)]
);

/// A name after a change of one item, for the divisor 9: whether it stood in a buffer before, whether the
/// change is of it, and its size after the change; and whether it stands in a buffer then.
#[derive(Clone, Copy)]
struct Named {
    what: &'static str,
    numbers: &'static [Number],
    item: u64,
    sizes: &'static [u64],
    was: bool,
    is_changed: bool,
    after: Option<u64>,
    stands: bool,
}

macro_rules! names {
    ($($what:literal: [$($number:expr),*], $item:literal, [$($size:literal),*] =>
        $was:literal, $is_changed:literal, $after:expr => $stands:literal;)*) => {
        &[$(Named {
            what: $what,
            numbers: &[$($number),*],
            item: $item,
            sizes: &[$($size),*],
            was: $was,
            is_changed: $is_changed,
            after: $after,
            stands: $stands,
        }),*]
    };
}

const NAMES: &[Named] = names!(
    "one put into a buffer": [Number::Cap(6, 100)], 10, [100, 10] => false, true, Some(10) => true;
    "the other one": [Number::Cap(6, 100)], 10, [100, 10] => false, false, Some(100) => false;
    "one laid out anew": [Number::Cap(6, 100), Number::Used(6, 3, 10)], 5, [100, 10, 5] =>
        true, false, Some(10) => false;
    "one put as all is laid out anew": [Number::Cap(6, 100), Number::Used(6, 3, 10)], 5, [100, 10, 5] =>
        false, true, Some(5) => false;
    "one left below the boundary": [Number::Cap(3, 18), Number::Cap(6, 100), Number::Used(3, 0, 1)], 50,
        [18, 100, 1, 50] => true, false, Some(1) => true;
    "one put above it": [Number::Cap(3, 18), Number::Cap(6, 100), Number::Used(3, 0, 1)], 50,
        [18, 100, 1, 50] => false, true, Some(50) => false;
    "one removed": [Number::Cap(6, 100)], 100, [] => false, true, None => false;
);

/// The size of an object before a change, whether it stood in a buffer, its size after it, and the items.
type Items = (Option<u64>, bool, Option<u64>, &'static [u64]);

const ITEMS: &[Items] = &[
    (None, false, Some(100), &[100]),
    (Some(100), false, Some(10), &[100, 10]),
    (Some(100), true, Some(10), &[10]),
    (Some(100), false, None, &[100]),
    (Some(0), false, Some(0), &[]),
    (None, false, Some(0), &[]),
];

/// A table, the numbers of its book, and whether its first two names stand in buffers.
type Booked = (TableWords, &'static [Number], (bool, bool));

const TABLES: &[Booked] = &[
    (
        TableWords {
            kind: Kind::Moving,
            boundary: 2,
            wall: 239,
            slack: 112,
            len: 254,
            numbers: &[],
            objects: &[(b'a', 139, 100), (b'b', 239, 10), (b'c', 249, 5)],
        },
        &[Number::Cap(2, 5), Number::Cap(3, 10), Number::Cap(6, 100)],
        (false, false),
    ),
    (
        TableWords {
            kind: Kind::Settled,
            boundary: 0,
            wall: 0,
            slack: 0,
            len: 111,
            numbers: &[Number::Cap(6, 100), Number::Used(6, 3, 10)],
            objects: &[(b'a', 0, 100), (b'b', 100, 10)],
        },
        &[Number::Cap(6, 100), Number::Used(6, 3, 10)],
        (false, true),
    ),
];

/// The book of capacities and entries, for a divisor.
fn book(k: u64, numbers: &'static [Number]) -> Book
    ensures { result.k ≡ k }
{
    let header = header_of(&TableWords {
        kind: Kind::Settled,
        boundary: 0,
        wall: 0,
        slack: 0,
        len: 0,
        numbers,
        objects: &[],
    });
    let caps = header.caps;
    let used = header.used;
    Book { k, caps, used }
}

/// The sum of sizes.
fn sum_of(sizes: &[u64]) -> u128
    ensures sum { result ≡ sum sizes.now }
    ensures small { result < 2 ^ 127 }
{
    let mut all = 0;
    'sizes: for size in sizes {
        all += u128::from(*size);
    }
    all
}

/// Tries what comes of a change of a book.
fn try_change(rt: &impl Abort, changed: &Changed) {
    assert!(rt; 1 <= changed.k && sum_of(changed.sizes) < 1 << 64);
    let next = book(changed.k, changed.numbers).next(changed.items, changed.sizes);
    let found = (next.quiet, next.boundary, next.book.end());
    let wanted = (changed.quiet, changed.boundary, changed.end);
    try_holds(rt, found == wanted, &(changed.what, found));
    try_holds(
        rt,
        next.book == book(changed.k, changed.after),
        &changed.what,
    );
}

/// Tries whether a name stands in a buffer after a change.
fn try_name(rt: &impl Abort, named: &Named) {
    assert!(rt; sum_of(named.sizes) < 1 << 64);
    let next = book(9, named.numbers).next(&[named.item], named.sizes);
    let stands = next.is_buffered(named.was, named.is_changed, named.after);
    try_holds(rt, stands == named.stands, &named.what);
}

/// Tries the book of a table, and which of its first two names stand in buffers.
fn try_table(rt: &impl Abort, alloc: Global, booked: &Booked) {
    let (words, numbers, stand) = *booked;
    let table = plain_table(alloc, LIMITS, &words).expect(rt, "memory");
    assert!(rt; table.table_boundary() <= 32 && table.bytes() < 1 << 64);
    try_holds(rt, table.book() == book(9, numbers), &"of a table");
    try_holds(
        rt,
        (table.is_buffered(0), table.is_buffered(1)) == stand,
        &stand,
    );
}

#[test]
fn books_after_changes(rt: HostRuntime) {
    for changed in CHANGES {
        try_change(&rt, changed);
    }
}

#[test]
fn names_in_buffers_after_changes(rt: HostRuntime) {
    for named in NAMES {
        try_name(&rt, named);
    }
}

#[test]
fn items_of_changes(rt: HostRuntime) {
    for (old, is_buffered, new, wanted) in ITEMS {
        let items = items_of(rt.alloc(), *old, *is_buffered, *new).expect(&rt, "memory");
        try_holds(&rt, items.as_slice() == *wanted, wanted);
    }
}

#[test]
fn books_of_tables(rt: HostRuntime) {
    for booked in TABLES {
        try_table(&rt, rt.alloc(), booked);
    }
}
