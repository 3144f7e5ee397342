//! The names of a store one after another.
use crate::flushed::fresh;
use crate::flushes::{FIVE, TEN};
use crate::requests::{Ask, KEPT, QUIET, Row, rows, try_holds, try_rows};
use crate::slices::slicer_on;
use crate::worked::HUNDRED;
use size_class::CLASSES;
use std::process::Abort;
use store_core::Store;

/// Bytes, and the first name above them, with the size of its object.
#[derive(Clone, Copy, Debug)]
struct Next {
    above: &'static [u8],
    name: Option<&'static str>,
    size: u64,
}

/// Such a row.
macro_rules! next {
    ($above:expr => $name:expr, $size:literal) => {
        Next {
            above: $above,
            name: $name,
            size: $size,
        }
    };
}

/// Asks for the name above the bytes of each row.
fn try_nexts(rt: &impl Abort, store: &Store<CLASSES>, nexts: &[Next]) {
    for next in nexts {
        let Ok(found) = store.next_above(next.above) else {
            panic!(rt; "a name or none")
        };
        let is = match (found, next.name) {
            (Some((name, size)), Some(expected)) => {
                name.as_bytes() == expected.as_bytes() && size == next.size
            }
            (None, None) => true,
            _ => false,
        };
        try_holds(rt, is, next);
    }
}

/// More bytes than a name may have.
const LONG: &[u8] = &[b'b'; 64];

/// Of a store without a name.
const OF_NONE: &[Next] = &[
    next!(b"" => None, 0),
    next!(b"b" => None, 0),
    next!(LONG => None, 0),
];

/// Three puts.
const THREE: &[Row] = rows! {
    Ask::Put("d", HUNDRED) => KEPT, b"", 12;
    Ask::Put("bb", b"") => QUIET, b"", 0;
    Ask::Put("b", TEN) => QUIET, b"", 1;
};

/// Of the names `b`, `bb` and `d`: above no bytes, a zero, names, what is between two names, and what comes
/// behind all of them.
const OF_THREE: &[Next] = &[
    next!(b"" => Some("b"), 10),
    next!(b"\0" => Some("b"), 10),
    next!(b"a\xff" => Some("b"), 10),
    next!(b"b" => Some("bb"), 0),
    next!(b"b\0" => Some("bb"), 0),
    next!(b"bb" => Some("d"), 100),
    next!(LONG => Some("d"), 100),
    next!(b"c" => Some("d"), 100),
    next!(b"d" => None, 0),
    next!(b"d\0" => None, 0),
    next!(&[0xff; 70] => None, 0),
];

#[test]
fn finds_the_first_name_above_bytes(rt: HostRuntime) {
    let alloc = rt.alloc();
    let mut trial = fresh(&rt, alloc);
    try_nexts(&rt, trial.store(), OF_NONE);
    try_rows(&rt, alloc, &mut trial, THREE);
    try_nexts(&rt, trial.store(), OF_THREE);
}

/// Of the names `a` and `c`, of which one is put by a flush that is in hand.
const OF_TWO: &[Next] = &[
    next!(b"" => Some("a"), 100),
    next!(b"a" => Some("c"), 5),
    next!(b"c" => None, 0),
];

#[test]
fn finds_it_while_a_flush_is_in_hand(rt: HostRuntime) {
    let alloc = rt.alloc();
    let mut sliced = slicer_on(&rt, alloc, fresh(&rt, alloc).into_disk());
    let put = sliced.put("c", FIVE);
    let begun = sliced.begin_put("a", HUNDRED);
    try_holds(&rt, sliced.store().in_hand(), &(put, begun));
    try_nexts(&rt, sliced.store(), OF_TWO);
}
