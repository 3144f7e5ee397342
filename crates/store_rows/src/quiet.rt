//! Worked requests on the store of one object, whose buffer has room for 11 bytes.
use crate::requests::{
    Ask, Looks, ONE_TOO_MANY, QUIET, Reply, Row, refused, rows, try_looks, try_rows, try_rows_to,
};
use crate::trials::Trial;
use crate::worked::{AS_BEFORE, HUNDRED, UNCHANGED, at_one, one_recorded};
use disk_face::Disk;
use disk_mem::{MemSink, PlainDisk};
use std::alloc::Global;
use std::process::Abort;
use store_core::{Refusal, Stat};

/// 10 bytes.
const TEN: &[u8] = b"abcdefghij";

/// A name of 64 bytes, which is 1 too many, and one of 63.
const TOO_LONG: &str = "1234567890123456789012345678901234567890123456789012345678901234";

const LONGEST: &str = "123456789012345678901234567890123456789012345678901234567890123";

/// How many names and bytes there are, of which one of 100 was kept.
macro_rules! counts {
    ($names:literal, $bytes:literal) => {
        Reply::Stat(Stat {
            names: $names,
            bytes: $bytes,
            kept_names: 1,
            kept_bytes: 100,
        })
    };
}

/// Quiet changes and what is asked between them.
const CHANGES: &[Row] = rows! {
    Ask::Stat => counts!(1, 100), b"", 0;
    Ask::Size("a") => Reply::Number(100), b"", 0;
    Ask::Get("a") => Reply::Number(100), HUNDRED, 0;
    Ask::Put("b", TEN) => QUIET, b"", 1;
    Ask::Stat => counts!(2, 110), b"", 0;
    Ask::Size("b") => Reply::Number(10), b"", 0;
    Ask::OldSize("b") => refused!(Missing), b"", 0;
    Ask::Get("b") => Reply::Number(10), TEN, 0;
    Ask::Old("b") => refused!(Missing), b"", 0;
    Ask::List => Reply::Nothing, b"a 100\nb 10\n", 0;
    Ask::Del("b") => QUIET, b"", 0;
    Ask::Stat => counts!(1, 100), b"", 0;
    Ask::Get("b") => refused!(Missing), b"", 0;
    // 1 byte of the buffer is left.
    Ask::Put("d", b"w") => QUIET, b"", 1;
    Ask::Get("d") => Reply::Number(1), b"w", 0;
    Ask::Stat => counts!(2, 101), b"", 0;
    Ask::Put("z", b"") => QUIET, b"", 0;
    Ask::Stat => counts!(3, 101), b"", 0;
    Ask::Get("z") => Reply::Number(0), b"", 0;
    Ask::Size("z") => Reply::Number(0), b"", 0;
    Ask::List => Reply::Nothing, b"a 100\nd 1\nz 0\n", 0;
    Ask::Back => Reply::Nothing, b"", 0;
    Ask::List => Reply::Nothing, b"a 100\n", 0;
    Ask::Stat => counts!(1, 100), b"", 0;
    Ask::OldSize("a") => Reply::Number(100), b"", 0;
    Ask::Old("a") => Reply::Number(100), HUNDRED, 0;
    // The buffer is as it was at the checkpoint.
    Ask::Put("b", TEN) => QUIET, b"", 1;
    Ask::Put("b", b"x") => QUIET, b"", 1;
    Ask::Get("b") => Reply::Number(1), b"x", 0;
    Ask::Stat => counts!(2, 101), b"", 0;
};

/// Requests that are refused for what they ask.
const REFUSALS: &[Row] = rows! {
    Ask::Back => Reply::Nothing, b"", 0;
    Ask::Put(TOO_LONG, b"") => refused!(BadName), b"", 0;
    Ask::PutZeros(TOO_LONG, ONE_TOO_MANY) => refused!(BadName), b"", 0;
    Ask::Del(TOO_LONG) => refused!(BadName), b"", 0;
    Ask::Get(TOO_LONG) => refused!(BadName), b"", 0;
    Ask::Old(TOO_LONG) => refused!(BadName), b"", 0;
    Ask::Size(TOO_LONG) => refused!(BadName), b"", 0;
    Ask::OldSize(TOO_LONG) => refused!(BadName), b"", 0;
    Ask::Put("", b"") => refused!(BadName), b"", 0;
    Ask::Put("a b", b"") => refused!(BadName), b"", 0;
    Ask::Del("q") => refused!(Missing), b"", 0;
    Ask::Get("q") => refused!(Missing), b"", 0;
    Ask::Old("q") => refused!(Missing), b"", 0;
    Ask::Size("q") => refused!(Missing), b"", 0;
    Ask::OldSize("q") => refused!(Missing), b"", 0;
    Ask::PutZeros("q", ONE_TOO_MANY) => refused!(TooLong), b"", 0;
    Ask::PutZeros("a", ONE_TOO_MANY) => refused!(TooLong), b"", 0;
    Ask::Put(LONGEST, b"") => QUIET, b"", 0;
    Ask::Del(LONGEST) => QUIET, b"", 0;
};

/// As many names as there may be.
const FULL: &[Row] = rows! {
    Ask::Put("n1", b"") => QUIET, b"", 0;
    Ask::Put("n2", b"") => QUIET, b"", 0;
    Ask::Put("n3", b"") => QUIET, b"", 0;
    Ask::Put("n4", b"") => QUIET, b"", 0;
    Ask::Put("n5", b"") => QUIET, b"", 0;
    Ask::Put("n6", b"") => QUIET, b"", 0;
    Ask::Put("n7", b"") => QUIET, b"", 0;
    Ask::Put("n8", b"") => QUIET, b"", 0;
    Ask::Put("n9", b"") => QUIET, b"", 0;
    Ask::Put("n10", b"") => QUIET, b"", 0;
    Ask::Put("n11", b"") => QUIET, b"", 0;
    Ask::Put("n12", b"") => QUIET, b"", 0;
    Ask::Put("n13", b"") => QUIET, b"", 0;
    Ask::Put("n14", b"") => QUIET, b"", 0;
    Ask::Put("n15", b"") => QUIET, b"", 0;
    Ask::Stat => counts!(16, 100), b"", 0;
    Ask::Put("n16", b"") => refused!(Full), b"", 0;
    Ask::PutZeros("n16", ONE_TOO_MANY) => refused!(TooLong), b"", 0;
    Ask::Put("n1", b"") => QUIET, b"", 0;
    Ask::Del("n2") => QUIET, b"", 0;
    Ask::Put("n16", b"") => QUIET, b"", 0;
    Ask::Put("n2", b"") => refused!(Full), b"", 0;
    Ask::Old("n1") => refused!(Missing), b"", 0;
    Ask::Stat => counts!(16, 100), b"", 0;
    Ask::Back => Reply::Nothing, b"", 0;
    Ask::List => Reply::Nothing, b"a 100\n", 0;
};

/// Reads and lists to a sink that fails its first call and its third.
const SINKS: &[Row] = rows! {
    Ask::Get("a") => refused!(Sink), b"", 0;
    Ask::Get("a") => Reply::Number(100), HUNDRED, 0;
    Ask::List => refused!(Sink), b"", 0;
    Ask::List => Reply::Nothing, b"a 100\n", 0;
    Ask::Old("a") => Reply::Number(100), HUNDRED, 0;
};

/// Such a sink.
fn try_sinks<D: Disk>(rt: &impl Abort, alloc: Global, trial: &mut Trial<D>) {
    let fails = vec![in alloc; 1, 3].expect(rt, "memory");
    let mut sink = MemSink::with_room(alloc, 4096, fails).expect(rt, "memory");
    try_rows_to(rt, alloc, trial, SINKS, &mut sink);
}

/// A file that ends with these bytes, and is else as before.
fn try_end(rt: &impl Abort, before: &[u8], after: &[u8], end: &[u8]) {
    assert!(rt; after.len() == 19_714 && after.ends_with(end));
    assert!(rt; is_same_before(before, after, end.len()));
}

/// Whether two files are of one length and have the same bytes before the last ones.
fn is_same_before(a: &[u8], b: &[u8], last: usize) -> bool {
    if a.len() != b.len() || a.len() < last {
        return false;
    }
    let n = a.len() - last;
    a[..n] == b[..n]
}

/// What the store says of itself after these changes. Of class 3 ten bytes came twice and went twice; of
/// class 0 one byte came twice.
const CHANGED: &Looks = &Looks {
    turns: 23,
    asked: [
        2, 0, 0, 40, 0, 0, 0, 0, 0, 0, 0, 0, 0, 0, 0, 0, 0, 0, 0, 0, 0, 0, 0, 0, 0, 0, 0, 0, 0, 0,
        0, 0,
    ],
    ..UNCHANGED
};

/// The changes, and what they leave of the file: `b` was put at 100 of the data part, and then its 1 byte
/// at 110.
fn try_file<D: Disk>(rt: &impl Abort, alloc: Global, trial: &mut Trial<D>) {
    let before = trial.file(rt, alloc);
    try_rows(rt, alloc, trial, CHANGES);
    let after = trial.file(rt, alloc);
    try_end(rt, &before, &after, b"abcdefghijx");
}

/// Refusals of each kind, which leave what the changes left.
fn try_others<D: Disk>(rt: &impl Abort, alloc: Global, trial: &mut Trial<D>) {
    try_rows(rt, alloc, trial, REFUSALS);
    try_rows(rt, alloc, trial, FULL);
    try_sinks(rt, alloc, trial);
    try_looks(rt, trial, CHANGED);
}

/// All of these, and what the store says of itself.
fn try_store<D: Disk>(rt: &impl Abort, alloc: Global, trial: &mut Trial<D>) {
    try_looks(rt, trial, AS_BEFORE);
    try_file(rt, alloc, trial);
    try_looks(rt, trial, CHANGED);
    try_others(rt, alloc, trial);
}

#[test]
fn serves_quiet_requests(rt: HostRuntime) {
    let disk = PlainDisk::with_room(rt.alloc(), 19_714).expect(&rt, "memory");
    let mut plain = at_one(&rt, rt.alloc(), disk);
    try_store(&rt, rt.alloc(), &mut plain);
}

#[test]
fn serves_them_on_a_recorded_disk(rt: HostRuntime) {
    let mut recorded = one_recorded(&rt, rt.alloc());
    try_store(&rt, rt.alloc(), &mut recorded);
}
