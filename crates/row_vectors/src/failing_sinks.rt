//! Runs whose sink fails at one call.
use crate::answers::{
    FORMAT, GET, Told, got, is_front_of_long, numbered, told, try_answer, try_holds, try_number,
    try_outcome,
};
use crate::images::{LONG, disk};
use crate::runs::{Ran, ended, run_on};
use disk_face::Disk;
use disk_mem::MemDisk;
use std::alloc::Global;
use std::process::Abort;

/// The number of a put that fails, the status, and how much is put of the object of 160,000 bytes.
const PIECES: &[(u64, u8, usize)] = &[(1, 9, 0), (2, 9, 65_536), (3, 9, 131_072), (4, 0, 160_000)];

/// A command over a file that is there and a sink of which the put of a number fails.
fn run_failing(
    rt: &impl Abort,
    alloc: Global,
    file: MemDisk,
    words: &[&str],
    number: u64,
) -> Ran<MemDisk> {
    let fails = numbered(rt, alloc, number);
    got(rt, run_on(alloc, words, true, file, fails))
}

/// What is put of the object of 160,000 bytes where the put of a number fails.
fn try_long(rt: &impl Abort, alloc: Global, fails: u64, status: u8, length: usize) {
    let file = got(rt, disk(alloc, 197_380, LONG, &[]));
    let ran = run_failing(rt, alloc, file, GET, fails);
    try_outcome(rt, ran.outcome, ended(status), &fails);
    try_holds(rt, is_front_of_long(&ran.put, length), &fails);
    try_number(rt, ran.disk.turns(), 0, &fails);
}

#[test]
fn puts_a_front_of_the_object(rt: HostRuntime) {
    for (fails, status, length) in PIECES {
        try_long(&rt, rt.alloc(), *fails, *status, *length);
    }
}

/// What a command comes to over the hand-made file where the first put fails.
fn try_row(rt: &impl Abort, alloc: Global, row: &Told) {
    let file = got(rt, disk(alloc, 19608, &[], &[]));
    let ran = run_failing(rt, alloc, file, row.words, 1);
    try_answer(rt, &ran, row.status, row.puts);
}

/// Commands that are refused by a fault line.
const REFUSED: &[Told] = &told! {
    ["get", "f"] => 1 "";
    ["get", "g", "a"] => 3 "";
    ["format", "f", "9", "16"] => 5 "";
    ["get", "f", "b"] => 6 "";
    ["work", "g", "1", "1"] => 3 "";
    ["cached", "g", "1", "1", "1"] => 3 "";
    ["batch", "g"] => 3 "";
    ["desk", "g"] => 3 "";
    ["load", "f", "9", "16"] => 5 "";
};

#[test]
fn keeps_the_status_where_the_fault_line_is_not_put(rt: HostRuntime) {
    for row in REFUSED {
        try_row(&rt, rt.alloc(), row);
    }
}

/// Commands that are done.
const DONE: &[Told] = &told! {
    ["get", "f", "a"] => 9 "";
    ["check", "f"] => 9 "";
    ["map", "f"] => 9 "";
    ["dump", "f"] => 9 "";
    ["upgrade", "f"] => 9 "";
    ["work", "f", "1", "1"] => 9 "";
    ["cached", "f", "1", "1", "1"] => 9 "";
    ["batch", "f"] => 9 "";
    ["desk", "f"] => 9 "";
    ["--help"] => 9 "";
    ["--version"] => 9 "";
};

#[test]
fn says_that_the_sink_failed(rt: HostRuntime) {
    for row in DONE {
        try_row(&rt, rt.alloc(), row);
    }
}

#[test]
fn formats_before_the_sink_fails_to_be_told(rt: HostRuntime) {
    let none = MemDisk::new(rt.alloc());
    let fails = numbered(&rt, rt.alloc(), 1);
    let ran = got(&rt, run_on(rt.alloc(), FORMAT, false, none, fails));
    try_answer(&rt, &ran, 9, "");
    try_number(&rt, ran.disk.turns(), 10, &"format");
}
