//! A put that flushes, of whose 23 changing calls one fails, and what its file then opens to.
use crate::answers::{CHECK, fresh, numbered, serve_parts, try_number, try_ran, try_told};
use crate::opened_maps::{Map, ONE, THREE, try_map};
use disk_face::Disk;
use disk_mem::{Fuse, MemDisk};
use row_vectors::Outcome;
use row_vectors::inputs::{KEPT, OK, PUT_A, PUT_B, PUT_C};
use std::alloc::Global;
use std::process::Abort;

/// The failing calls of some numbers, both bounds included: what `check` puts of the file, how many changing
/// calls an opening makes, what `check` puts then, and the map that the file has.
#[derive(Clone, Copy)]
struct Row {
    first: u64,
    last: u64,
    stopped: &'static str,
    opening: u64,
    opened: &'static str,
    map: Map,
}

macro_rules! rows {
    ($($first:literal to $last:literal
        => $stopped:literal, $opening:literal calls, $opened:literal $map:ident;)*) => {
        [$(Row {
            first: $first,
            last: $last,
            stopped: $stopped,
            opening: $opening,
            opened: $opened,
            map: $map,
        }),*]
    };
}

/// The session: two puts, then the one that flushes, and a get that isn't answered.
const INPUT: &[&str] = &[PUT_A, PUT_B, PUT_C, "get a\n"];

/// What it puts, and how it ends.
const PUTS: &[&str] = &[KEPT, OK, "fault disk\n"];

const OUTCOME: Outcome = Outcome {
    status: 7,
    done: 2,
    kept_done: 1,
    kept_turn: 22,
};

/// A fresh file in a fuse that fails the call of a number of the flush. The puts before make 13 calls.
fn fused(rt: &impl Abort, alloc: Global, number: u64) -> Fuse<MemDisk> {
    let fails = numbered(rt, alloc, number.saturating_add(13));
    Fuse::listed(fresh(rt, alloc), fails, Vec::new(alloc))
}

/// Serves the session, whose call of a number fails. The disk inside is given back.
fn failed(rt: &impl Abort, alloc: Global, number: u64) -> MemDisk {
    let fuse = fused(rt, alloc, number);
    let ran = serve_parts(rt, alloc, fuse, INPUT, 7);
    try_ran(rt, alloc, &ran, PUTS, OUTCOME, &number);
    ran.disk.into_inner()
}

/// What is left where the call of a number fails.
fn try_call(rt: &impl Abort, alloc: Global, number: u64, row: &Row) {
    let disk = failed(rt, alloc, number);
    // No call follows the failed one, which the disk inside doesn't see: 10 of the format, 13, and those
    // before it.
    let made = number.saturating_add(22);
    try_number(rt, disk.turns(), made, &number);
    let disk = try_told(rt, alloc, disk, CHECK, row.stopped, &number);
    try_opened(
        rt,
        alloc,
        disk,
        made.saturating_add(row.opening),
        number,
        row,
    );
}

/// What the file then opens to, once so many calls were made.
fn try_opened(rt: &impl Abort, alloc: Global, disk: MemDisk, made: u64, number: u64, row: &Row) {
    let disk = try_map(rt, alloc, disk, &row.map, &number);
    try_number(rt, disk.turns(), made, &number);
    try_told(rt, alloc, disk, CHECK, row.opened, &number);
}

/// The failing calls of a row.
fn try_row(rt: &impl Abort, alloc: Global, row: &Row) {
    for number in row.first..=row.last {
        try_call(rt, alloc, number, row);
    }
}

/// The rows of a table.
fn try_rows(rt: &impl Abort, alloc: Global, rows: &[Row]) {
    for row in rows {
        try_row(rt, alloc, row);
    }
}

/// The first call lengthens the file, and the tenth opens the gate of the first save.
const BEFORE: &[Row] = &rows! {
    1 to 1 => "store 9 16 1 100 111 2 still\n", 0 calls, "store 9 16 1 100 111 2 still\n" ONE;
    2 to 10 => "store 9 16 1 100 254 2 still\n", 2 calls, "store 9 16 1 100 111 2 still\n" ONE;
};

#[test]
fn has_the_map_before_where_a_call_up_to_the_gate_fails(rt: HostRuntime) {
    try_rows(&rt, rt.alloc(), BEFORE);
}

/// The twentieth call opens the gate of the second save, which the next one syncs. Then the file is cut, and
/// that is synced.
const AFTER: &[Row] = &rows! {
    11 to 20 => "store 9 16 3 115 254 3 moving\n", 12 calls, "store 9 16 3 115 127 4 still\n" THREE;
    21 to 22 => "store 9 16 3 115 254 4 still\n", 2 calls, "store 9 16 3 115 127 4 still\n" THREE;
    23 to 23 => "store 9 16 3 115 127 4 still\n", 0 calls, "store 9 16 3 115 127 4 still\n" THREE;
};

#[test]
fn has_the_new_map_where_a_later_call_fails(rt: HostRuntime) {
    try_rows(&rt, rt.alloc(), AFTER);
}
