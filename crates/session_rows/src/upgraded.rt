//! `upgrade` of files made by hand and by sessions: what it puts, how many changing calls it makes, what
//! stands in the file then, and what is answered where it is stopped.
use crate::answers::{
    fresh, got, numbered, serve_parts, try_command, try_holds, try_number, try_puts,
};
use disk_face::Disk;
use disk_mem::{Choice, Fuse, MemDisk};
use row_vectors::images::{Change, HELLO_DIGESTED, disk};
use std::alloc::Global;
use std::process::Abort;

const UPGRADE: &[&str] = &["upgrade", "f"];

const GET: &[&str] = &["get", "f", "a"];

/// The file of one object, `hello` under the name `a`, with changes; the status of `upgrade`, what it puts,
/// and how many changing calls it makes.
#[derive(Clone, Copy)]
struct Row {
    changes: &'static [Change],
    status: u8,
    puts: &'static str,
    calls: u64,
}

macro_rules! rows {
    ($($changes:expr => $status:literal $puts:literal $calls:literal;)*) => {
        &[$(Row { changes: &$changes, status: $status, puts: $puts, calls: $calls }),*]
    };
}

const ROWS: &[Row] = rows! {
    [] => 0 "upgraded\n" 7;
    // The sequence 2^61 - 1, 2^61, and the greatest one.
    [(72, 0xFF), (73, 0xFF), (74, 0xFF), (75, 0xFF), (76, 0xFF), (77, 0xFF), (78, 0xFF), (79, 0x1F)]
        => 0 "upgraded\n" 7;
    [(72, 0), (79, 0x20)] => 15 "fault worn\n" 0;
    [(72, 0xFF), (73, 0xFF), (74, 0xFF), (75, 0xFF), (76, 0xFF), (77, 0xFF), (78, 0xFF), (79, 0x3F)]
        => 15 "fault worn\n" 0;
    // A file of version 2 isn't written, whatever its digests and its sequence are.
    [(64, 2)] => 0 "upgraded\n" 0;
    [(64, 2), (72, 0), (79, 0x20)] => 0 "upgraded\n" 0;
    // It is no store.
    [(64, 3)] => 4 "fault store codec 3 at 64\n" 0;
};

/// What `upgrade` comes to.
fn try_row(rt: &impl Abort, alloc: Global, row: &Row) {
    let file = got(rt, disk(alloc, 19_608, &[], row.changes));
    let file = try_command(rt, alloc, file, UPGRADE, row.status, row.puts);
    try_number(rt, file.turns(), row.calls, &row.puts);
}

#[test]
fn upgrades_or_says_why_not(rt: HostRuntime) {
    for row in ROWS {
        try_row(&rt, rt.alloc(), row);
    }
}

/// What stands in the second slot then: its version, its sequence, its count, and the first and the last byte
/// of the record's digest, which is the SHA-256 of `hello`.
const WRITTEN: &[Change] = &[
    (9_833, 2),
    (9_841, 2),
    (9_849, 1),
    (18_401, 0x2C),
    (18_432, 0x24),
    (19_601, 0xA5),
];

/// One of these bytes.
fn try_written(rt: &impl Abort, bytes: &[u8], written: &Change) {
    let (at, byte) = *written;
    try_holds(rt, bytes.get(at).copied() == Some(byte), &at);
}

/// The bytes of a file as it stands.
fn bytes_of(rt: &impl Abort, file: &MemDisk) -> Vec<u8> {
    file.image(file.turns(), Choice::Newest)
        .expect(rt, "memory")
}

/// Once more it does nothing.
#[test]
fn writes_the_other_slot_once(rt: HostRuntime) {
    let file = got(&rt, disk(rt.alloc(), 19_608, &[], &[]));
    let file = try_command(&rt, rt.alloc(), file, UPGRADE, 0, "upgraded\n");
    let bytes = bytes_of(&rt, &file);
    for written in WRITTEN {
        try_written(&rt, &bytes, written);
    }
    let file = try_command(&rt, rt.alloc(), file, GET, 0, "hello");
    let file = try_command(&rt, rt.alloc(), file, UPGRADE, 0, "upgraded\n");
    try_number(&rt, file.turns(), 7, &"once more");
}

/// Requests, and what is answered where a byte of the object was changed: of version 2 and of version 1.
const ASKS: &[&str] = &["get a\n", "old a\n", "put a 1\nx\n", "get a\n"];

const DAMAGED: &[&str] = &[
    "refused damaged\n",
    "refused damaged\n",
    "ok kept\n",
    "data 1\nx\n",
];

const UNSEEN: &[&str] = &[
    "data 5\njello\n",
    "data 5\njello\n",
    "ok kept\n",
    "data 1\nx\n",
];

/// The changes to the file of version 1: none.
const PLAIN: &[Change] = &[];

/// A session over a file of one object whose first byte was changed.
fn try_changed(rt: &impl Abort, alloc: Global, base: &[Change], puts: &[&str]) {
    let file = got(rt, disk(alloc, 19_608, base, &[(19_603, b'j')]));
    let ran = serve_parts(rt, alloc, file, ASKS, 3);
    try_puts(rt, alloc, &ran.put, puts, &"changed");
}

#[test]
fn tells_of_a_changed_object_by_its_digest_alone(rt: HostRuntime) {
    try_changed(&rt, rt.alloc(), HELLO_DIGESTED, DAMAGED);
    try_changed(&rt, rt.alloc(), PLAIN, UNSEEN);
}

/// Names without bytes, of which a file of version 2 with room for 16 of version 1 has room for 11.
const NAMES: &[&str] = &[
    "put a 0\n\n",
    "put b 0\n\n",
    "put c 0\n\n",
    "put d 0\n\n",
    "put e 0\n\n",
    "put f 0\n\n",
    "put g 0\n\n",
    "put h 0\n\n",
    "put i 0\n\n",
    "put j 0\n\n",
    "put k 0\n\n",
    "keep\n",
];

/// One more.
const TWELFTH: &[&str] = &["put l 0\n\n", "keep\n"];

/// A new file that served these requests.
fn named(rt: &impl Abort, alloc: Global) -> MemDisk {
    serve_parts(rt, alloc, fresh(rt, alloc), NAMES, 64).disk
}

#[test]
fn says_how_many_names_are_too_many(rt: HostRuntime) {
    let file = named(&rt, rt.alloc());
    let file = serve_parts(&rt, rt.alloc(), file, TWELFTH, 64).disk;
    let turns = file.turns();
    let file = try_command(&rt, rt.alloc(), file, UPGRADE, 14, "fault too many 12\n");
    try_number(&rt, file.turns(), turns, &"none");
    let file = named(&rt, rt.alloc());
    try_command(&rt, rt.alloc(), file, UPGRADE, 0, "upgraded\n");
}

/// It is stopped at one changing call: the object is there, and once more it is done, by as many calls as it
/// takes where it wasn't yet.
fn try_stopped(rt: &impl Abort, alloc: Global, call: u64) {
    let file = got(rt, disk(alloc, 19_608, &[], &[]));
    let fuse = Fuse::listed(file, numbered(rt, alloc, call), Vec::new(alloc));
    let file = try_command(rt, alloc, fuse, UPGRADE, 7, "fault disk\n").into_inner();
    try_again(rt, alloc, file, call);
}

fn try_again(rt: &impl Abort, alloc: Global, file: MemDisk, call: u64) {
    let made = file.turns();
    let file = try_command(rt, alloc, file, GET, 0, "hello");
    let file = try_command(rt, alloc, file, UPGRADE, 0, "upgraded\n");
    // The sixth call opens the gate of the slot.
    let more = if call <= 6 { 7 } else { 0 };
    try_number(rt, file.turns(), made.saturating_add(more), &call);
}

#[test]
fn may_be_done_again_where_a_call_failed(rt: HostRuntime) {
    for call in 1..8 {
        try_stopped(&rt, rt.alloc(), call);
    }
}
