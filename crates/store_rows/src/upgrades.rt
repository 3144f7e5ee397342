//! Giving each object of a store its digest: what it answers and saves, and what a stop within it leaves.
use crate::checkpoints::Object;
use crate::flushed::fresh;
use crate::maps::{Which, opened_map};
use crate::requests::{Ask, KEPT, QUIET, Reply, Row, refused, rows, try_holds, try_rows};
use crate::trials::{Trial, on_file};
use disk_mem::{Choice, Fuse, MemDisk};
use plain_layout::open;
use size_class::{CLASSES, SIZE_MAX};
use std::alloc::Global;
use std::process::Abort;
use store_core::Refusal;

/// The SHA-256 of `hello`.
const DIGEST: [u8; 32] = [
    0x2c, 0xf2, 0x4d, 0xba, 0x5f, 0xb0, 0xa3, 0x0e, 0x26, 0xe8, 0x3b, 0x2a, 0xc5, 0xb9, 0xe2, 0x9e,
    0x1b, 0x16, 0x1e, 0x5c, 0x1f, 0xa7, 0x42, 0x5e, 0x73, 0x04, 0x33, 0x62, 0x93, 0x8b, 0x98, 0x24,
];

/// A store of one object, which is kept.
fn hello(rt: &impl Abort, alloc: Global) -> Trial<MemDisk> {
    let mut trial = fresh(rt, alloc);
    try_rows(rt, alloc, &mut trial, HELLO_ROWS);
    trial
}

const HELLO_ROWS: &[Row] = rows! {
    Ask::Put("a", b"hello") => KEPT, b"", 12;
};

/// To what a file opens.
#[derive(Clone, Copy, PartialEq, Eq)]
enum Opens {
    /// To that object, without its digest.
    Before,
    /// To it with its digest.
    After,
    Neither,
}

/// Where the digest of the first record stands in a table of version 2, in either slot.
const FIRST_DIGEST: usize = 8_632;

const OTHER_DIGEST: usize = 18_401;

/// To what a file opens whose digest stands there, if it has one.
fn opened(rt: &impl Abort, alloc: Global, file: &[u8], digest_at: usize) -> Opens {
    let mut disk = MemDisk::from_bytes(alloc, file).expect(rt, "memory");
    let Ok(opened) = open(alloc, &mut disk, CLASSES as u8, SIZE_MAX) else {
        return Opens::Neither;
    };
    if !has_map(rt, alloc, file) {
        return Opens::Neither;
    }
    match opened.table.header.version {
        1 => Opens::Before,
        2 if has_digest(file, digest_at) => Opens::After,
        _ => Opens::Neither,
    }
}

/// Whether a file has that object alone.
fn has_map(rt: &impl Abort, alloc: Global, file: &[u8]) -> bool {
    opened_map(rt, alloc, file, HELLO, &[]) == Which::Before
}

/// Whether a file has the digest of the object there.
fn has_digest(file: &[u8], at: usize) -> bool {
    at < file.len() && file[at..].starts_with(&DIGEST)
}

const HELLO: &[Object] = &[Object {
    name: "a",
    place: 0,
    bytes: b"hello",
    is_buffered: false,
}];

/// It is done once, and a way back leads to it.
const UPGRADED_ROWS: &[Row] = rows! {
    Ask::Upgrade => KEPT, b"", 7;
    Ask::Get("a") => Reply::Number(5), b"hello", 0;
    Ask::Old("a") => Reply::Number(5), b"hello", 0;
    Ask::Upgrade => QUIET, b"", 0;
    Ask::Put("b", b"") => QUIET, b"", 0;
    Ask::Back => Reply::Nothing, b"", 0;
    Ask::Upgrade => QUIET, b"", 0;
    Ask::Keep => KEPT, b"", 7;
};

#[test]
fn gives_each_object_its_digest_once(rt: HostRuntime) {
    let mut trial = hello(&rt, rt.alloc());
    try_rows(&rt, rt.alloc(), &mut trial, UPGRADED_ROWS);
    let file = trial.file(&rt, rt.alloc());
    assert!(rt;
        trial.store().cap() == 11 && opened(&rt, rt.alloc(), &file, OTHER_DIGEST) == Opens::After
    );
}

/// One name more than there may be in version 2, and then as many.
const MANY_ROWS: &[Row] = rows! {
    Ask::Put("a", b"") => QUIET, b"", 0;
    Ask::Put("b", b"") => QUIET, b"", 0;
    Ask::Put("c", b"") => QUIET, b"", 0;
    Ask::Put("d", b"") => QUIET, b"", 0;
    Ask::Put("e", b"") => QUIET, b"", 0;
    Ask::Put("f", b"") => QUIET, b"", 0;
    Ask::Put("g", b"") => QUIET, b"", 0;
    Ask::Put("h", b"") => QUIET, b"", 0;
    Ask::Put("i", b"") => QUIET, b"", 0;
    Ask::Put("j", b"") => QUIET, b"", 0;
    Ask::Put("k", b"") => QUIET, b"", 0;
    Ask::Put("l", b"") => QUIET, b"", 0;
    Ask::Upgrade => refused!(TooMany), b"", 0;
    Ask::Put("m", b"") => QUIET, b"", 0;
    Ask::Back => Reply::Nothing, b"", 0;
    Ask::Upgrade => KEPT, b"", 6;
};

#[test]
fn is_refused_where_too_many_names_are_live(rt: HostRuntime) {
    let mut trial = fresh(&rt, rt.alloc());
    try_rows(&rt, rt.alloc(), &mut trial, MANY_ROWS);
}

/// A store whose disk failed.
const BROKEN_ROWS: &[Row] = rows! {
    Ask::Upgrade => refused!(Broken), b"", 0;
    Ask::Get("a") => refused!(Broken), b"", 0;
};

/// The disk fails at one changing call, and once the file is opened again it may be done.
fn try_call(rt: &impl Abort, alloc: Global, call: u64) {
    let changes = vec![in alloc; call].expect(rt, "memory");
    let mut trial = hello(rt, alloc).failing(changes, Vec::new(alloc));
    try_failed(rt, alloc, &mut trial, call);
    let file = trial.file(rt, alloc);
    // The sixth call opens the gate of the checkpoint with digests.
    let expected = if call <= 6 {
        Opens::Before
    } else {
        Opens::After
    };
    try_holds(
        rt,
        opened(rt, alloc, &file, FIRST_DIGEST) == expected,
        &call,
    );
    try_again(rt, alloc, &file, call <= 6);
}

/// It fails at this call, and the store is broken.
fn try_failed(rt: &impl Abort, alloc: Global, trial: &mut Trial<Fuse<MemDisk>>, call: u64) {
    let failed = Row {
        ask: Ask::Upgrade,
        reply: refused!(Disk),
        puts: b"",
        calls: call,
    };
    try_rows(rt, alloc, trial, &[failed]);
    try_rows(rt, alloc, trial, BROKEN_ROWS);
}

/// Where it wasn't done, and where it was.
const AGAIN_ROWS: &[Row] = rows! {
    Ask::Upgrade => KEPT, b"", 7;
};

const DONE_ROWS: &[Row] = rows! {
    Ask::Upgrade => QUIET, b"", 0;
};

/// The file is opened again, and it is done if it wasn't.
fn try_again(rt: &impl Abort, alloc: Global, file: &[u8], is_plain: bool) {
    let mut trial = on_file(rt, alloc, file);
    let rows = if is_plain { AGAIN_ROWS } else { DONE_ROWS };
    try_rows(rt, alloc, &mut trial, rows);
    let file = trial.file(rt, alloc);
    assert!(rt; opened(rt, alloc, &file, FIRST_DIGEST) == Opens::After);
}

#[test]
fn is_broken_by_each_failed_call_and_may_be_done_again(rt: HostRuntime) {
    for call in 1..8 {
        try_call(&rt, rt.alloc(), call);
    }
}

/// The images of a turn that are tried: what the last sync left, what reads gave, and the written bytes
/// and those of the write that is next as other ones.
const CHOICES: &[Choice] = &[
    Choice::Durable,
    Choice::Newest,
    Choice::Torn(0),
    Choice::Torn(0x5A),
    Choice::Torn(0xFF),
];

/// Up to the fourth turn each image opens to what stood before, and from the seventh on to what stands
/// after.
fn is_either(turn: u64, opens: Opens) -> bool {
    (turn < 7 && opens == Opens::Before) || (5 <= turn && opens == Opens::After)
}

/// The images of one turn of an upgrade that began at another.
fn try_turn(rt: &impl Abort, alloc: Global, trial: &Trial<MemDisk>, began: u64, turn: u64) {
    for choice in CHOICES {
        let image = trial.image(rt, began.saturating_add(turn), *choice);
        try_holds(
            rt,
            is_either(turn, opened(rt, alloc, &image, FIRST_DIGEST)),
            &(turn, *choice),
        );
    }
}

#[test]
fn leaves_what_stood_before_or_each_object_with_its_digest(rt: HostRuntime) {
    let mut trial = hello(&rt, rt.alloc());
    let began = trial.turns();
    try_rows(&rt, rt.alloc(), &mut trial, AGAIN_ROWS);
    for turn in 0..8 {
        try_turn(&rt, rt.alloc(), &trial, began, turn);
    }
}
