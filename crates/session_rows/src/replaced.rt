//! A put of 10 bytes in place of 100: each image opens to the one or to the other.
use crate::answers::{fresh, serve_parts, try_number, try_puts};
use crate::further_puts::TEN;
use crate::moments::{FIRST_PUT, FORMATTED, Stage, Story, try_turns};
use disk_face::Disk;
use disk_mem::MemDisk;
use row_vectors::inputs::{KEPT, PUT_A};
use std::alloc::Global;
use std::process::Abort;

/// After a format of 10 calls, `a` of 100 bytes is put in 12, and `a` of 10 bytes in 20.
const SESSION: &Story = &Story {
    stages: &[
        FORMATTED,
        FIRST_PUT,
        Stage {
            from: 31,
            counts: "1 10",
            sequence: 3,
            kind: "moving",
            resumes: 10,
            end: 11,
            puts: TEN,
            calls: 28,
            after: "store 9 16 2 17 18 7 still\n",
        },
        Stage {
            from: 39,
            counts: "1 10",
            sequence: 4,
            kind: "still",
            resumes: 0,
            end: 11,
            puts: TEN,
            calls: 28,
            after: "store 9 16 2 17 18 7 still\n",
        },
    ],
    newest: &[(8, 0), (11, 312), (21, 111), (23, 132), (41, 11)],
    durable: &[(10, 0), (15, 312), (22, 111), (27, 132), (42, 11)],
};

/// The disk of that session.
fn served(rt: &impl Abort, alloc: Global) -> MemDisk {
    let ran = serve_parts(rt, alloc, fresh(rt, alloc), REQUESTS, 7);
    try_puts(rt, alloc, &ran.put, REPLIES, &"replies");
    try_number(rt, ran.disk.turns(), 42, &"turns");
    ran.disk
}

/// Its requests.
const REQUESTS: &[&str] = &[PUT_A, "put a 10\nabcdefghij\n"];

/// Their replies.
const REPLIES: &[&str] = &[KEPT, KEPT];

#[test]
fn goes_on_from_each_turn_of_a_replacement(rt: HostRuntime) {
    let disk = served(&rt, rt.alloc());
    try_turns(&rt, rt.alloc(), &disk, SESSION, (22, 43));
}
