//! A session of three puts and three removals, of which four flush: what a crash leaves at each turn.
use crate::answers::{fresh, serve_parts, try_number, try_puts};
use crate::further_puts::{NONE, ONE, THREE};
use crate::moments::{FIRST_PUT, FORMATTED, Stage, Story, try_turns};
use disk_face::Disk;
use disk_mem::MemDisk;
use row_vectors::inputs::{KEPT, OK, PUT_A, PUT_B, PUT_C};
use std::alloc::Global;
use std::process::Abort;

/// After a format of 10 calls, `a` is put in 12, `b` in 1, `c` in 23, `b` is removed in none, `c` in 19 and
/// `a` in 9.
const SESSION: &Story = &Story {
    stages: &[
        FORMATTED,
        FIRST_PUT,
        Stage {
            from: 33,
            counts: "3 115",
            sequence: 3,
            kind: "moving",
            resumes: 12,
            end: 127,
            puts: THREE,
            calls: 8,
            after: "store 9 16 4 122 127 5 still\n",
        },
        Stage {
            from: 43,
            counts: "3 115",
            sequence: 4,
            kind: "still",
            resumes: 0,
            end: 127,
            puts: THREE,
            calls: 8,
            after: "store 9 16 4 122 127 5 still\n",
        },
        Stage {
            from: 54,
            counts: "1 100",
            sequence: 5,
            kind: "moving",
            resumes: 10,
            end: 111,
            puts: ONE,
            calls: 8,
            after: "store 9 16 2 107 111 7 still\n",
        },
        Stage {
            from: 62,
            counts: "1 100",
            sequence: 6,
            kind: "still",
            resumes: 0,
            end: 111,
            puts: ONE,
            calls: 8,
            after: "store 9 16 2 107 111 7 still\n",
        },
        Stage {
            from: 71,
            counts: "0 0",
            sequence: 7,
            kind: "still",
            resumes: 0,
            end: 0,
            puts: NONE,
            calls: 19,
            after: "store 9 16 1 7 7 9 still\n",
        },
    ],
    newest: &[
        (8, 0),
        (11, 312),
        (21, 111),
        (24, 254),
        (45, 127),
        (47, 239),
        (64, 111),
        (66, 112),
        (73, 0),
    ],
    durable: &[
        (10, 0),
        (15, 312),
        (22, 111),
        (29, 254),
        (46, 127),
        (50, 239),
        (65, 111),
        (68, 112),
        (74, 0),
    ],
};

/// Its requests.
const REQUESTS: &[&str] = &[PUT_A, PUT_B, PUT_C, "del b\n", "del c\n", "del a\n"];

/// Their replies.
const REPLIES: &[&str] = &[KEPT, OK, KEPT, OK, KEPT, KEPT];

/// The disk of that session.
pub fn served(rt: &impl Abort, alloc: Global) -> MemDisk {
    let ran = serve_parts(rt, alloc, fresh(rt, alloc), REQUESTS, 7);
    try_puts(rt, alloc, &ran.put, REPLIES, &"replies");
    try_number(rt, ran.disk.turns(), 74, &"turns");
    ran.disk
}

/// The images of its turns from one to before another.
fn try_session(rt: &impl Abort, alloc: Global, turns: (u64, u64)) {
    let disk = served(rt, alloc);
    try_turns(rt, alloc, &disk, SESSION, turns);
}

#[test]
fn goes_on_from_each_turn_of_a_first_put(rt: HostRuntime) {
    try_session(&rt, rt.alloc(), (10, 23));
}

#[test]
fn goes_on_from_each_turn_of_a_put_in_a_buffer_and_of_a_flush(rt: HostRuntime) {
    try_session(&rt, rt.alloc(), (23, 36));
}

#[test]
fn goes_on_from_each_turn_of_the_rest_of_that_flush(rt: HostRuntime) {
    try_session(&rt, rt.alloc(), (36, 47));
}

#[test]
fn goes_on_from_each_turn_of_removals(rt: HostRuntime) {
    try_session(&rt, rt.alloc(), (47, 65));
}

#[test]
fn goes_on_from_each_turn_of_a_last_removal(rt: HostRuntime) {
    try_session(&rt, rt.alloc(), (65, 75));
}
