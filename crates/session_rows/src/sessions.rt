//! Worked sessions, each with its input in pieces of 1, 2 and 7 bytes.
use crate::cases::{Case, Left, cases, try_chain, try_each};
use crate::hundreds::{data_hundred, put_hundred};
use row_vectors::Outcome;
use row_vectors::inputs::{DATA_A, DATA_B, KEPT, MISSING, OK, PUT_A, PUT_B, PUT_C};

/// Sessions on a fresh file, longer by a request from row to row.
const GROWING: &[Case] = &cases! {
    [PUT_A] => [KEPT], 0 (1, 1, 22), 12 calls, 19_714 bytes, "store 9 16 1 100 111 2 still\n";
    [PUT_A, PUT_B] => [KEPT, OK], 0 (2, 1, 22), 13 calls, 19_714 bytes, "store 9 16 1 100 111 2 still\n";
    [PUT_A, PUT_B, PUT_C] => [KEPT, OK, KEPT], 0 (3, 3, 46), 36 calls, 19_730 bytes,
        "store 9 16 3 115 127 4 still\n";
    [PUT_A, PUT_B, PUT_C, "list\n", "stat\n"]
        => [KEPT, OK, KEPT, "list 3\na 100\nb 10\nc 5\n", "stat 3 115 3 115\n"], 0 (5, 3, 46), 36 calls,
        19_730 bytes, "store 9 16 3 115 127 4 still\n";
    [PUT_A, PUT_B, PUT_C, "del b\n"] => [KEPT, OK, KEPT, OK], 0 (4, 3, 46), 36 calls, 19_730 bytes,
        "store 9 16 3 115 127 4 still\n";
    [PUT_A, PUT_B, PUT_C, "del b\n", "del c\n"] => [KEPT, OK, KEPT, OK, KEPT], 0 (5, 5, 65), 55 calls,
        19_714 bytes, "store 9 16 1 100 111 6 still\n";
    [PUT_A, PUT_B, PUT_C, "del b\n", "del c\n", "del a\n"] => [KEPT, OK, KEPT, OK, KEPT, KEPT],
        0 (6, 6, 74), 64 calls, 19_603 bytes, "store 9 16 0 0 0 7 still\n";
};

#[test]
fn puts_and_removes_with_and_without_a_flush(rt: HostRuntime) {
    try_each(&rt, rt.alloc(), "9", GROWING);
}

/// Sessions one after another on one file.
const OPENED_AGAIN: &[Case] = &cases! {
    [PUT_A] => [KEPT], 0 (1, 1, 22), 12 calls, 19_714 bytes, "store 9 16 1 100 111 2 still\n";
    ["get a\n", "list\n", "stat\n"] => [DATA_A, "list 1\na 100\n", "stat 1 100 1 100\n"], 0 (3, 0, 22),
        0 calls, 19_714 bytes, "store 9 16 1 100 111 2 still\n";
    [PUT_B, "old b\n", "stat\n"] => [OK, MISSING, "stat 2 110 1 100\n"], 0 (3, 0, 22), 1 calls,
        19_714 bytes, "store 9 16 1 100 111 2 still\n";
    ["get b\n"] => [MISSING], 0 (1, 0, 23), 0 calls, 19_714 bytes,
        "store 9 16 1 100 111 2 still\n";
    [PUT_B, "keep\n", "back\n", "get b\n"] => [OK, KEPT, OK, DATA_B], 0 (4, 2, 31), 8 calls,
        19_714 bytes, "store 9 16 2 110 111 3 still\n";
    [PUT_C] => [KEPT], 0 (1, 1, 54), 23 calls, 19_730 bytes, "store 9 16 3 115 127 5 still\n";
    [] => [], 0 (0, 0, 54), 0 calls, 19_730 bytes, "store 9 16 3 115 127 5 still\n";
};

#[test]
fn goes_on_from_the_last_checkpoint_when_it_is_opened_again(rt: HostRuntime) {
    try_chain(&rt, rt.alloc(), "9", OPENED_AGAIN);
}

/// Sessions that put an object in place of another.
const REPLACING: &[Case] = &cases! {
    [PUT_A, "put a 10\nabcdefghij\n"] => [KEPT, KEPT], 0 (2, 2, 42), 32 calls, 19_614 bytes,
        "store 9 16 1 10 11 4 still\n";
    [PUT_A, "put a 10\nabcdefghij\n", "get a\n", "old a\n"]
        => [KEPT, KEPT, DATA_B, DATA_B], 0 (4, 2, 42), 32 calls,
        19_614 bytes, "store 9 16 1 10 11 4 still\n";
};

#[test]
fn replaces_an_object_with_a_flush(rt: HostRuntime) {
    try_each(&rt, rt.alloc(), "9", REPLACING);
}

/// Another put of 100 bytes.
const PUT_P: &str = put_hundred!("p", "9876543210");

/// Sessions that go back to what was kept.
const GOING_BACK: &[Case] = &cases! {
    [PUT_P, "put q 4\nwxyz\n", "keep\n", "del q\n", "old q\n", "back\n", "get q\n"]
        => [KEPT, OK, KEPT, OK, "data 4\nwxyz\n", OK, "data 4\nwxyz\n"], 0 (7, 3, 30), 20 calls,
        19_714 bytes, "store 9 16 2 104 111 3 still\n";
    [PUT_P, "put q 4\nwxyz\n", "back\n", "get q\n", "get p\n"]
        => [KEPT, OK, OK, MISSING, data_hundred!("9876543210")], 0 (5, 1, 22), 13 calls,
        19_714 bytes, "store 9 16 1 100 111 2 still\n";
};

#[test]
fn goes_back_to_what_was_kept(rt: HostRuntime) {
    try_each(&rt, rt.alloc(), "9", GOING_BACK);
}

/// As many puts as there may be names, and their replies.
const SIXTEEN: &str =
    "put n1 0\n\nput n2 0\n\nput n3 0\n\nput n4 0\n\nput n5 0\n\nput n6 0\n\nput n7 0\n\n\
    put n8 0\n\nput n9 0\n\nput n10 0\n\nput n11 0\n\nput n12 0\n\nput n13 0\n\nput n14 0\n\nput n15 0\n\n\
    put n16 0\n\n";

const SIXTEEN_OK: &str = "ok\nok\nok\nok\nok\nok\nok\nok\nok\nok\nok\nok\nok\nok\nok\nok\n";

/// Sessions of objects without bytes.
const WITHOUT_BYTES: &[Case] = &cases! {
    ["put z 0\n\n", "get z\n"] => [OK, "data 0\n\n"], 0 (2, 0, 10), 0 calls, 19_603 bytes,
        "store 9 16 0 0 0 1 still\n";
    [SIXTEEN, "put n17 0\n\n", "put n1 0\n\n", "del n2\n", "put n17 0\n\n", "stat\n"]
        => [SIXTEEN_OK, "refused full\n", OK, OK, OK, "stat 16 0 0 0\n"], 0 (21, 0, 10), 0 calls,
        19_603 bytes, "store 9 16 0 0 0 1 still\n";
};

#[test]
fn serves_what_needs_no_space_without_a_call(rt: HostRuntime) {
    try_each(&rt, rt.alloc(), "9", WITHOUT_BYTES);
}

/// Sessions one after another on one file with k = 2.
const LEAST_DIVISOR: &[Case] = &cases! {
    ["put x 1\n!\n"] => [KEPT], 0 (1, 1, 22), 12 calls, 19_604 bytes, "store 2 16 1 1 1 2 still\n";
    ["del x\n"] => [KEPT], 0 (1, 1, 31), 9 calls, 19_603 bytes, "store 2 16 0 0 0 3 still\n";
    ["put x 1\n?\n"] => [KEPT], 0 (1, 1, 43), 12 calls, 19_604 bytes, "store 2 16 1 1 1 4 still\n";
    ["get x\n", "del x\n"] => ["data 1\n?\n", KEPT], 0 (2, 2, 52), 9 calls, 19_603 bytes,
        "store 2 16 0 0 0 5 still\n";
    ["put x 1\n!\n", "del x\n", "put x 1\n?\n", "get x\n", "del x\n"]
        => [KEPT, KEPT, KEPT, "data 1\n?\n", KEPT], 0 (5, 5, 94), 42 calls, 19_603 bytes,
        "store 2 16 0 0 0 9 still\n";
};

#[test]
fn flushes_at_the_least_divisor(rt: HostRuntime) {
    try_chain(&rt, rt.alloc(), "2", LEAST_DIVISOR);
}

/// Sessions that end at what is no request.
const NO_REQUESTS: &[Case] = &cases! {
    ["put a 5\nabc"] => ["fault request 1\n"], 2 (0, 0, 10), 0 calls, 19_603 bytes,
        "store 9 16 0 0 0 1 still\n";
    [PUT_A, "put b 10\nabcdefghijk\n"] => [KEPT, "fault request 2\n"], 2 (1, 1, 22), 12 calls,
        19_714 bytes, "store 9 16 1 100 111 2 still\n";
    [PUT_A, PUT_B, "keep \n", "stat\n"] => [KEPT, OK, "fault request 3\n"], 2 (2, 1, 22), 13 calls,
        19_714 bytes, "store 9 16 1 100 111 2 still\n";
};

#[test]
fn ends_at_what_is_no_request(rt: HostRuntime) {
    try_each(&rt, rt.alloc(), "9", NO_REQUESTS);
}
