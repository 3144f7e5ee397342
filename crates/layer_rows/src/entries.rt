//! The readers and the writers of the parts of an entry of a log, over bytes made by hand. No file of the
//! program has a log yet.
use crate::codec::{Row, put, put_all};
use crate::rows::try_holds;
use slot_codec::{
    CodecFault, ENTRY_HEAD_LEN, EntryHead, Kind, PAIR_LEN, read_cell, read_entry_head, read_move,
    up, write_entry_head, write_pair,
};

/// A head has its kind at 0, its boundary at 1, zeros from 2 on, the counts of cells at 7, of moved objects
/// at 15, of names gone at 23 and of records put at 31, the wall at 39 and the slack at 47. All but moved
/// objects and the slack are as great as they may be.
const HEADS: &[Row] = &[
    (0, 1, None),
    (0, 0, None),
    (1, 0xFF, None),
    (0, 2, Some(CodecFault::Kind)),
    (2, 1, Some(CodecFault::Zeros)),
    (6, 1, Some(CodecFault::Zeros)),
    (7, 0x21, Some(CodecFault::Count)),
    (15, 6, Some(CodecFault::Count)),
    (23, 6, Some(CodecFault::Count)),
    (31, 8, Some(CodecFault::Count)),
    (45, 1, Some(CodecFault::Range)),
    (53, 1, Some(CodecFault::Range)),
];

/// From its gate on the entry has 56 bytes and 16 for each of 2,084 pairs, 64 for each of 1,029 names and 112
/// for each of 1,543 records, which are 272,072, and up to the next multiple of 512 there are 272,384: a room
/// of bytes, where that is 1 the byte at 45 too, and the fault.
const ROOMS: &[(u64, u8, Option<CodecFault>)] = &[
    (272_385, 0, None),
    (272_384, 0, Some(CodecFault::Entry)),
    (0, 0, Some(CodecFault::Entry)),
    (272_384, 1, Some(CodecFault::Entry)),
    (272_385, 1, Some(CodecFault::Range)),
];

/// Numbers of bytes, and the least multiples of 512 that aren't below them.
const UPS: &[(u64, u64)] = &[
    (0, 0),
    (1, 512),
    (512, 512),
    (513, 1024),
    (272_072, 272_384),
];

/// A pair, the least number that a cell may have and the cell's fault, and how many objects there are and the
/// move's fault.
const USES: &[(u64, u64, u64, Option<CodecFault>, u64, Option<CodecFault>)] = &[
    (6, 100, 0, None, 7, None),
    (6, 100, 6, None, 6, Some(CodecFault::Absent)),
    (
        6,
        100,
        7,
        Some(CodecFault::Order),
        0,
        Some(CodecFault::Absent),
    ),
    (1055, 1, 0, None, 1056, None),
    (
        1056,
        1,
        0,
        Some(CodecFault::Order),
        1056,
        Some(CodecFault::Absent),
    ),
    (1056, 0, 0, Some(CodecFault::Order), 1057, None),
    (0, 0, 0, Some(CodecFault::Range), 1, None),
    (0, 0xFFFF_FFFF_FFFF, 0, None, 1, None),
    (
        0,
        0x1_0000_0000_0000,
        0,
        Some(CodecFault::Range),
        1,
        Some(CodecFault::Range),
    ),
];

/// Pairs of numbers, and their bytes.
const PAIRS: &[(u64, u64, [u8; PAIR_LEN])] = &[
    (6, 100, [6, 0, 0, 0, 0, 0, 0, 0, 100, 0, 0, 0, 0, 0, 0, 0]),
    (
        0x0201,
        0x0807_0605_0403_0201,
        [1, 2, 0, 0, 0, 0, 0, 0, 1, 2, 3, 4, 5, 6, 7, 8],
    ),
];

/// The bytes of the head that aren't 0: 1,056 cells, 1,028 moved objects, 1,029 names gone, 1,543 records
/// put, the wall at 2^48 - 1 and a slack of 2,312.
const HEAD: &[(usize, u8)] = &[
    (0, 1),
    (1, 2),
    (7, 0x20),
    (8, 4),
    (15, 4),
    (16, 4),
    (23, 5),
    (24, 4),
    (31, 7),
    (32, 6),
    (39, 0xFF),
    (40, 0xFF),
    (41, 0xFF),
    (42, 0xFF),
    (43, 0xFF),
    (44, 0xFF),
    (47, 8),
    (48, 9),
];

/// The head as bytes, but for one byte.
fn head_bytes(at: usize, byte: u8) -> [u8; ENTRY_HEAD_LEN] {
    let mut bytes = [0u8; ENTRY_HEAD_LEN];
    put_all(&mut bytes, HEAD);
    put(&mut bytes, at, byte);
    bytes
}

/// The head, with the kind of a code and a boundary.
fn entry_head(code: u8, boundary: u8) -> EntryHead {
    EntryHead {
        kind: if code == 0 {
            Kind::Settled
        } else {
            Kind::Moving
        },
        boundary,
        cells: 1056,
        moved: 1028,
        gone: 1029,
        puts: 1543,
        wall: 0xFFFF_FFFF_FFFF,
        slack: 2312,
    }
}

/// What is written of a head.
fn written_head(head: &EntryHead) -> [u8; ENTRY_HEAD_LEN] {
    let mut out = [0xFF; ENTRY_HEAD_LEN];
    write_entry_head(head, &mut out);
    out
}

/// Whether a head is read and written again, or has this fault, where the slot has room for 1,543 records, the
/// table before the entry has 1,029, and the log has a room of bytes.
fn is_head(at: usize, byte: u8, room: u64, fault: Option<CodecFault>) -> bool {
    let bytes = head_bytes(at, byte);
    match read_entry_head(&bytes, 1543, 1029, room) {
        Ok(head) => {
            fault.is_none()
                && head == entry_head(bytes[0], bytes[1])
                && written_head(&head) == bytes
        }
        Err(found) => Some(found) == fault,
    }
}

#[test]
fn the_head_of_an_entry_is_read_or_its_first_fault(rt: HostRuntime) {
    for (at, byte, fault) in HEADS {
        try_holds(&rt, is_head(*at, *byte, 272_385, *fault), &(at, byte));
    }
}

#[test]
fn an_entry_ends_below_the_top_of_its_log(rt: HostRuntime) {
    for (room, byte, fault) in ROOMS {
        try_holds(&rt, is_head(45, *byte, *room, *fault), &(room, byte));
    }
}

#[test]
fn an_entry_begins_at_a_multiple_of_512(rt: HostRuntime) {
    for (n, next) in UPS {
        try_holds(&rt, up(*n) == *next, &(n, next));
    }
}

/// What is written of a pair.
fn written_pair(first: u64, second: u64) -> [u8; PAIR_LEN] {
    let mut out = [0xFF; PAIR_LEN];
    write_pair((first, second), &mut out);
    out
}

/// Whether a pair is read as it is, or has this fault.
fn is_pair(
    read: Result<(u64, u64), CodecFault>,
    pair: (u64, u64),
    fault: Option<CodecFault>,
) -> bool {
    match read {
        Ok(found) => fault.is_none() && found == pair,
        Err(found) => Some(found) == fault,
    }
}

#[test]
fn a_pair_of_numbers_is_written(rt: HostRuntime) {
    for (first, second, bytes) in PAIRS {
        try_holds(
            &rt,
            written_pair(*first, *second) == *bytes,
            &(first, second),
        );
    }
}

#[test]
fn a_pair_is_read_as_a_cell_and_as_a_move(rt: HostRuntime) {
    for (first, second, next, cell_fault, count, move_fault) in USES {
        let bytes = written_pair(*first, *second);
        let cell = is_pair(read_cell(&bytes, *next), (*first, *second), *cell_fault);
        let moved = is_pair(read_move(&bytes, *count), (*first, *second), *move_fault);
        try_holds(&rt, cell && moved, &(first, second));
    }
}
