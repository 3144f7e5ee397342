//! The readers and the writers over bytes made by hand: a file with room for 16 names and one object, `a` of
//! 5 bytes.
ghost use Rattle.std.specs.Prelude.{◌≡◌, length};

use crate::rows::try_holds;
use slot_codec::{
    CodecFault, DIGEST_LEN, HEADER_LEN, Header, Kind, RECORD_LEN, Record, SUPERBLOCK_LEN,
    SuperBlock, read_header, read_record, read_superblock, write_header, write_record,
    write_superblock,
};

/// A position, the byte that is put there, and the fault of what is then read; none where it is read whole.
pub(crate) type Row = (usize, u8, Option<CodecFault>);

const SUPERBLOCKS: &[Row] = &[
    (0, b'C', None),
    (7, b'2', Some(CodecFault::Magic)),
    (8, 65, Some(CodecFault::Params)),
    (18, 1, Some(CodecFault::Params)),
    (63, 1, Some(CodecFault::Zeros)),
];

const HEADERS: &[Row] = &[
    (0, 1, None),
    (0, 2, None),
    (0, 3, Some(CodecFault::Version)),
    (1, 2, Some(CodecFault::Kind)),
    (7, 1, Some(CodecFault::Zeros)),
    (15, 0x40, Some(CodecFault::Worn)),
    (16, 17, Some(CodecFault::Count)),
    (8486, 1, Some(CodecFault::Range)),
];

const RECORDS: &[Row] = &[
    (1, b'a', None),
    (0, 0, Some(CodecFault::NameBytes)),
    (1, 0x20, Some(CodecFault::NameBytes)),
    (63, 1, Some(CodecFault::Zeros)),
    (70, 1, Some(CodecFault::Range)),
];

/// In version 2 there is room for 11 records.
const FEWER: &[Row] = &[
    (16, 11, None),
    (16, 12, Some(CodecFault::Count)),
    (0, 0, Some(CodecFault::Version)),
];

/// In version 2 the digest ends a record, and may be any 32 bytes.
const DIGESTED: &[Row] = &[
    (80, 0xFF, None),
    (111, 0xFF, None),
    (0, 64, Some(CodecFault::NameBytes)),
    (2, 1, Some(CodecFault::Zeros)),
    (79, 1, Some(CodecFault::Range)),
];

/// Puts a byte at a position, if the bytes have it.
pub(crate) fn put(bytes: &mut [u8], at: usize, byte: u8)
    ensures { length bytes.new ≡ length bytes.old }
{
    if at < bytes.len() {
        bytes[at] = byte;
    }
}

/// Puts bytes at positions.
pub(crate) fn put_all<const N: usize>(bytes: &mut [u8; N], parts: &[(usize, u8)]) {
    for (at, byte) in parts {
        put(bytes, *at, *byte);
    }
}

/// The bytes of the superblock that aren't 0.
const SUPERBLOCK: &[(usize, u8)] = &[
    (0, b'C'),
    (1, b'O'),
    (2, b'S'),
    (3, b'T'),
    (4, b'O'),
    (5, b'R'),
    (6, b'E'),
    (7, b'1'),
    (8, 9),
    (16, 16),
];

/// The superblock of the file as bytes, but for one byte.
fn superblock_bytes(at: usize, byte: u8) -> [u8; SUPERBLOCK_LEN] {
    let mut bytes = [0u8; SUPERBLOCK_LEN];
    put_all(&mut bytes, SUPERBLOCK);
    put(&mut bytes, at, byte);
    bytes
}

/// What is written of a superblock.
fn written_superblock(block: &SuperBlock) -> [u8; SUPERBLOCK_LEN] {
    let mut out = [0xFF; SUPERBLOCK_LEN];
    write_superblock(block, &mut out);
    out
}

/// Whether a superblock is read and written again, or has this fault.
fn is_superblock(at: usize, byte: u8, fault: Option<CodecFault>) -> bool {
    let bytes = superblock_bytes(at, byte);
    match read_superblock(&bytes) {
        Ok(block) => {
            fault.is_none()
                && block == SuperBlock { k: 9, names: 16 }
                && written_superblock(&block) == bytes
        }
        Err(found) => Some(found) == fault,
    }
}

#[test]
fn a_superblock_is_read_or_its_first_fault(rt: HostRuntime) {
    for (at, byte, fault) in SUPERBLOCKS {
        try_holds(&rt, is_superblock(*at, *byte, *fault), &(at, byte));
    }
}

/// The header of the file, in a version and with a count.
fn settled_header(version: u8, count: u64) -> Header {
    let mut caps = [0; 32];
    caps[2] = 5;
    Header {
        version,
        kind: Kind::Settled,
        boundary: 0,
        sequence: 1,
        count,
        wall: 0,
        slack: 0,
        caps,
        used: [[0; 32]; 32],
    }
}

/// The header of the file as bytes, in a version, but for one byte.
fn header_bytes(version: u8, at: usize, byte: u8) -> [u8; HEADER_LEN] {
    let mut bytes = [0u8; HEADER_LEN];
    bytes[0] = version;
    bytes[8] = 1;
    bytes[16] = 1;
    bytes[56] = 5;
    put(&mut bytes, at, byte);
    bytes
}

/// What is written of a header.
fn written_header(header: &Header) -> [u8; HEADER_LEN] {
    let mut out = [0xFF; HEADER_LEN];
    write_header(header, &mut out);
    out
}

/// Whether a header is read and written again, or has this fault.
fn is_header(version: u8, at: usize, byte: u8, fault: Option<CodecFault>) -> bool {
    let bytes = header_bytes(version, at, byte);
    match read_header(&bytes, 16) {
        Ok(header) => {
            fault.is_none()
                && header == settled_header(bytes[0], bytes[16] as u64)
                && written_header(&header) == bytes
        }
        Err(found) => Some(found) == fault,
    }
}

#[test]
fn a_header_is_read_or_its_first_fault(rt: HostRuntime) {
    for (at, byte, fault) in HEADERS {
        try_holds(&rt, is_header(1, *at, *byte, *fault), &(at, byte));
    }
}

#[test]
fn version_2_has_room_for_fewer_records(rt: HostRuntime) {
    for (at, byte, fault) in FEWER {
        try_holds(&rt, is_header(2, *at, *byte, *fault), &(at, byte));
    }
}

/// The bytes of the record that aren't 0.
const RECORD: &[(usize, u8)] = &[(0, 1), (1, b'a'), (72, 5)];

/// The record of the file as bytes, but for one byte.
fn record_bytes(at: usize, byte: u8) -> [u8; RECORD_LEN] {
    let mut bytes = [0u8; RECORD_LEN];
    put_all(&mut bytes, RECORD);
    put(&mut bytes, at, byte);
    bytes
}

/// What is written of a record.
#[tactic(auto, unfolding(slot_codec::specs::Spelling::record_len))]
fn written_record(record: &Record) -> [u8; RECORD_LEN] {
    let mut out = [0xFF; RECORD_LEN];
    write_record(record, 1, &mut out);
    out
}

/// Whether this is the record of the file.
fn is_object(record: &Record) -> bool {
    record.name.as_bytes() == b"a".as_slice() && record.place == 0 && record.size == 5
}

/// Whether a record is read and written again, or has this fault.
#[tactic(auto, unfolding(slot_codec::specs::Spelling::record_len))]
fn is_record(at: usize, byte: u8, fault: Option<CodecFault>) -> bool {
    let bytes = record_bytes(at, byte);
    match read_record(&bytes, 1) {
        Ok(record) => {
            fault.is_none()
                && is_object(&record)
                && record.digest == [0; DIGEST_LEN]
                && written_record(&record) == bytes
        }
        Err(found) => Some(found) == fault,
    }
}

#[test]
fn a_record_is_read_or_its_first_fault(rt: HostRuntime) {
    for (at, byte, fault) in RECORDS {
        try_holds(&rt, is_record(*at, *byte, *fault), &(at, byte));
    }
}

/// How long a record of version 2 is.
const DIGESTED_LEN: usize = RECORD_LEN + DIGEST_LEN;

/// The record of the file as bytes of version 2, but for one byte. Byte `i` of its digest is `128 + i`.
fn digested_bytes(at: usize, byte: u8) -> [u8; DIGESTED_LEN] {
    let mut bytes = [0u8; DIGESTED_LEN];
    put_all(&mut bytes, RECORD);
    'digest: for i in 0..DIGEST_LEN {
        bytes[RECORD_LEN + i] = 128 + i as u8;
    }
    put(&mut bytes, at, byte);
    bytes
}

/// What is written of a record in version 2.
#[tactic(auto, unfolding(slot_codec::specs::Spelling::record_len))]
fn written_digested(record: &Record) -> [u8; DIGESTED_LEN] {
    let mut out = [0xFF; DIGESTED_LEN];
    write_record(record, 2, &mut out);
    out
}

/// Whether a record of version 2 is read and written again, or has this fault.
#[tactic(auto, unfolding(slot_codec::specs::Spelling::record_len))]
fn is_digested(at: usize, byte: u8, fault: Option<CodecFault>) -> bool {
    let bytes = digested_bytes(at, byte);
    match read_record(&bytes, 2) {
        Ok(record) => {
            fault.is_none()
                && is_object(&record)
                && record.digest.as_slice() == &bytes[RECORD_LEN..]
                && written_digested(&record) == bytes
        }
        Err(found) => Some(found) == fault,
    }
}

#[test]
fn a_record_of_version_2_ends_with_its_digest(rt: HostRuntime) {
    for (at, byte, fault) in DIGESTED {
        try_holds(&rt, is_digested(*at, *byte, *fault), &(at, byte));
    }
}
