//! The parts of an entry of a log. No file of the program has a log yet: it is to stand behind the records
//! of a slot. An entry says what changed in the table since the entry before. It is a gate, a head, its
//! cells and its moved objects as pairs of numbers, the names that are gone, the records put, and zeros up
//! to the next multiple of 512.
ghost use Rattle.std.specs.Prelude.{◌≡◌, ◌<◌, ◌≤◌, ◌^◌, IfOk, length};
ghost use Rattle.slot_codec.specs.{Cells.{header_cells}, Entries.{IsEntryHead, entry_head_bytes, entry_head_of, entry_len, entry_room, has_too_many, pair_at, pair_bytes, read_entry_head, up}, Logs.{read_cell, read_move}};

use crate::cells::HEADER_CELLS;
use crate::fields::{RANGE, are_zeros, kind_of, number_at};
use crate::lengths::{DIGEST_LEN, ENTRY_HEAD_LEN, NAME_LEN, PAIR_LEN, RECORD_LEN, SECTOR_LEN};
use crate::put::{put, put_number, put_zeros};
use crate::write::code_of;
use crate::{CodecFault, Kind};

/// What an entry of a log says of itself. The wall and the slack are in bytes and below 2^48, like those
/// of a header, and the wall counts from the start of the data part.
#[derive(Clone, Copy, Debug, PartialEq, Eq)]
pub struct EntryHead {
    /// Of the table behind the entry, like the boundary, the wall and the slack.
    pub kind: Kind,
    pub boundary: u8,
    /// How many of a header's capacities and of its numbers for the buffers the entry gives, at most 1,056;
    /// the others are 0.
    pub cells: u64,
    /// How many objects the entry gives a new place, at most as many as the table before it has.
    pub moved: u64,
    /// How many names it takes out, at most as many as the table before it has.
    pub gone: u64,
    /// How many records it puts, at most as many as a slot has room for.
    pub puts: u64,
    pub wall: u64,
    pub slack: u64,
}

impl EntryHead {
    /// How long the entry is in bytes, with its gate, where it has at most 1,056 cells and at most 2^32 of
    /// each of the others.
    pub fn len(&self) -> u64
        requires cells { self.now.cells ≤ header_cells }
        requires moved { self.now.moved ≤ 2 ^ 32 }
        requires gone { self.now.gone ≤ 2 ^ 32 }
        requires puts { self.now.puts ≤ 2 ^ 32 }
        ensures { result ≡ entry_len self.now }
    {
        1 + ENTRY_HEAD_LEN as u64
            + PAIR_LEN as u64 * (self.cells + self.moved)
            + NAME_LEN as u64 * self.gone
            + (RECORD_LEN + DIGEST_LEN) as u64 * self.puts
    }

    /// Its length in bytes with the gap behind it, a multiple of 512, within the same bounds.
    pub fn room(&self) -> u64
        requires cells { self.now.cells ≤ header_cells }
        requires moved { self.now.moved ≤ 2 ^ 32 }
        requires gone { self.now.gone ≤ 2 ^ 32 }
        requires puts { self.now.puts ≤ 2 ^ 32 }
        ensures { result ≡ entry_room self.now }
    {
        up(self.len())
    }
}

/// The least multiple of 512 that isn't below a number below 2^63.
pub fn up(n: u64) -> u64
    requires { n < 2 ^ 63 }
    ensures { result ≡ up n }
{
    (n + (SECTOR_LEN - 1)) / SECTOR_LEN * SECTOR_LEN
}

/// What the 55 bytes behind an entry's gate say, where the slot has room for `cap` records, the table
/// before the entry has `count`, and the log has `room` bytes from that gate on, in which the entry and the
/// next gate must stand. Else the first fault that holds: `Kind` where the first byte is neither 0 nor 1,
/// `Zeros` where one of bytes 2 to 6 isn't 0, `Count` where there are more cells than 1,056, more moved
/// objects or names gone than `count`, or more records than `cap`, `Entry` where the room is too small,
/// `Range` where the wall or the slack is 2^48 or more.
#[tactic(auto, unfolding(crate::specs::Entries::read_entry_head))]
pub fn read_entry_head(
    bytes: &[u8],
    cap: u64,
    count: u64,
    room: u64,
) -> Result<EntryHead, CodecFault>
    requires len { length bytes.now ≡ ENTRY_HEAD_LEN }
    requires cap { cap ≤ 2 ^ 32 }
    requires count { count ≤ 2 ^ 32 }
    ensures value { result ≡ read_entry_head cap count room bytes.now }
    ensures ranges { IfOk result (λ head. IsEntryHead cap count room head) }
{
    if 1 < bytes[0] {
        return Err(CodecFault::Kind);
    }
    if !are_zeros(&bytes[2..7]) {
        return Err(CodecFault::Zeros);
    }
    let head = entry_head_of(bytes);
    if has_too_many(&head, cap, count) {
        return Err(CodecFault::Count);
    }
    if room <= head.room() {
        return Err(CodecFault::Entry);
    }
    if RANGE <= head.wall || RANGE <= head.slack {
        return Err(CodecFault::Range);
    }
    Ok(head)
}

/// The fields by their positions, whether or not the head is at fault.
fn entry_head_of(bytes: &[u8]) -> EntryHead
    requires { length bytes.now ≡ ENTRY_HEAD_LEN }
    ensures { result ≡ entry_head_of bytes.now }
{
    EntryHead {
        kind: kind_of(bytes[0]),
        boundary: bytes[1],
        cells: number_at(bytes, 7),
        moved: number_at(bytes, 15),
        gone: number_at(bytes, 23),
        puts: number_at(bytes, 31),
        wall: number_at(bytes, 39),
        slack: number_at(bytes, 47),
    }
}

/// Whether one of the four counts is too great.
fn has_too_many(head: &EntryHead, cap: u64, count: u64) -> bool
    ensures { result ≡ has_too_many cap count head.now }
{
    HEADER_CELLS < head.cells || count < head.moved || count < head.gone || cap < head.puts
}

/// Writes the head of an entry into 55 bytes, its numbers as they are.
pub fn write_entry_head(head: &EntryHead, out: &mut [u8])
    requires { length out.old ≡ ENTRY_HEAD_LEN }
    ensures { out.new ≡ entry_head_bytes head.now }
{
    put(out, 0, &[code_of(head.kind), head.boundary]);
    put_zeros(out, 2, 5);
    put_number(out, 7, head.cells);
    put_number(out, 15, head.moved);
    put_number(out, 23, head.gone);
    put_number(out, 31, head.puts);
    put_number(out, 39, head.wall);
    put_number(out, 47, head.slack);
}

/// The pair of numbers that 16 bytes say, which is never a fault.
fn read_pair(bytes: &[u8]) -> (u64, u64)
    requires { length bytes.now ≡ PAIR_LEN }
    ensures { result ≡ pair_at bytes.now 0 }
{
    (number_at(bytes, 0), number_at(bytes, 8))
}

/// The cell that 16 bytes say: which number of a header, `next` or more and at most 1,055, and its value.
/// `Order` where it is another one, else `Range` where the value is 0, or 2^48 or more.
pub fn read_cell(bytes: &[u8], next: u64) -> Result<(u64, u64), CodecFault>
    requires { length bytes.now ≡ PAIR_LEN }
    ensures value { result ≡ read_cell next bytes.now }
    ensures cell { IfOk result (λ p. p.0 < header_cells) }
{
    let (number, value) = read_pair(bytes);
    if number < next || HEADER_CELLS <= number {
        return Err(CodecFault::Order);
    }
    if value == 0 || RANGE <= value {
        return Err(CodecFault::Range);
    }
    Ok((number, value))
}

/// The move that 16 bytes say: the rank by name of one of `count` objects, counted from 0, and its new place
/// in bytes. `Absent` where there is no such rank, else `Range` where the place is 2^48 or more.
pub fn read_move(bytes: &[u8], count: u64) -> Result<(u64, u64), CodecFault>
    requires { length bytes.now ≡ PAIR_LEN }
    ensures value { result ≡ read_move count bytes.now }
    ensures there { IfOk result (λ p. p.0 < count) }
    ensures place { IfOk result (λ p. p.1 < 2 ^ 48) }
{
    let (rank, place) = read_pair(bytes);
    if count <= rank {
        return Err(CodecFault::Absent);
    }
    if RANGE <= place {
        return Err(CodecFault::Range);
    }
    Ok((rank, place))
}

/// Writes a pair of numbers into 16 bytes.
pub fn write_pair(pair: (u64, u64), out: &mut [u8])
    requires { length out.old ≡ PAIR_LEN }
    ensures { out.new ≡ pair_bytes pair }
{
    put_number(out, 0, pair.0);
    put_number(out, 8, pair.1);
}
