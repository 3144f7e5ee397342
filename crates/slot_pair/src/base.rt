//! Writing the table of a slot that is to have a log behind it: a header of version 3, its records, and the
//! zeros behind them up to the first gate of the log, which is closed. No file of the program has one yet.
ghost use Rattle.std.specs.Prelude.{◌≡◌, ◌++◌, ◌+◌, ◌-◌, ◌*◌, ◌/◌, ◌^◌, ◌<◌, ◌≤◌, Ok, OnOk, IsTrue, false, flat_map, if◌then◌else◌, length, take, true};
ghost use Rattle.byte_ranges.specs.Ranges.{bytes_at, overwritten};
ghost use Rattle.slot_codec.specs.{Choice.{is_open}, Spelling.{gate_at, head_len, header_len, record_bytes, zeros}};
ghost use Rattle.disk_face.specs.{Counts.{HasCause, counted}, Frames.{Asks, Calls, Unchanged, call_weight}, Moments.{Rests}, Writes.{WritesWithin}};
ghost use Rattle.slot_pair.specs.{Bases.{HasBase, base_calls, base_len, closing_calls, lead_len}, Finding.{IsSlot}};

use crate::Found;
use crate::body::{RECORDS_A_WRITE, put_header, put_pieces, spell_header, spell_records};
use crate::places::gate_at;
use crate::save::write_and_sync;
use disk_face::{Disk, DiskFault};
use slot_codec::{DIGEST_LEN, HEADER_LEN, Header, RECORD_LEN, Roll, up};

/// The version in which a roll spells its records; those of version 3 have the same spelling.
const SPELLING: u8 = 2;

/// The length of a record with its digest.
const LONG_LEN: u64 = (RECORD_LEN + DIGEST_LEN) as u64;

/// Closes the gate of the slot that isn't in use where it is open, and syncs. Where it is closed nothing is
/// written: what stands behind a closed gate has no meaning.
pub fn close_if_open<D: Disk>(disk: &mut D, found: &Found) -> Result<(), DiskFault>
    requires ready { IsTrue (D.state disk.old).is_ready }
    requires slot { IsSlot found.now }
    requires within { IsTrue (D.state disk.old).tells
        → head_len found.now.block.names ≤ length (D.state disk.old).file }
    requires other { IsTrue (D.state disk.old).tells → found.now.other_open
        ≡ is_open (D.state disk.old).file (gate_at found.now.block.names (1 - found.now.slot)) }
    ensures closed { IsTrue (D.state disk.old).tells
        → OnOk result (is_open (D.state disk.new).file (gate_at found.now.block.names (1 - found.now.slot))
        ≡ false) }
    ensures rests { IsTrue (D.state disk.old).tells → found.now.other_open ≡ true
        → OnOk result (Rests (D.state disk.new)) }
    ensures same { found.now.other_open ≡ false → Unchanged (D.state disk.old) (D.state disk.new) }
    ensures writes { WritesWithin (gate_at found.now.block.names (1 - found.now.slot)) 1 (D.state disk.old)
        (D.state disk.new) }
    ensures calls { Calls (closing_calls found.now.other_open) (D.state disk.old) (D.state disk.new) result }
    ensures asks { Asks (if found.now.other_open then 35 else 0) 0 (D.state disk.old) (D.state disk.new) }
{
    if found.other_open {
        let gate = gate_at(found.block.names, 1 - found.slot);
        write_and_sync(disk, gate, &[0])
    } else {
        Ok(())
    }
}

/// Writes a header of version 3 at a position and the records behind it, up to 512 in one write; and where the
/// first gate of the log stands below `top`, the gap in front of that gate and the gate, which is closed. They
/// are in the last write, that of the header where there are no records, which has up to 512 bytes more. Then
/// it syncs. `buf` has at least 57,856 bytes: those of 512 records, and 512 more.
pub fn write_base<D: Disk, R: Roll>(
    disk: &mut D,
    at: u64,
    top: u64,
    header: &Header,
    roll: &R,
    buf: &mut [u8],
) -> Result<(), DiskFault>
    requires ready { IsTrue (D.state disk.old).is_ready }
    requires version { header.now.version ≡ 3 }
    requires room { 57856 ≤ length buf.old }
    requires fits { at + header_len + 112 * length (R.records roll.now) + 512 < 2 ^ 63 }
    requires within { IsTrue (D.state disk.old).tells
        → at + base_len at top (length (R.records roll.now)) ≤ length (D.state disk.old).file }
    ensures base { IsTrue (D.state disk.old).tells
        → OnOk result (HasBase at top header.now (R.records roll.now) (D.state disk.new).file) }
    ensures rests { IsTrue (D.state disk.old).tells → OnOk result (Rests (D.state disk.new)) }
    ensures writes { WritesWithin at (base_len at top (length (R.records roll.now))) (D.state disk.old)
        (D.state disk.new) }
    ensures calls { Calls (base_calls (length (R.records roll.now))) (D.state disk.old) (D.state disk.new)
        result }
    ensures asks { Asks (call_weight * base_calls (length (R.records roll.now))
        + base_len at top (length (R.records roll.now))) 0 (D.state disk.old) (D.state disk.new) }
{
    put_base(disk, at, top, header, roll, buf)?;
    disk.sync()
}

/// Writes a header, the records, and what leads to the first gate.
fn put_base<D: Disk, R: Roll>(
    disk: &mut D,
    at: u64,
    top: u64,
    header: &Header,
    roll: &R,
    buf: &mut [u8],
) -> Result<(), DiskFault>
    requires ready { IsTrue (D.state disk.old).is_ready }
    requires version { header.now.version ≡ 3 }
    requires room { 57856 ≤ length buf.old }
    requires fits { at + header_len + 112 * length (R.records roll.now) + 512 < 2 ^ 63 }
    requires within { IsTrue (D.state disk.old).tells
        → at + base_len at top (length (R.records roll.now)) ≤ length (D.state disk.old).file }
    ensures base { IsTrue (D.state disk.old).tells
        → OnOk result (HasBase at top header.now (R.records roll.now) (D.state disk.new).file) }
    ensures writes { WritesWithin at (base_len at top (length (R.records roll.now))) (D.state disk.old)
        (D.state disk.new) }
    ensures calls { Calls (1 + (length (R.records roll.now) + 511) / 512) (D.state disk.old)
        (D.state disk.new) result }
    ensures asks { Asks (call_weight * (1 + (length (R.records roll.now) + 511) / 512)
        + base_len at top (length (R.records roll.now))) 0 (D.state disk.old) (D.state disk.new) }
{
    let count = roll.count();
    let lead = lead_len(at, top, count);
    if count == 0 {
        let n = spell_header(header, buf);
        write_before_zeros(disk, at, n, lead, buf)
    } else {
        put_header(disk, at, header, buf)?;
        put_last_records(disk, at + HEADER_LEN as u64, lead, roll, buf)
    }
}

/// Writes the records at a position, of which there is one at least, and zeros behind them.
fn put_last_records<D: Disk, R: Roll>(
    disk: &mut D,
    at: u64,
    lead: usize,
    roll: &R,
    buf: &mut [u8],
) -> Result<(), DiskFault>
    requires ready { IsTrue (D.state disk.old).is_ready }
    requires some { 0 < length (R.records roll.now) }
    requires lead { lead ≤ 512 }
    requires room { 57856 ≤ length buf.old }
    requires fits { at + 112 * length (R.records roll.now) + 512 < 2 ^ 63 }
    requires within { IsTrue (D.state disk.old).tells
        → at + 112 * length (R.records roll.now) + lead ≤ length (D.state disk.old).file }
    ensures text { IsTrue (D.state disk.old).tells
        → OnOk result (bytes_at (D.state disk.new).file at (112 * length (R.records roll.now) + lead)
        ≡ flat_map (record_bytes 2) (R.records roll.now) ++ zeros lead) }
    ensures writes { WritesWithin at (112 * length (R.records roll.now) + lead) (D.state disk.old)
        (D.state disk.new) }
    ensures calls { Calls ((length (R.records roll.now) + 511) / 512) (D.state disk.old) (D.state disk.new)
        result }
    ensures asks { Asks (call_weight * ((length (R.records roll.now) + 511) / 512) + (112 * length
        (R.records roll.now) + lead)) 0 (D.state disk.old) (D.state disk.new) }
{
    let count = roll.count();
    let whole = (count - 1) / RECORDS_A_WRITE;
    put_pieces(disk, at, SPELLING, LONG_LEN as usize, whole, roll, buf)?;
    let first = RECORDS_A_WRITE * whole;
    let n = count - first;
    spell_records(roll, SPELLING, LONG_LEN as usize, first, n, buf);
    write_before_zeros(
        disk,
        at + LONG_LEN * first,
        LONG_LEN as usize * n as usize,
        lead,
        buf,
    )
}

/// Writes the first bytes of a buffer at a position, and zeros behind them.
fn write_before_zeros<D: Disk>(
    disk: &mut D,
    at: u64,
    len: usize,
    lead: usize,
    buf: &mut [u8],
) -> Result<(), DiskFault>
    requires ready { IsTrue (D.state disk.old).is_ready }
    requires room { len + lead ≤ length buf.old }
    requires within { IsTrue (D.state disk.old).tells → at + (len + lead) ≤ length (D.state disk.old).file }
    ensures written { IsTrue (D.state disk.old).tells
        → OnOk result ((D.state disk.new).file
        ≡ overwritten (D.state disk.old).file at (take len buf.old ++ zeros lead)) }
    ensures writes { WritesWithin at (len + lead) (D.state disk.old) (D.state disk.new) }
    ensures calls { (D.state disk.new).turn ≡ counted (D.state disk.old).turn 1 }
    ensures cause { HasCause (D.state disk.old).faults (D.state disk.new).faults result }
    ensures asks { Asks (call_weight + (len + lead)) 0 (D.state disk.old) (D.state disk.new) }
{
    buf[len..len + lead].fill(0);
    disk.write_at(at, &buf[..len + lead])
}

/// How many bytes stand from the end of so many records up to the first gate, with this gate, where it is
/// below the top.
fn lead_len(at: u64, top: u64, count: u64) -> usize
    requires { at + header_len + 112 * count + 512 < 2 ^ 63 }
    ensures value { result ≡ lead_len at top count }
    ensures high { result ≤ 512 }
{
    let gap = at + HEADER_LEN as u64 + LONG_LEN * count;
    let gate = up(gap);
    if gate < top {
        (gate + 1 - gap) as usize
    } else {
        0
    }
}
