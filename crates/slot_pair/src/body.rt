//! Writing the body of a slot: a header, and the records behind it.
ghost use Rattle.std.specs.Prelude.{◌≡◌, ◌+◌, ◌*◌, ◌/◌, ◌^◌, ◌<◌, ◌≤◌, OnOk, IsTrue, drop, flat_map, length, min, take};
ghost use Rattle.byte_ranges.specs.Ranges.{bytes_at};
ghost use Rattle.slot_codec.specs.{Reading.{is_version}, Spelling.{header_bytes, header_len, record_bytes, record_len}};
ghost use Rattle.disk_face.specs.{Counts.{HasCause, counted}, Frames.{Asks, Calls, call_weight}, Moments.{Rests}, Writes.{WritesWithin}};
ghost use Rattle.slot_pair.specs.Saves.{HasTable};

use disk_face::{Disk, DiskFault};
use slot_codec::{HEADER_LEN, Header, Roll, record_len, write_header};

/// How many records one write has at most.
pub(crate) const RECORDS_A_WRITE: u64 = 512;

/// Writes a header at a position and the records behind it, and syncs.
pub fn write_table<D: Disk, R: Roll>(
    disk: &mut D,
    at: u64,
    header: &Header,
    roll: &R,
    buf: &mut [u8],
) -> Result<(), DiskFault>
    requires ready { IsTrue (D.state disk.old).is_ready }
    requires version { IsTrue (is_version header.now.version) }
    requires room { 57344 ≤ length buf.old }
    requires fits { at + header_len + record_len header.now.version * length (R.records roll.now) < 2 ^ 63 }
    requires within { IsTrue (D.state disk.old).tells
        → at + header_len + record_len header.now.version * length (R.records roll.now)
        ≤ length (D.state disk.old).file }
    ensures table { IsTrue (D.state disk.old).tells
        → OnOk result (HasTable at header.now (R.records roll.now) (D.state disk.new).file) }
    ensures rests { IsTrue (D.state disk.old).tells → OnOk result (Rests (D.state disk.new)) }
    ensures writes { WritesWithin at (header_len + record_len header.now.version * length
        (R.records roll.now))
        (D.state disk.old) (D.state disk.new) }
    ensures calls { Calls (2 + (length (R.records roll.now) + 511) / 512) (D.state disk.old)
        (D.state disk.new) result }
    ensures asks { Asks (call_weight * (2 + (length (R.records roll.now) + 511) / 512) + (header_len
        + record_len header.now.version * length (R.records roll.now))) 0 (D.state disk.old)
        (D.state disk.new) }
{
    put_table(disk, at, header, roll, buf)?;
    disk.sync()
}

/// Writes a header at a position and the records behind it.
fn put_table<D: Disk, R: Roll>(
    disk: &mut D,
    at: u64,
    header: &Header,
    roll: &R,
    buf: &mut [u8],
) -> Result<(), DiskFault>
    requires ready { IsTrue (D.state disk.old).is_ready }
    requires version { IsTrue (is_version header.now.version) }
    requires room { 57344 ≤ length buf.old }
    requires fits { at + header_len + record_len header.now.version * length (R.records roll.now) < 2 ^ 63 }
    requires within { IsTrue (D.state disk.old).tells
        → at + header_len + record_len header.now.version * length (R.records roll.now)
        ≤ length (D.state disk.old).file }
    ensures table { IsTrue (D.state disk.old).tells
        → OnOk result (HasTable at header.now (R.records roll.now) (D.state disk.new).file) }
    ensures writes { WritesWithin at (header_len + record_len header.now.version * length
        (R.records roll.now))
        (D.state disk.old) (D.state disk.new) }
    ensures calls { Calls (1 + (length (R.records roll.now) + 511) / 512) (D.state disk.old)
        (D.state disk.new) result }
    ensures asks { Asks (call_weight * (1 + (length (R.records roll.now) + 511) / 512) + (header_len
        + record_len header.now.version * length (R.records roll.now))) 0 (D.state disk.old)
        (D.state disk.new) }
{
    put_header(disk, at, header, buf)?;
    put_records(disk, at + HEADER_LEN as u64, header.version, roll, buf)
}

/// Writes a header at a position.
pub(crate) fn put_header<D: Disk>(
    disk: &mut D,
    at: u64,
    header: &Header,
    buf: &mut [u8],
) -> Result<(), DiskFault>
    requires ready { IsTrue (D.state disk.old).is_ready }
    requires room { header_len ≤ length buf.old }
    requires within { IsTrue (D.state disk.old).tells → at + header_len ≤ length (D.state disk.old).file }
    ensures header { IsTrue (D.state disk.old).tells
        → OnOk result (bytes_at (D.state disk.new).file at header_len ≡ header_bytes header.now) }
    ensures writes { WritesWithin at header_len (D.state disk.old) (D.state disk.new) }
    ensures calls { (D.state disk.new).turn ≡ counted (D.state disk.old).turn 1 }
    ensures cause { HasCause (D.state disk.old).faults (D.state disk.new).faults result }
    ensures asks { Asks (call_weight + header_len) 0 (D.state disk.old) (D.state disk.new) }
{
    let n = spell_header(header, buf);
    disk.write_at(at, &buf[..n])
}

/// Writes the records at a position, up to 512 in one write.
fn put_records<D: Disk, R: Roll>(
    disk: &mut D,
    at: u64,
    version: u8,
    roll: &R,
    buf: &mut [u8],
) -> Result<(), DiskFault>
    requires ready { IsTrue (D.state disk.old).is_ready }
    requires version { IsTrue (is_version version) }
    requires room { 57344 ≤ length buf.old }
    requires fits { at + record_len version * length (R.records roll.now) < 2 ^ 63 }
    requires within { IsTrue (D.state disk.old).tells
        → at + record_len version * length (R.records roll.now) ≤ length (D.state disk.old).file }
    ensures records { IsTrue (D.state disk.old).tells
        → OnOk result (bytes_at (D.state disk.new).file at (record_len version * length (R.records roll.now))
        ≡ flat_map (record_bytes version) (R.records roll.now)) }
    ensures writes { WritesWithin at (record_len version * length (R.records roll.now)) (D.state disk.old)
        (D.state disk.new) }
    ensures calls { Calls ((length (R.records roll.now) + 511) / 512) (D.state disk.old) (D.state disk.new)
        result }
    ensures asks { Asks (call_weight * ((length (R.records roll.now) + 511) / 512) + record_len version * length
        (R.records roll.now)) 0 (D.state disk.old) (D.state disk.new) }
{
    let len = record_len(version);
    let pieces = (roll.count() + (RECORDS_A_WRITE - 1)) / RECORDS_A_WRITE;
    put_pieces(disk, at, version, len, pieces, roll, buf)
}

/// Writes the first pieces of the records at a position, 512 records in each piece and what is left in the
/// last one. Each record takes `len` bytes.
pub(crate) fn put_pieces<D: Disk, R: Roll>(
    disk: &mut D,
    at: u64,
    version: u8,
    len: usize,
    pieces: u64,
    roll: &R,
    buf: &mut [u8],
) -> Result<(), DiskFault>
    requires ready { IsTrue (D.state disk.old).is_ready }
    requires version { IsTrue (is_version version) }
    requires len { len ≡ record_len version }
    requires low { 80 ≤ len }
    requires short { len ≤ 112 }
    requires pieces { 512 * pieces ≤ length (R.records roll.now) + 511 }
    requires room { 57344 ≤ length buf.old }
    requires fits { at + len * length (R.records roll.now) < 2 ^ 63 }
    requires within { IsTrue (D.state disk.old).tells
        → at + len * length (R.records roll.now) ≤ length (D.state disk.old).file }
    ensures records { IsTrue (D.state disk.old).tells
        → OnOk result (bytes_at (D.state disk.new).file at
        (len * min (512 * pieces) (length (R.records roll.now)))
        ≡ flat_map (record_bytes version) (take (min (512 * pieces) (length (R.records roll.now)))
        (R.records roll.now))) }
    ensures writes { WritesWithin at (len * length (R.records roll.now)) (D.state disk.old)
        (D.state disk.new) }
    ensures calls { Calls pieces (D.state disk.old) (D.state disk.new) result }
    ensures asks { Asks (call_weight * pieces + len * min (512 * pieces) (length (R.records roll.now))) 0
        (D.state disk.old) (D.state disk.new) }
{
    let count = roll.count();
    'pieces: for piece in 0..pieces {
        let first = RECORDS_A_WRITE * piece;
        let n = (count - first).min(RECORDS_A_WRITE);
        spell_records(roll, version, len, first, n, buf);
        disk.write_at(at + len as u64 * first, &buf[..len * n as usize])?;
    }
    Ok(())
}

/// Spells a header, and answers how many bytes that are.
pub(crate) fn spell_header(header: &Header, out: &mut [u8]) -> usize
    requires { header_len ≤ length out.old }
    ensures len { result ≡ header_len }
    ensures text { take result out.new ≡ header_bytes header.now }
{
    write_header(header, &mut out[..HEADER_LEN]);
    HEADER_LEN
}

/// Spells `n` records from record `first` on, each of which takes `len` bytes.
pub(crate) fn spell_records<R: Roll>(
    roll: &R,
    version: u8,
    len: usize,
    first: u64,
    n: u64,
    out: &mut [u8],
)
    requires version { IsTrue (is_version version) }
    requires len { len ≡ record_len version }
    requires short { len ≤ 112 }
    requires few { n ≤ 512 }
    requires some { first + n ≤ length (R.records roll.now) }
    requires fits { first + n < 2 ^ 63 }
    requires room { len * n ≤ length out.old }
    ensures { take (len * n) out.new
        ≡ flat_map (record_bytes version) (take n (drop first (R.records roll.now))) }
{
    'records: for i in 0..n {
        let at = len * i as usize;
        roll.write_nth(first + i, version, &mut out[at..at + len]);
    }
}
