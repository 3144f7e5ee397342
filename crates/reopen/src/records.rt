//! The records of a table, read in pieces and set one after another.
ghost use Rattle.std.specs.Prelude.{◌≡◌, ◌≢◌, ℕ, ◌+◌, ◌*◌, ◌^◌, ◌<◌, ◌≤◌, List, ◌++◌, None, IfOk, IfErr, OnOk, IsTrue, length};
ghost use Rattle.std.specs.FinMap as fin;
ghost use Rattle.byte_ranges.specs.Ranges.{bytes_at};
ghost use Rattle.disk_face.specs.Frames.{Unchanged};
ghost use Rattle.slot_codec.specs.{Choice.{read_records, record_after}, Names.{IsName}, Reading.{is_version}, Spelling.{record_len}, declared.codec.Record.{Record}};
ghost use Rattle.slot_pair.specs.Finding.{HasDiskCause, Refuses};
ghost use Rattle.extent_table.specs.Extents.{records_of};
ghost use Rattle.placement_model.specs.Orders.{SetSoFar};
ghost use Rattle.reopen.specs.Records.{AreSet, SetPiece, SetThrough, all_records, rows};

use disk_face::{Disk, read};
use extent_table::{BulkLoad, Spot};
use slot_codec::{CodecFault, Name, Record, read_record_after, record_len};
use slot_pair::SlotFault;

/// How many records one read has at most.
pub(crate) const RECORDS_A_READ: u64 = 512;

/// Reads the records of a version that stand at a position, up to 512 in one read, and sets them in a
/// table that has no names yet.
pub(crate) fn set_all<D: Disk>(
    disk: &mut D,
    at: u64,
    version: u8,
    count: u64,
    load: &mut BulkLoad,
    buf: &mut [u8],
) -> Result<(), SlotFault>
    requires ready { IsTrue (D.state disk.old).is_ready }
    requires version { IsTrue (is_version version) }
    requires room { record_len version * 512 ≤ length buf.old }
    requires small { at + record_len version * count < 2 ^ 63 }
    requires within { IsTrue (D.state disk.old).tells
        → at + record_len version * count ≤ length (D.state disk.old).file }
    requires empty { load.old.now ≡ fin.empty }
    requires names { count ≤ load.old.names }
    ensures read { IsTrue (D.state disk.old).tells → OnOk result (AreSet (read_records version count
        (bytes_at (D.state disk.old).file at (record_len version * count)) at None) load.new) }
    ensures refused { IsTrue (D.state disk.old).tells → IfErr result (Refuses (read_records version count
        (bytes_at (D.state disk.old).file at (record_len version * count)) at None)) }
    ensures count { OnOk result (fin.len load.new.now ≡ count) }
    ensures names { OnOk result (load.new.names ≡ load.old.names) }
    ensures cause { HasDiskCause SlotFault.Disk (D.state disk.old).faults (D.state disk.new).faults result }
    ensures frame { Unchanged (D.state disk.old) (D.state disk.new) }
    ensures same_room { length buf.new ≡ length buf.old }
{
    set_pieces(disk, at, version, record_len(version), count, load, buf)
}

/// Reads the records that stand at a position, each of which has `len` bytes, and sets them.
fn set_pieces<D: Disk>(
    disk: &mut D,
    at: u64,
    version: u8,
    len: usize,
    count: u64,
    load: &mut BulkLoad,
    buf: &mut [u8],
) -> Result<(), SlotFault>
    requires ready { IsTrue (D.state disk.old).is_ready }
    requires version { IsTrue (is_version version) }
    requires len { len ≡ record_len version }
    requires short { len ≤ 112 }
    requires room { len * 512 ≤ length buf.old }
    requires small { at + len * count < 2 ^ 63 }
    requires within { IsTrue (D.state disk.old).tells → at + len * count ≤ length (D.state disk.old).file }
    requires empty { load.old.now ≡ fin.empty }
    requires names { count ≤ load.old.names }
    ensures read { IsTrue (D.state disk.old).tells → OnOk result (AreSet (read_records version count
        (bytes_at (D.state disk.old).file at (len * count)) at None) load.new) }
    ensures refused { IsTrue (D.state disk.old).tells → IfErr result (Refuses (read_records version count
        (bytes_at (D.state disk.old).file at (len * count)) at None)) }
    ensures count { OnOk result (fin.len load.new.now ≡ count) }
    ensures names { OnOk result (load.new.names ≡ load.old.names) }
    ensures cause { HasDiskCause SlotFault.Disk (D.state disk.old).faults (D.state disk.new).faults result }
    ensures frame { Unchanged (D.state disk.old) (D.state disk.new) }
    ensures same_room { length buf.new ≡ length buf.old }
{
    let mut last = None;
    let mut done = 0;
    'pieces: while done < count {
        let n = (count - done).min(RECORDS_A_READ);
        let from = at + len as u64 * done;
        set_piece(disk, from, version, len, n, &mut last, load, buf)?;
        done += n;
    }
    Ok(())
}

/// Reads the records that stand at a position in one read, and sets them behind those that were set.
fn set_piece<D: Disk>(
    disk: &mut D,
    at: u64,
    version: u8,
    len: usize,
    n: u64,
    last: &mut Option<Name>,
    load: &mut BulkLoad,
    buf: &mut [u8],
) -> Result<(), SlotFault>
    requires ready { IsTrue (D.state disk.old).is_ready }
    requires version { IsTrue (is_version version) }
    requires len { len ≡ record_len version }
    requires short { len ≤ 112 }
    requires few { n ≤ 512 }
    requires room { len * n ≤ length buf.old }
    requires small { at + len * n < 2 ^ 63 }
    requires within { IsTrue (D.state disk.old).tells → at + len * n ≤ length (D.state disk.old).file }
    requires set { SetSoFar load.old.now last.old (records_of load.old.now) }
    requires names { fin.len load.old.now + n ≤ load.old.names }
    ensures set { OnOk result (SetSoFar load.new.now last.new (records_of load.new.now)) }
    ensures count { OnOk result (fin.len load.new.now ≡ fin.len load.old.now + n) }
    ensures kept { OnOk result (load.new.kept ≡ load.old.kept) }
    ensures names { OnOk result (load.new.names ≡ load.old.names) }
    ensures read { IsTrue (D.state disk.old).tells → OnOk result (SetPiece (rows version len at n)
        (bytes_at (D.state disk.old).file at (len * n)) last.old last.new load.old load.new) }
    ensures refused { IsTrue (D.state disk.old).tells → IfErr result (λ why. (front : List Record) (m : ℕ)
        (more : List ℕ) → Refuses (all_records version front (n + m)
        (bytes_at (D.state disk.old).file at (len * n) ++ more) at last.old) why) }
    ensures cause { HasDiskCause SlotFault.Disk (D.state disk.old).faults (D.state disk.new).faults result }
    ensures calm { OnOk result ((D.state disk.new).faults ≡ (D.state disk.old).faults) }
    ensures frame { Unchanged (D.state disk.old) (D.state disk.new) }
    ensures same_room { length buf.new ≡ length buf.old }
{
    let piece = &mut buf[..len * n as usize];
    if read(disk, at, piece).is_err() {
        return Err(SlotFault::Disk);
    }
    set_records(piece, version, len, n, at, last, load)
}

/// Sets the records that a text says which stands at a position, behind those that were set.
fn set_records(
    text: &[u8],
    version: u8,
    len: usize,
    n: u64,
    at: u64,
    last: &mut Option<Name>,
    load: &mut BulkLoad,
) -> Result<(), SlotFault>
    requires version { IsTrue (is_version version) }
    requires len { len ≡ record_len version }
    requires long { length text.now ≡ len * n }
    requires small { at + len * n < 2 ^ 63 }
    requires set { SetSoFar load.old.now last.old (records_of load.old.now) }
    requires names { fin.len load.old.now + n ≤ load.old.names }
    ensures set { OnOk result (SetThrough (rows version len at n) text.now n last.old last.new load.old
        load.new) }
    ensures refused { IfErr result (λ why. (front : List Record) (m : ℕ) (more : List ℕ)
        → Refuses (all_records version front (n + m) (text.now ++ more) at last.old) why) }
    ensures only { IfErr result (λ why. why ≢ SlotFault.Disk) }
{
    'records: for i in 0..n {
        let from = len * i as usize;
        let record = match record_at(text, from, version, len, last) {
            Ok(record) => record,
            Err(fault) => return Err(SlotFault::Codec(fault, at + from as u64)),
        };
        let spot = Spot {
            place: record.place,
            size: record.size,
        };
        load.push(&record.name, spot, record.digest);
        *last = Some(record.name);
    }
    Ok(())
}

/// The record of `len` bytes that stands at a position of a text, behind the record of a name where
/// there is one.
fn record_at(
    text: &[u8],
    at: usize,
    version: u8,
    len: usize,
    before: &Option<Name>,
) -> Result<Record, CodecFault>
    requires version { IsTrue (is_version version) }
    requires len { len ≡ record_len version }
    requires within { at + len ≤ length text.now }
    ensures value { result ≡ record_after version (bytes_at text.now at len) before.now }
    ensures named { IfOk result (λ r. IsName r.name) }
    ensures ranges { IfOk result (λ r. (r.place < 2 ^ 48) × (r.size < 2 ^ 48)) }
    ensures digested { IfOk result (λ r. length r.digest ≡ 32) }
{
    read_record_after(&text[at..at + len], version, before.as_ref())
}
