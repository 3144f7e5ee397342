//! Gathering the texts of objects in a buffer, and putting them.
ghost use Rattle.std.specs.Prelude.{[], ◌≡◌, ◌≢◌, ◌≤◌, ◌<◌, ◌+◌, ◌^◌, ◌++◌, Err, IfOk, IsTrue, OnErr, OnOk, Some, None, Ok, bytes_eq, codes, false, true, length, take};
ghost use Rattle.std.specs.Fmt.{decimal};
ghost use Rattle.byte_ranges.specs.Ranges.{bytes_at};
ghost use Rattle.disk_face.specs.{Frames.{Unchanged}, Streams.{Puts}};
ghost use Rattle.slot_pair.specs.Finding.{HasDiskCause};
ghost use Rattle.segment_layout.specs.Books.{differs};
ghost use Rattle.extent_table.specs.Extents.{IsInRange};
ghost use Rattle.placement_model.specs.Reads.{object_at};
ghost use Rattle.data_area.specs.Causes.{HasSinkCause};
ghost use Rattle.dump_stream.specs.{Dumps.{object_text}, Dumping.{Front, Gathers, GathersIfSound, HasCauses, PutsIfSound, read_entry}};

use crate::head::{push, push_number};
use crate::putting::DumpFault;
use arrayvec::ArrayVec;
use data_area::{PutFault, digest_at, put_bytes};
use disk_face::{Disk, Sink, read};
use extent_table::Spot;
use sha2::{Digest, Sha256};
use slot_codec::Name;

/// Gathers the put of an object, if its bytes have this digest, behind the first `held` bytes of the
/// buffer, which are texts that aren't put yet. What is held is put first where there is no room behind
/// it. The object is read once where the buffer has room for its text; else the text is put at once, in
/// pieces. Answers how many bytes are held then.
pub(crate) fn gather_object<D: Disk, O: Sink>(
    disk: &mut D,
    base: u64,
    name: &Name,
    spot: Spot,
    digest: Option<[u8; 32]>,
    output: &mut O,
    buf: &mut [u8],
    held: usize,
) -> Result<usize, DumpFault>
    requires ready { IsTrue (D.state disk.old).is_ready }
    requires some { 0 < length buf.old }
    requires base { base < 2 ^ 63 }
    requires range { IsInRange spot }
    requires within { IsTrue (D.state disk.old).tells
        → base + spot.place + spot.size ≤ length (D.state disk.old).file }
    requires held { held ≤ length buf.old }
    ensures gathers { IsTrue (D.state disk.old).tells
        → GathersIfSound (differs digest (Some (object_at base (D.state disk.old).file spot)))
        (take held buf.old) (object_text (read_entry base (D.state disk.old).file (name.now, spot)))
        (O.state output.old) (O.state output.new) buf.new result }
    ensures within { IfOk result (λ n. n ≤ length buf.new) }
    ensures plain { digest ≡ None → result ≢ Err DumpFault.Damaged }
    ensures causes { HasCauses (D.state disk.old) (D.state disk.new) (O.state output.old)
        (O.state output.new) result }
    ensures frame { Unchanged (D.state disk.old) (D.state disk.new) }
    ensures room { length buf.new ≡ length buf.old }
{
    let at = base + spot.place;
    let line = put_line(name, spot.size);
    let line = line.as_slice();
    let long = line.len() as u64 + spot.size;
    let held = make_room(output, buf, held, long)?;
    if long < (buf.len() - held) as u64 {
        gather_small(
            disk,
            at,
            spot.size as usize,
            line,
            digest,
            output,
            buf,
            held,
        )
    } else {
        put_large(disk, at, spot.size, line, digest, output, buf)?;
        Ok(0)
    }
}

/// Puts the first `held` bytes of the buffer where it hasn't room behind them for `long` bytes and one
/// more. Answers how many are held then.
fn make_room<O: Sink>(
    output: &mut O,
    buf: &[u8],
    held: usize,
    long: u64,
) -> Result<usize, DumpFault>
    requires held { held ≤ length buf.now }
    ensures gathers { IsTrue (O.state output.old).tells
        → IfOk result (λ n. Gathers (take held buf.now) [] (O.state output.old).given
        (O.state output.new).given (take n buf.now)) }
    ensures front { IsTrue (O.state output.old).tells
        → OnErr result (Front (O.state output.old).given (O.state output.new).given (take held buf.now)) }
    ensures within { IfOk result (λ n. n ≤ length buf.now) }
    ensures room { IfOk result (λ n. length buf.now ≤ n + long → n ≡ 0) }
    ensures cause { HasSinkCause DumpFault.Sink (O.state output.old) (O.state output.new) result }
    ensures only { (result ≢ Err DumpFault.Damaged) × (result ≢ Err DumpFault.Disk) }
{
    if long < (buf.len() - held) as u64 {
        return Ok(held);
    }
    put_whole(output, &buf[..held])?;
    Ok(0)
}

/// Writes a line, `size` bytes of the file from position `at` on and a newline into the buffer, behind its
/// first `held` bytes, if the bytes have this digest. Else those first bytes are put. Answers how many
/// bytes are held then.
fn gather_small<D: Disk, O: Sink>(
    disk: &mut D,
    at: u64,
    size: usize,
    line: &[u8],
    digest: Option<[u8; 32]>,
    output: &mut O,
    buf: &mut [u8],
    held: usize,
) -> Result<usize, DumpFault>
    requires ready { IsTrue (D.state disk.old).is_ready }
    requires long { held + length line.now + size < length buf.old }
    requires within { IsTrue (D.state disk.old).tells → at + size ≤ length (D.state disk.old).file }
    ensures gathers { IsTrue (D.state disk.old).tells
        → GathersIfSound (differs digest (Some (bytes_at (D.state disk.old).file at size)))
        (take held buf.old) (line.now ++ (bytes_at (D.state disk.old).file at size ++ codes "\n"))
        (O.state output.old) (O.state output.new) buf.new result }
    ensures within { IfOk result (λ n. n ≤ length buf.new) }
    ensures plain { digest ≡ None → result ≢ Err DumpFault.Damaged }
    ensures causes { HasCauses (D.state disk.old) (D.state disk.new) (O.state output.old)
        (O.state output.new) result }
    ensures frame { Unchanged (D.state disk.old) (D.state disk.new) }
    ensures room { length buf.new ≡ length buf.old }
{
    let start = held + line.len();
    let end = start + size;
    buf[held..start].copy_from_slice(line);
    let Ok(()) = read(disk, at, &mut buf[start..end]) else {
        return Err(DumpFault::Disk);
    };
    if is_spoilt(digest, &buf[start..end]) {
        put_whole(output, &buf[..held])?;
        return Err(DumpFault::Damaged);
    }
    buf[end] = b'\n';
    Ok(end + 1)
}

/// Puts a line, `size` bytes of the file from position `at` on in pieces, and a newline, if the bytes have
/// this digest, for which they are read a first time.
fn put_large<D: Disk, O: Sink>(
    disk: &mut D,
    at: u64,
    size: u64,
    line: &[u8],
    digest: Option<[u8; 32]>,
    output: &mut O,
    buf: &mut [u8],
) -> Result<(), DumpFault>
    requires ready { IsTrue (D.state disk.old).is_ready }
    requires some { 0 < length buf.old }
    requires range { at + size < 2 ^ 64 }
    requires within { IsTrue (D.state disk.old).tells → at + size ≤ length (D.state disk.old).file }
    ensures puts { IsTrue (D.state disk.old).tells → PutsIfSound digest
        (bytes_at (D.state disk.old).file at size)
        (line.now ++ (bytes_at (D.state disk.old).file at size ++ codes "\n")) (O.state output.old)
        (O.state output.new) result }
    ensures plain { digest ≡ None → result ≢ Err DumpFault.Damaged }
    ensures causes { HasCauses (D.state disk.old) (D.state disk.new) (O.state output.old)
        (O.state output.new) result }
    ensures frame { Unchanged (D.state disk.old) (D.state disk.new) }
    ensures room { length buf.new ≡ length buf.old }
{
    check_digest(disk, at, size, digest, buf)?;
    put_whole(output, line)?;
    put_object_bytes(disk, at, size, buf, output)?;
    put_whole(output, b"\n")
}

/// Whether an object has another digest than this, where there is one.
fn is_spoilt(digest: Option<[u8; 32]>, object: &[u8]) -> bool
    ensures { result ≡ differs digest (Some object.now) }
{
    match digest {
        None => false,
        Some(digest) => !are_same(&digest, &Sha256::digest(object)),
    }
}

/// Whether the bytes at a place of the file have a digest, where there is one: else they aren't read.
fn check_digest<D: Disk>(
    disk: &mut D,
    at: u64,
    size: u64,
    digest: Option<[u8; 32]>,
    buf: &mut [u8],
) -> Result<(), DumpFault>
    requires ready { IsTrue (D.state disk.old).is_ready }
    requires some { 0 < length buf.old }
    requires range { at + size < 2 ^ 64 }
    requires within { IsTrue (D.state disk.old).tells → at + size ≤ length (D.state disk.old).file }
    ensures damaged { IsTrue (D.state disk.old).tells → result ≡ Err DumpFault.Damaged
        → differs digest (Some (bytes_at (D.state disk.old).file at size)) ≡ true }
    ensures sound { IsTrue (D.state disk.old).tells
        → OnOk result (differs digest (Some (bytes_at (D.state disk.old).file at size)) ≡ false) }
    ensures plain { digest ≡ None → result ≡ Ok tt }
    ensures only { result ≢ Err DumpFault.Sink }
    ensures cause { HasDiskCause DumpFault.Disk (D.state disk.old).faults (D.state disk.new).faults result }
    ensures frame { Unchanged (D.state disk.old) (D.state disk.new) }
    ensures room { length buf.new ≡ length buf.old }
{
    let Some(digest) = digest else {
        return Ok(());
    };
    let found = digest_at(disk, at, size, buf).map_err(|_| DumpFault::Disk)?;
    if are_same(&digest, &found) {
        Ok(())
    } else {
        Err(DumpFault::Damaged)
    }
}

/// Whether two digests are the same.
fn are_same(digest: &[u8; 32], other: &[u8; 32]) -> bool
    ensures { result ≡ bytes_eq digest.now other.now }
{
    digest.as_slice() == other.as_slice()
}

/// Puts `size` bytes of the file from position `at` on, in pieces of the buffer. Where a device fails, a
/// front of them was put.
fn put_object_bytes<D: Disk, O: Sink>(
    disk: &mut D,
    at: u64,
    size: u64,
    buf: &mut [u8],
    output: &mut O,
) -> Result<(), DumpFault>
    requires ready { IsTrue (D.state disk.old).is_ready }
    requires some { 0 < length buf.old }
    requires range { at + size < 2 ^ 64 }
    requires within { IsTrue (D.state disk.old).tells → at + size ≤ length (D.state disk.old).file }
    ensures put { IsTrue (D.state disk.old).tells → IsTrue (O.state output.old).tells
        → Puts (O.state output.old).given (O.state output.new).given
        (bytes_at (D.state disk.old).file at size) result }
    ensures only { result ≢ Err DumpFault.Damaged }
    ensures causes { HasCauses (D.state disk.old) (D.state disk.new) (O.state output.old)
        (O.state output.new) result }
    ensures frame { Unchanged (D.state disk.old) (D.state disk.new) }
    ensures room { length buf.new ≡ length buf.old }
{
    match put_bytes(disk, at, size, buf, output) {
        Ok(()) => Ok(()),
        Err(PutFault::Disk) => Err(DumpFault::Disk),
        Err(PutFault::Sink) => Err(DumpFault::Sink),
    }
}

/// Puts bytes at once.
pub(crate) fn put_whole<O: Sink>(sink: &mut O, bytes: &[u8]) -> Result<(), DumpFault>
    ensures put { IsTrue (O.state sink.old).tells
        → Puts (O.state sink.old).given (O.state sink.new).given bytes.now result }
    ensures cause { HasSinkCause DumpFault.Sink (O.state sink.old) (O.state sink.new) result }
    ensures only { (result ≢ Err DumpFault.Damaged) × (result ≢ Err DumpFault.Disk) }
{
    sink.put(bytes).map_err(|_| DumpFault::Sink)
}

/// The line of a put with its newline.
fn put_line(name: &Name, size: u64) -> ArrayVec<u8, 512>
    requires small { size < 2 ^ 48 }
    ensures { result.items ≡ codes "put " ++ name.now ++ codes " " ++ decimal size ++ codes "\n" }
{
    let mut line = ArrayVec::new();
    push(&mut line, b"put ");
    push(&mut line, name.as_bytes());
    push(&mut line, b" ");
    push_number(&mut line, size);
    push(&mut line, b"\n");
    line
}
