//! Copying an object of the file to the sink.
ghost use Rattle.std.specs.Prelude.{◌≡◌, ◌⊎◌, ◌+◌, ◌^◌, ◌<◌, ◌≤◌, ◌++◌, Err, OnOk, OnErr, IsTrue, length};
ghost use Rattle.byte_ranges.specs.Ranges.{bytes_at};
ghost use Rattle.disk_face.specs.{Frames.{Unchanged}, Streams.{Puts}};
ghost use Rattle.slot_pair.specs.Finding.{HasDiskCause};
ghost use Rattle.data_area.specs.Causes.{HasSinkCause};
ghost use Rattle.store_model.specs.Reads.{PutsJudged};

use crate::Refusal;
use crate::faults::{disk_failed, sink_failed};
use crate::judge::{judge, judge_at};
use data_area::PutFault;
use disk_face::{Disk, Sink, read};

/// Puts a head and behind it `size` bytes of the file from position `at` on, as `put_behind` does, or nothing
/// where these bytes have another digest than this. Where there is one, what fits the buffer is read once,
/// and the rest is read once for the digest before.
pub(crate) fn put_judged<D: Disk, O: Sink>(
    disk: &mut D,
    at: u64,
    size: u64,
    buf: &mut [u8],
    digest: &Option<[u8; 32]>,
    head: &[u8],
    sink: &mut O,
) -> Result<(), Refusal>
    requires ready { IsTrue (D.state disk.old).is_ready }
    requires some { 0 < length buf.old }
    requires range { at + size < 2 ^ 64 }
    requires within { IsTrue (D.state disk.old).tells → at + size ≤ length (D.state disk.old).file }
    ensures judged { PutsJudged (D.state disk.old).tells digest.now
        (bytes_at (D.state disk.old).file at size) (O.state sink.old) (O.state sink.new) result }
    ensures put { IsTrue (D.state disk.old).tells → IsTrue (O.state sink.old).tells
        → Puts (O.state sink.old).given (O.state sink.new).given
        (head.now ++ bytes_at (D.state disk.old).file at size) result }
    ensures number { IsTrue (O.state sink.old).tells → OnOk result (length (O.state sink.new).given
        ≡ length (O.state sink.old).given + length head.now + size) }
    ensures frame { Unchanged (D.state disk.old) (D.state disk.new) }
    ensures disk_cause { HasDiskCause Refusal.Disk (D.state disk.old).faults
        (D.state disk.new).faults result }
    ensures sink_cause { HasSinkCause Refusal.Sink (O.state sink.old) (O.state sink.new) result }
{
    if digest.is_some() && size <= buf.len() as u64 {
        return put_short(disk, at, &mut buf[..size as usize], digest, head, sink);
    }
    judge_at(disk, at, size, buf, digest)?;
    put_behind(disk, at, size, buf, head, sink)
}

/// Reads as many bytes as the piece has, and puts a head and them where they have this digest, if there is
/// one.
fn put_short<D: Disk, O: Sink>(
    disk: &mut D,
    at: u64,
    piece: &mut [u8],
    digest: &Option<[u8; 32]>,
    head: &[u8],
    sink: &mut O,
) -> Result<(), Refusal>
    requires ready { IsTrue (D.state disk.old).is_ready }
    requires within { IsTrue (D.state disk.old).tells
        → at + length piece.old ≤ length (D.state disk.old).file }
    ensures judged { PutsJudged (D.state disk.old).tells digest.now
        (bytes_at (D.state disk.old).file at (length piece.old)) (O.state sink.old)
        (O.state sink.new) result }
    ensures put { IsTrue (D.state disk.old).tells → IsTrue (O.state sink.old).tells
        → Puts (O.state sink.old).given (O.state sink.new).given
        (head.now ++ bytes_at (D.state disk.old).file at (length piece.old)) result }
    ensures number { IsTrue (O.state sink.old).tells → OnOk result (length (O.state sink.new).given
        ≡ length (O.state sink.old).given + length head.now + length piece.old) }
    ensures frame { Unchanged (D.state disk.old) (D.state disk.new) }
    ensures disk_cause { HasDiskCause Refusal.Disk (D.state disk.old).faults
        (D.state disk.new).faults result }
    ensures sink_cause { HasSinkCause Refusal.Sink (O.state sink.old) (O.state sink.new) result }
{
    read(disk, at, piece).map_err(disk_failed)?;
    judge(digest, piece)?;
    put_both(sink, head, piece)
}

/// Puts a head and behind it `size` bytes of the file from position `at` on, in pieces of the buffer. The
/// head is put directly before the first piece, once that was read, or alone where there is none. Where a
/// device fails, a front of both was put.
fn put_behind<D: Disk, O: Sink>(
    disk: &mut D,
    at: u64,
    size: u64,
    buf: &mut [u8],
    head: &[u8],
    sink: &mut O,
) -> Result<(), Refusal>
    requires ready { IsTrue (D.state disk.old).is_ready }
    requires some { 0 < length buf.old }
    requires range { at + size < 2 ^ 64 }
    requires within { IsTrue (D.state disk.old).tells → at + size ≤ length (D.state disk.old).file }
    ensures put { IsTrue (D.state disk.old).tells → IsTrue (O.state sink.old).tells
        → Puts (O.state sink.old).given (O.state sink.new).given
        (head.now ++ bytes_at (D.state disk.old).file at size) result }
    ensures number { IsTrue (O.state sink.old).tells → OnOk result (length (O.state sink.new).given
        ≡ length (O.state sink.old).given + length head.now + size) }
    ensures only { OnErr result ((result ≡ Err Refusal.Disk) ⊎ (result ≡ Err Refusal.Sink)) }
    ensures frame { Unchanged (D.state disk.old) (D.state disk.new) }
    ensures disk_cause { HasDiskCause Refusal.Disk (D.state disk.old).faults
        (D.state disk.new).faults result }
    ensures sink_cause { HasSinkCause Refusal.Sink (O.state sink.old) (O.state sink.new) result }
{
    if size == 0 {
        return put_some(sink, head);
    }
    let n = size.min(buf.len() as u64);
    put_first(disk, at, &mut buf[..n as usize], head, sink)?;
    put_bytes(disk, at + n, size - n, buf, sink)
}

/// Reads as many bytes as the piece has, and puts a head and them.
fn put_first<D: Disk, O: Sink>(
    disk: &mut D,
    at: u64,
    piece: &mut [u8],
    head: &[u8],
    sink: &mut O,
) -> Result<(), Refusal>
    requires ready { IsTrue (D.state disk.old).is_ready }
    requires within { IsTrue (D.state disk.old).tells
        → at + length piece.old ≤ length (D.state disk.old).file }
    ensures put { IsTrue (D.state disk.old).tells → IsTrue (O.state sink.old).tells
        → Puts (O.state sink.old).given (O.state sink.new).given
        (head.now ++ bytes_at (D.state disk.old).file at (length piece.old)) result }
    ensures number { IsTrue (O.state sink.old).tells → OnOk result (length (O.state sink.new).given
        ≡ length (O.state sink.old).given + length head.now + length piece.old) }
    ensures only { OnErr result ((result ≡ Err Refusal.Disk) ⊎ (result ≡ Err Refusal.Sink)) }
    ensures frame { Unchanged (D.state disk.old) (D.state disk.new) }
    ensures disk_cause { HasDiskCause Refusal.Disk (D.state disk.old).faults
        (D.state disk.new).faults result }
    ensures sink_cause { HasSinkCause Refusal.Sink (O.state sink.old) (O.state sink.new) result }
{
    read(disk, at, piece).map_err(disk_failed)?;
    put_both(sink, head, piece)
}

/// Puts bytes behind others.
fn put_both<O: Sink>(sink: &mut O, head: &[u8], bytes: &[u8]) -> Result<(), Refusal>
    ensures put { IsTrue (O.state sink.old).tells
        → Puts (O.state sink.old).given (O.state sink.new).given (head.now ++ bytes.now) result }
    ensures only { OnErr result (result ≡ Err Refusal.Sink) }
    ensures cause { HasSinkCause Refusal.Sink (O.state sink.old) (O.state sink.new) result }
{
    put_some(sink, head)?;
    put_some(sink, bytes)
}

/// Puts bytes at once, where there are any.
fn put_some<O: Sink>(sink: &mut O, bytes: &[u8]) -> Result<(), Refusal>
    ensures put { IsTrue (O.state sink.old).tells
        → Puts (O.state sink.old).given (O.state sink.new).given bytes.now result }
    ensures only { OnErr result (result ≡ Err Refusal.Sink) }
    ensures cause { HasSinkCause Refusal.Sink (O.state sink.old) (O.state sink.new) result }
{
    if bytes.is_empty() {
        return Ok(());
    }
    put_whole(sink, bytes)
}

/// Puts `size` bytes of the file from position `at` on, in pieces of the buffer. Where a device
/// fails, a front of them was put.
fn put_bytes<D: Disk, O: Sink>(
    disk: &mut D,
    at: u64,
    size: u64,
    buf: &mut [u8],
    sink: &mut O,
) -> Result<(), Refusal>
    requires ready { IsTrue (D.state disk.old).is_ready }
    requires some { 0 < length buf.old }
    requires range { at + size < 2 ^ 64 }
    requires within { IsTrue (D.state disk.old).tells → at + size ≤ length (D.state disk.old).file }
    ensures put { IsTrue (D.state disk.old).tells → IsTrue (O.state sink.old).tells
        → Puts (O.state sink.old).given (O.state sink.new).given (bytes_at (D.state disk.old).file at size)
        result }
    ensures number { IsTrue (O.state sink.old).tells
        → OnOk result (length (O.state sink.new).given ≡ length (O.state sink.old).given + size) }
    ensures only { OnErr result ((result ≡ Err Refusal.Disk) ⊎ (result ≡ Err Refusal.Sink)) }
    ensures frame { Unchanged (D.state disk.old) (D.state disk.new) }
    ensures disk_cause { HasDiskCause Refusal.Disk (D.state disk.old).faults
        (D.state disk.new).faults result }
    ensures sink_cause { HasSinkCause Refusal.Sink (O.state sink.old) (O.state sink.new) result }
{
    match data_area::put_bytes(disk, at, size, buf, sink) {
        Ok(()) => Ok(()),
        Err(PutFault::Disk) => Err(Refusal::Disk),
        Err(PutFault::Sink) => Err(Refusal::Sink),
    }
}

/// Puts bytes at once.
pub(crate) fn put_whole<O: Sink>(sink: &mut O, bytes: &[u8]) -> Result<(), Refusal>
    ensures put { IsTrue (O.state sink.old).tells
        → Puts (O.state sink.old).given (O.state sink.new).given bytes.now result }
    ensures only { OnErr result (result ≡ Err Refusal.Sink) }
    ensures cause { HasSinkCause Refusal.Sink (O.state sink.old) (O.state sink.new) result }
{
    sink.put(bytes).map_err(sink_failed)
}
