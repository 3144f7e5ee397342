//! Objects that have a digest: the bytes are put only where they have it.
ghost use Rattle.std.specs.Prelude.{◌≡◌, ◌⊎◌, ◌+◌, ◌^◌, ◌<◌, ◌≤◌, Some, IfErr, IsTrue, bytes_eq, length, min};
ghost use Rattle.byte_ranges.specs.Ranges.{bytes_at};
ghost use Rattle.disk_face.specs.Frames.{Unchanged};
ghost use Rattle.command_face.specs.Layers.{Answers, HasCausesAt, PutsNone};
ghost use Rattle.file_commands.specs.Getting.{checked};

use crate::copy::{PIECE, put_bytes};
use command_face::{StopReason, put_whole};
use data_area::digest_at;
use disk_face::{Disk, Sink, read};
use sha2::{Digest, Sha256};

/// Puts `size` bytes of the file from position `at` on, if they have this digest, through a buffer that has
/// room for a piece of them. What fits the buffer is read once; else it is read once for its digest, and
/// once more to be put. Where the bytes have another digest, none is put.
pub fn put_checked<D: Disk, O: Sink>(
    disk: &mut D,
    at: u64,
    size: u64,
    digest: &[u8; 32],
    piece: &mut [u8],
    output: &mut O,
) -> Result<(), StopReason>
    requires ready { IsTrue (D.state disk.old).is_ready }
    requires room { min size PIECE ≤ length piece.old }
    requires range { at + size < 2 ^ 64 }
    requires within { IsTrue (D.state disk.old).tells → at + size ≤ length (D.state disk.old).file }
    ensures answers { IsTrue (D.state disk.old).tells
        → Answers
        (λ answer. answer ≡ checked (Some digest.now) (Some (bytes_at (D.state disk.old).file at size)))
        (O.state output.old) (O.state output.new) result }
    ensures nothing_put { PutsNone output.old output.new result }
    ensures only { IfErr result
        (λ why. (why ≡ StopReason.Disk) ⊎ (why ≡ StopReason.Sink) ⊎ (why ≡ StopReason.Damaged)) }
    ensures causes { HasCausesAt (D.state disk.old) (D.state disk.new) (O.state output.old)
        (O.state output.new) result }
    ensures frame { Unchanged (D.state disk.old) (D.state disk.new) }
{
    if size <= PIECE {
        return put_small(disk, at, size as usize, digest, piece, output);
    }
    let found = digest_at(disk, at, size, piece).map_err(|_| StopReason::Disk)?;
    if !is_same(digest, &found) {
        return Err(StopReason::Damaged);
    }
    put_bytes(disk, at, size, piece, output)
}

/// Puts `size` bytes of the file at once, if they have this digest, through a buffer that has room for them.
fn put_small<D: Disk, O: Sink>(
    disk: &mut D,
    at: u64,
    size: usize,
    digest: &[u8; 32],
    buffer: &mut [u8],
    output: &mut O,
) -> Result<(), StopReason>
    requires ready { IsTrue (D.state disk.old).is_ready }
    requires room { size ≤ length buffer.old }
    requires within { IsTrue (D.state disk.old).tells → at + size ≤ length (D.state disk.old).file }
    ensures answers { IsTrue (D.state disk.old).tells
        → Answers
        (λ answer. answer ≡ checked (Some digest.now) (Some (bytes_at (D.state disk.old).file at size)))
        (O.state output.old) (O.state output.new) result }
    ensures nothing_put { PutsNone output.old output.new result }
    ensures only { IfErr result
        (λ why. (why ≡ StopReason.Disk) ⊎ (why ≡ StopReason.Sink) ⊎ (why ≡ StopReason.Damaged)) }
    ensures causes { HasCausesAt (D.state disk.old) (D.state disk.new) (O.state output.old)
        (O.state output.new) result }
    ensures frame { Unchanged (D.state disk.old) (D.state disk.new) }
{
    let piece = &mut buffer[..size];
    read(disk, at, piece).map_err(|_| StopReason::Disk)?;
    let found = Sha256::digest(&*piece);
    if !is_same(digest, &found) {
        return Err(StopReason::Damaged);
    }
    put_whole(output, piece)
}

/// Whether two digests are the same.
fn is_same(digest: &[u8; 32], other: &[u8; 32]) -> bool
    ensures { result ≡ bytes_eq digest.now other.now }
{
    digest.as_slice() == other.as_slice()
}
