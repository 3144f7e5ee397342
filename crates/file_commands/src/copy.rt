//! Copying bytes of the file to the sink.
ghost use Rattle.std.specs.Prelude.{◌≡◌, ◌⊎◌, ◌+◌, ◌^◌, ◌<◌, ◌≤◌, Err, IfErr, IfOk, OnErr, IsTrue, length, min, vec_len};
ghost use Rattle.byte_ranges.specs.Ranges.{bytes_at};
ghost use Rattle.disk_face.specs.{Frames.{Unchanged}, Streams.{Puts}};
ghost use Rattle.command_face.specs.Layers.{HasCausesAt};

use command_face::StopReason;
use data_area::PutFault;
use disk_face::{Disk, Sink};
use std::alloc::Global;

/// How many bytes are copied at a time.
pub const PIECE: u64 = 65_536;

/// Memory for a piece of an object of so many bytes.
pub fn take_piece(alloc: Global, size: u64) -> Result<Vec<u8>, StopReason>
    ensures long { IfOk result (λ piece. vec_len piece ≡ min size PIECE) }
    ensures refused { IfErr result (λ why. why ≡ StopReason.NoMemory) }
{
    take_bytes(alloc, size.min(PIECE) as usize)
}

/// Memory for so many bytes.
pub fn take_bytes(alloc: Global, length: usize) -> Result<Vec<u8>, StopReason>
    ensures long { IfOk result (λ bytes. vec_len bytes ≡ length) }
    ensures refused { IfErr result (λ why. why ≡ StopReason.NoMemory) }
{
    vec![in alloc; 0; length].map_err(|_| StopReason::NoMemory)
}

/// Puts `size` bytes of the file from position `at` on, in pieces of the buffer. Where a device fails, a
/// front of them was put.
pub fn put_bytes<D: Disk, O: Sink>(
    disk: &mut D,
    at: u64,
    size: u64,
    piece: &mut [u8],
    output: &mut O,
) -> Result<(), StopReason>
    requires ready { IsTrue (D.state disk.old).is_ready }
    requires some { 0 < size → 0 < length piece.old }
    requires range { at + size < 2 ^ 64 }
    requires within { IsTrue (D.state disk.old).tells → at + size ≤ length (D.state disk.old).file }
    ensures put { IsTrue (D.state disk.old).tells → IsTrue (O.state output.old).tells
        → Puts (O.state output.old).given (O.state output.new).given
        (bytes_at (D.state disk.old).file at size) result }
    ensures only { OnErr result ((result ≡ Err StopReason.Disk) ⊎ (result ≡ Err StopReason.Sink)) }
    ensures causes { HasCausesAt (D.state disk.old) (D.state disk.new) (O.state output.old)
        (O.state output.new) result }
    ensures frame { Unchanged (D.state disk.old) (D.state disk.new) }
{
    match data_area::put_bytes(disk, at, size, piece, output) {
        Ok(()) => Ok(()),
        Err(PutFault::Disk) => Err(StopReason::Disk),
        Err(PutFault::Sink) => Err(StopReason::Sink),
    }
}
