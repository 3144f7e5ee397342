//! Putting bytes of the file to a sink.
ghost use Rattle.std.specs.Prelude.{◌≡◌, ◌⊎◌, ◌+◌, ◌^◌, ◌<◌, ◌≤◌, Err, OnErr, OnOk, IsTrue, length};
ghost use Rattle.byte_ranges.specs.Ranges.{bytes_at};
ghost use Rattle.disk_face.specs.{Frames.{Unchanged}, Streams.{Puts}};
ghost use Rattle.slot_pair.specs.Finding.{HasDiskCause};
ghost use Rattle.data_area.specs.Causes.{HasSinkCause};

use disk_face::{Disk, Sink, read};

/// Which device failed while bytes of the file were put.
#[derive(Clone, Copy, Debug, PartialEq, Eq)]
pub enum PutFault {
    Disk,
    Sink,
}

/// Puts `size` bytes of the file from position `at` on, in pieces of the buffer. Where a device
/// fails, a front of them was put.
pub fn put_bytes<D: Disk, O: Sink>(
    disk: &mut D,
    at: u64,
    size: u64,
    buf: &mut [u8],
    sink: &mut O,
) -> Result<(), PutFault>
    requires ready { IsTrue (D.state disk.old).is_ready }
    requires some { 0 < size → 0 < length buf.old }
    requires range { at + size < 2 ^ 64 }
    requires within { IsTrue (D.state disk.old).tells → at + size ≤ length (D.state disk.old).file }
    ensures put { IsTrue (D.state disk.old).tells → IsTrue (O.state sink.old).tells
        → Puts (O.state sink.old).given (O.state sink.new).given (bytes_at (D.state disk.old).file at size)
        result }
    ensures number { IsTrue (O.state sink.old).tells
        → OnOk result (length (O.state sink.new).given ≡ length (O.state sink.old).given + size) }
    ensures frame { Unchanged (D.state disk.old) (D.state disk.new) }
    ensures disk_cause { HasDiskCause PutFault.Disk (D.state disk.old).faults (D.state disk.new).faults
        result }
    ensures sink_cause { HasSinkCause PutFault.Sink (O.state sink.old) (O.state sink.new) result }
    ensures room { length buf.new ≡ length buf.old }
{
    let mut done = 0;
    'pieces: while done < size {
        let n = (size - done).min(buf.len() as u64);
        put_piece(disk, at + done, &mut buf[..n as usize], sink)?;
        done += n;
    }
    Ok(())
}

/// Puts as many bytes of the file as the piece has.
fn put_piece<D: Disk, O: Sink>(
    disk: &mut D,
    at: u64,
    piece: &mut [u8],
    sink: &mut O,
) -> Result<(), PutFault>
    requires ready { IsTrue (D.state disk.old).is_ready }
    requires within { IsTrue (D.state disk.old).tells
        → at + length piece.old ≤ length (D.state disk.old).file }
    ensures put { IsTrue (D.state disk.old).tells → IsTrue (O.state sink.old).tells
        → Puts (O.state sink.old).given (O.state sink.new).given
        (bytes_at (D.state disk.old).file at (length piece.old)) result }
    ensures number { IsTrue (O.state sink.old).tells
        → OnOk result (length (O.state sink.new).given ≡ length (O.state sink.old).given + length piece.old) }
    ensures frame { Unchanged (D.state disk.old) (D.state disk.new) }
    ensures disk_cause { HasDiskCause PutFault.Disk (D.state disk.old).faults (D.state disk.new).faults
        result }
    ensures sink_cause { HasSinkCause PutFault.Sink (O.state sink.old) (O.state sink.new) result }
    ensures room { length piece.new ≡ length piece.old }
{
    read(disk, at, piece).map_err(|_| PutFault::Disk)?;
    sink.put(piece).map_err(|_| PutFault::Sink)
}
