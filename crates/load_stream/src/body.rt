//! Writing the bytes of an object as they come.
ghost use Rattle.std.specs.Prelude.{◌≡◌, ◌≢◌, ◌+◌, ◌^◌, ◌<◌, ◌≤◌, ◌++◌, Err, Ok, IsTrue, false, length, true};
ghost use Rattle.disk_face.specs.{Counts.{counted}, Frames.{Asks, call_weight}, Writes.{WritesWithin}};
ghost use Rattle.data_area.specs.Pieces.{HasMade, pieces};
ghost use Rattle.load_stream.specs.{declared.fault.LoadFault.{LoadFault}, Causes.{HasCauses}, Faults.{IsDeviceFault}, Steps.{WritesObject}, Weights.{write_weight}};

use crate::LoadFault;
use ask_lines::{Ahead, fill};
use disk_face::{Disk, Source};

/// Reads `size` bytes of the input and writes them from position `at` on, in pieces of the buffer, each
/// as soon as it is full; false where the input ends before.
pub(crate) fn write_body<D: Disk, I: Source>(
    disk: &mut D,
    at: u64,
    size: u64,
    ahead: &mut Ahead,
    input: &mut I,
    buf: &mut [u8],
) -> Result<bool, LoadFault>
    requires ready { IsTrue (D.state disk.old).is_ready }
    requires some { 0 < length buf.old }
    requires range { at + size < 2 ^ 63 }
    requires within { IsTrue (D.state disk.old).tells → at + size ≤ length (D.state disk.old).file }
    ensures object { result ≡ Ok true → WritesObject (IsTrue (I.state input.old).tells) at size
        (ahead.old ++ (I.state input.old).left) (ahead.new ++ (I.state input.new).left)
        (D.state disk.old) (D.state disk.new) }
    ensures short { IsTrue (I.state input.old).tells → result ≡ Ok false
        → length (ahead.old ++ (I.state input.old).left) < size }
    ensures device { IsDeviceFault result }
    ensures writes { WritesWithin at size (D.state disk.old) (D.state disk.new) }
    ensures made { result ≡ Ok true → HasMade (D.state disk.old).turn (D.state disk.new).turn
        (length buf.old) size size }
    ensures most { (D.state disk.new).turn ≤ (D.state disk.old).turn + pieces (length buf.old) size }
    ensures asks { Asks (write_weight (length buf.old) size) 0 (D.state disk.old) (D.state disk.new) }
    ensures causes { HasCauses (D.state disk.old) (D.state disk.new) (I.state input.old)
        (I.state input.new) result }
    ensures room { length buf.new ≡ length buf.old }
{
    let mut done = 0;
    'pieces: while done < size {
        let n = (size - done).min(buf.len() as u64);
        let full = write_piece(disk, at + done, ahead, input, &mut buf[..n as usize])?;
        if !full {
            return Ok(false);
        }
        done += n;
    }
    Ok(true)
}

/// Fills the piece with the next bytes of the input, and writes it at a position; false where the input
/// ends before it is full, and then nothing is written.
fn write_piece<D: Disk, I: Source>(
    disk: &mut D,
    at: u64,
    ahead: &mut Ahead,
    input: &mut I,
    piece: &mut [u8],
) -> Result<bool, LoadFault>
    requires ready { IsTrue (D.state disk.old).is_ready }
    requires within { IsTrue (D.state disk.old).tells
        → at + length piece.old ≤ length (D.state disk.old).file }
    ensures object { result ≡ Ok true → WritesObject (IsTrue (I.state input.old).tells) at
        (length piece.old) (ahead.old ++ (I.state input.old).left)
        (ahead.new ++ (I.state input.new).left) (D.state disk.old) (D.state disk.new) }
    ensures short { IsTrue (I.state input.old).tells → result ≡ Ok false
        → length (ahead.old ++ (I.state input.old).left) < length piece.old }
    ensures device { IsDeviceFault result }
    ensures writes { WritesWithin at (length piece.old) (D.state disk.old) (D.state disk.new) }
    ensures made { result ≡ Ok true → (D.state disk.new).turn ≡ counted (D.state disk.old).turn 1 }
    ensures most { (D.state disk.new).turn ≤ (D.state disk.old).turn + 1 }
    ensures asks { Asks (call_weight + length piece.old) 0 (D.state disk.old) (D.state disk.new) }
    ensures causes { HasCauses (D.state disk.old) (D.state disk.new) (I.state input.old)
        (I.state input.new) result }
    ensures room { length piece.new ≡ length piece.old }
{
    let full = fill(ahead, input, piece).map_err(|_| LoadFault::Source)?;
    if !full {
        return Ok(false);
    }
    disk.write_at(at, piece).map_err(|_| LoadFault::Disk)?;
    Ok(true)
}
