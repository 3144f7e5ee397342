//! Copying a range of a file in pieces of a buffer.
ghost use Rattle.std.specs.Prelude.{◌≡◌, ◌+◌, ◌≤◌, length, OnOk, IsTrue};
ghost use Rattle.byte_ranges.specs.Ranges.{bytes_at, overwritten};
ghost use Rattle.disk_face.specs.{Counts.{HasCause, counted}, Writes.{WritesWithin}};
ghost use Rattle.data_area.specs.Copies.{CanCopy, CopyCalls};

use disk_face::{Disk, DiskFault, read};

/// Copies a range to another one that shares no byte with it, in pieces of the buffer.
pub fn copy<D: Disk>(
    disk: &mut D,
    from: u64,
    to: u64,
    size: u64,
    buf: &mut [u8],
) -> Result<(), DiskFault>
    requires ready { IsTrue (D.state disk.old).is_ready }
    requires can { CanCopy from to size (length buf.old) (D.state disk.old) }
    ensures copied { IsTrue (D.state disk.old).tells
        → OnOk result ((D.state disk.new).file ≡ overwritten (D.state disk.old).file to
        (bytes_at (D.state disk.old).file from size)) }
    ensures writes { WritesWithin to size (D.state disk.old) (D.state disk.new) }
    ensures calls { CopyCalls size (length buf.old) (D.state disk.old) (D.state disk.new) result }
{
    let mut done = 0;
    'pieces: while done < size {
        let n = (size - done).min(buf.len() as u64);
        copy_piece(disk, from + done, to + done, &mut buf[..n as usize])?;
        done += n;
    }
    Ok(())
}

/// Copies as many bytes as `piece` has.
fn copy_piece<D: Disk>(disk: &mut D, from: u64, to: u64, piece: &mut [u8]) -> Result<(), DiskFault>
    requires ready { IsTrue (D.state disk.old).is_ready }
    requires from_within { IsTrue (D.state disk.old).tells
        → from + length piece.old ≤ length (D.state disk.old).file }
    requires to_within { IsTrue (D.state disk.old).tells
        → to + length piece.old ≤ length (D.state disk.old).file }
    ensures copied { IsTrue (D.state disk.old).tells
        → OnOk result ((D.state disk.new).file ≡ overwritten (D.state disk.old).file to
        (bytes_at (D.state disk.old).file from (length piece.old))) }
    ensures writes { WritesWithin to (length piece.old) (D.state disk.old) (D.state disk.new) }
    ensures calls { OnOk result ((D.state disk.new).turn ≡ counted (D.state disk.old).turn 1) }
    ensures most { (D.state disk.new).turn ≤ counted (D.state disk.old).turn 1 }
    ensures cause { HasCause (D.state disk.old).faults (D.state disk.new).faults result }
{
    read(disk, from, piece)?;
    disk.write_at(to, piece)
}
