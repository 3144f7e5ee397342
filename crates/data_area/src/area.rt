//! Writing and reading within the data part.
ghost use Rattle.std.specs.Prelude.{◌≡◌, ◌+◌, ◌<◌, ◌≤◌, ◌^◌, length, OnOk, IsTrue};
ghost use Rattle.byte_ranges.specs.Ranges.{bytes_at, overwritten};
ghost use Rattle.disk_face.specs.{Counts.{HasCause, counted}, Frames.{Unchanged}, Writes.{WritesWithin}};

use disk_face::{Disk, DiskFault, read};

/// Writes an object's bytes at a place of the data part, which begins at position `base` of the
/// file. It is one changing call. Where it fails, any bytes may stand in the object's range, and
/// nothing outside it has changed.
pub fn write_object<D: Disk>(
    disk: &mut D,
    base: u64,
    place: u64,
    bytes: &[u8],
) -> Result<(), DiskFault>
    requires ready { IsTrue (D.state disk.old).is_ready }
    requires fits { base + place + length bytes.now < 2 ^ 63 }
    requires within { IsTrue (D.state disk.old).tells
        → base + place + length bytes.now ≤ length (D.state disk.old).file }
    ensures written { IsTrue (D.state disk.old).tells
        → OnOk result ((D.state disk.new).file
        ≡ overwritten (D.state disk.old).file (base + place) bytes.now) }
    ensures writes { WritesWithin (base + place) (length bytes.now) (D.state disk.old) (D.state disk.new) }
    ensures calls { (D.state disk.new).turn ≡ counted (D.state disk.old).turn 1 }
    ensures cause { HasCause (D.state disk.old).faults (D.state disk.new).faults result }
{
    disk.write_at(base + place, bytes)
}

/// Fills `out` with the bytes from a place of the data part on, which begins at position `base` of
/// the file. It changes nothing.
pub fn read_chunk<D: Disk>(
    disk: &mut D,
    base: u64,
    place: u64,
    out: &mut [u8],
) -> Result<(), DiskFault>
    requires ready { IsTrue (D.state disk.old).is_ready }
    requires fits { base + place + length out.old < 2 ^ 63 }
    requires within { IsTrue (D.state disk.old).tells
        → base + place + length out.old ≤ length (D.state disk.old).file }
    ensures bytes { IsTrue (D.state disk.old).tells
        → OnOk result (out.new ≡ bytes_at (D.state disk.old).file (base + place) (length out.old)) }
    ensures frame { Unchanged (D.state disk.old) (D.state disk.new) }
    ensures cause { HasCause (D.state disk.old).faults (D.state disk.new).faults result }
{
    read(disk, base + place, out)
}
