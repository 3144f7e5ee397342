//! The two calls of a disk that change nothing, with their frame in one clause.
ghost use Rattle.std.specs.Prelude.{◌≡◌, ◌+◌, ◌≤◌, length, IfOk, IsTrue, OnOk};
ghost use Rattle.byte_ranges.specs.Ranges.{bytes_at};
ghost use Rattle.disk_face.specs.{Counts.{HasCause}, Frames.{Unchanged}};

use crate::{Disk, DiskFault};

/// The length of the file, in bytes.
pub fn length_of<D: Disk>(disk: &mut D) -> Result<u64, DiskFault>
    requires { IsTrue (D.state disk.old).is_ready }
    ensures length { IsTrue (D.state disk.old).tells → IfOk result (λ n. n ≡ length (D.state disk.old).file) }
    ensures frame { Unchanged (D.state disk.old) (D.state disk.new) }
    ensures cause { HasCause (D.state disk.old).faults (D.state disk.new).faults result }
{
    disk.len()
}

/// Fills `out` with the bytes of the file from position `at` on.
pub fn read<D: Disk>(disk: &mut D, at: u64, out: &mut [u8]) -> Result<(), DiskFault>
    requires ready { IsTrue (D.state disk.old).is_ready }
    requires within { IsTrue (D.state disk.old).tells → at + length out.old ≤ length (D.state disk.old).file }
    ensures bytes { IsTrue (D.state disk.old).tells
        → OnOk result (out.new ≡ bytes_at (D.state disk.old).file at (length out.old)) }
    ensures frame { Unchanged (D.state disk.old) (D.state disk.new) }
    ensures cause { HasCause (D.state disk.old).faults (D.state disk.new).faults result }
{
    disk.read_at(at, out)
}
