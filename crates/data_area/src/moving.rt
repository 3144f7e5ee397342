//! Moving an object within the data part.
ghost use Rattle.std.specs.Prelude.{◌≡◌, ◌+◌, length, OnOk, IsTrue};
ghost use Rattle.byte_ranges.specs.Ranges.{bytes_at, overwritten};
ghost use Rattle.size_class.specs.Rows.{cells_of};
ghost use Rattle.disk_face.specs.Writes.{WritesWithin};
ghost use Rattle.data_area.specs.{Copies.{CanCopy, CopyCalls}, Moves.{CountsMove, IsMovable}};

use crate::Ledger;
use crate::copy::copy;
use disk_face::{Disk, DiskFault};
use size_class::class_of;
use span_math::Span;

/// Copies an object of 1 to 2^31 bytes to a place that shares no byte with it, in pieces of the
/// buffer, each one read and one write, and adds its size to the bytes moved of its class. The data
/// part begins at position `base` of the file. Where a call fails, any bytes may stand in the
/// target, nothing outside it has changed, and the ledger is as it was.
pub fn move_object<D: Disk, const C: usize>(
    disk: &mut D,
    base: u64,
    from: Span,
    to: u64,
    buf: &mut [u8],
    ledger: &mut Ledger<C>,
) -> Result<(), DiskFault>
    requires ready { IsTrue (D.state disk.old).is_ready }
    requires object { IsMovable C from.size }
    requires can { CanCopy (base + from.place) (base + to) from.size (length buf.old) (D.state disk.old) }
    ensures moved { IsTrue (D.state disk.old).tells
        → OnOk result ((D.state disk.new).file ≡ overwritten (D.state disk.old).file (base + to)
        (bytes_at (D.state disk.old).file (base + from.place) from.size)) }
    ensures writes { WritesWithin (base + to) from.size (D.state disk.old) (D.state disk.new) }
    ensures calls { CopyCalls from.size (length buf.old) (D.state disk.old) (D.state disk.new) result }
    ensures ledger { CountsMove from.size (cells_of ledger.old.moved) (cells_of ledger.new.moved)
        (cells_of ledger.old.asked) (cells_of ledger.new.asked) result }
{
    copy(disk, base + from.place, base + to, from.size, buf)?;
    ledger.moved.add(class_of(from.size), from.size);
    Ok(())
}
