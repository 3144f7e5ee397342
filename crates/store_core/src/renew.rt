//! Giving each live name the digest of its object.
ghost use Rattle.std.specs.Prelude.{◌≡◌, ◌+◌, ◌<◌, ◌≤◌, ◌^◌, Err, IsTrue, OnErr, OnOk, length};
ghost use Rattle.disk_face.specs.Frames.{Unchanged};
ghost use Rattle.slot_pair.specs.Finding.{HasDiskCause};
ghost use Rattle.segment_layout.specs.Books.{digests_of};
ghost use Rattle.extent_table.specs.Extents.{IsTable};
ghost use Rattle.placement_model.specs.Reads.{EndWithin, read_at};

use crate::Refusal;
use crate::faults::disk_failed;
use data_area::digest_at;
use disk_face::Disk;
use extent_table::Table;

/// Gives each live name of a table the digest of its object, whose bytes are read in pieces of the
/// buffer. Where the disk fails, some names may have theirs.
pub(crate) fn renew_all<D: Disk>(
    disk: &mut D,
    base: u64,
    table: &mut Table,
    buf: &mut [u8],
) -> Result<(), Refusal>
    requires ready { IsTrue (D.state disk.old).is_ready }
    requires some { 0 < length buf.old }
    requires low { base < 2 ^ 62 }
    requires table { IsTable table.old }
    requires within { IsTrue (D.state disk.old).tells
        → EndWithin base (D.state disk.old).file table.old.now }
    ensures only { table.new ≡ record table.old { digests = table.new.digests } }
    ensures table { IsTable table.new }
    ensures digests { IsTrue (D.state disk.old).tells → OnOk result (table.new.digests
        ≡ digests_of (read_at base (D.state disk.old).file table.old.now)) }
    ensures refusal { OnErr result (result ≡ Err Refusal.Disk) }
    ensures room { length buf.new ≡ length buf.old }
    ensures frame { Unchanged (D.state disk.old) (D.state disk.new) }
    ensures disk_cause { HasDiskCause Refusal.Disk (D.state disk.old).faults
        (D.state disk.new).faults result }
{
    'names: for n in 0..table.count() {
        let (_, name, spot) = table.in_order(n);
        let digest = digest_at(disk, base + spot.place, spot.size, buf).map_err(disk_failed)?;
        table.renew(&name, digest);
    }
    Ok(())
}
