//! The command `dump`: the map of a file as one stream.
ghost use Rattle.std.specs.Prelude.{◌≡◌, ◌≢◌, ◌<◌, Err, IfErr, IsTrue, length};
ghost use Rattle.disk_face.specs.Frames.{Unchanged};
ghost use Rattle.reopen.specs.Loads.{IsReadAs, KeepsRead, unboxed};
ghost use Rattle.command_face.specs.Layers.{HasCausesAt, IsCommandReason};
ghost use Rattle.file_commands.specs.Dumped.{Dumps, PutsNoDump};

use crate::copy::take_bytes;
use crate::load::load;
use command_face::StopReason;
use disk_face::{Disk, Sink};
use dump_stream::{DumpFault, dump_boxed};
use reopen::BoxedLoaded;
use size_class::CLASSES;
use std::alloc::Global;

/// How many bytes of texts are gathered before they are put, and of a longer object read: half as many as a
/// pipe of Linux has room for, so that its reader takes one half while the other is filled.
const GATHERED: usize = 32_768;

/// Puts the dump of the map that the file is read to by its mark, which says whether its slots have logs.
/// The disk stays as it is, and where a flush was interrupted, it stays so. At the first object that is
/// damaged it stops before its text.
pub fn dump<D: Disk, O: Sink>(alloc: Global, disk: &mut D, output: &mut O) -> Result<(), StopReason>
    requires ready { IsTrue (D.state disk.old).is_ready }
    ensures words { (result ≢ Err StopReason.Words) × (result ≢ Err StopReason.NoFile) }
    ensures dumps { IsTrue (D.state disk.old).tells
        → Dumps (D.state disk.old).file (O.state output.old) (O.state output.new) result }
    ensures nothing_put { PutsNoDump output.old output.new result }
    ensures plain { IfErr result IsCommandReason }
    ensures causes { HasCausesAt (D.state disk.old) (D.state disk.new) (O.state output.old)
        (O.state output.new) result }
    ensures frame { Unchanged (D.state disk.old) (D.state disk.new) }
{
    let loaded = load(alloc, disk)?;
    let mut piece = take_bytes(alloc, GATHERED)?;
    put_dump(disk, &loaded, &mut piece, output)
}

/// Puts the dump of a file that was read, in pieces of the buffer.
fn put_dump<D: Disk, O: Sink>(
    disk: &mut D,
    loaded: &BoxedLoaded<CLASSES>,
    piece: &mut [u8],
    output: &mut O,
) -> Result<(), StopReason>
    requires ready { IsTrue (D.state disk.old).is_ready }
    requires some { 0 < length piece.old }
    requires loaded { KeepsRead (unboxed loaded.now) }
    requires from { IsTrue (D.state disk.old).tells
        → IsReadAs (D.state disk.old).file (unboxed loaded.now) }
    ensures words { (result ≢ Err StopReason.Words) × (result ≢ Err StopReason.NoFile) }
    ensures dumps { IsTrue (D.state disk.old).tells
        → Dumps (D.state disk.old).file (O.state output.old) (O.state output.new) result }
    ensures nothing_put { PutsNoDump output.old output.new result }
    ensures plain { IfErr result IsCommandReason }
    ensures causes { HasCausesAt (D.state disk.old) (D.state disk.new) (O.state output.old)
        (O.state output.new) result }
    ensures frame { Unchanged (D.state disk.old) (D.state disk.new) }
{
    match dump_boxed(disk, loaded, output, piece) {
        Ok(()) => Ok(()),
        Err(DumpFault::Damaged) => Err(StopReason::Damaged),
        Err(DumpFault::Disk) => Err(StopReason::Disk),
        Err(DumpFault::Sink) => Err(StopReason::Sink),
    }
}
