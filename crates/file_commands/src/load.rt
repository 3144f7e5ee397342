//! The table of a file that a command only reads.
ghost use Rattle.std.specs.Prelude.{IfOk, IfErr, IsTrue};
ghost use Rattle.reopen.specs.Loads.{IsReadAs, KeepsRead, unboxed};
ghost use Rattle.command_face.specs.{Refusing.{IsNotRead, stop_of}, Layers.{IsCommandReason, Looks}};
ghost use Rattle.file_commands.specs.Getting.{StopsAs};

use command_face::{StopReason, stop_of};
use disk_face::Disk;
use reopen::{BoxedLoaded, load_by_mark};
use size_class::CLASSES;
use std::alloc::Global;

/// The table of a file between requests, or within a flush that was interrupted. By its mark it is that of a
/// file whose slots have no logs, or behind the log of the slot in use.
pub fn load<D: Disk>(alloc: Global, disk: &mut D) -> Result<BoxedLoaded<CLASSES>, StopReason>
    requires ready { IsTrue (D.state disk.old).is_ready }
    ensures loaded { IfOk result (λ loaded. KeepsRead (unboxed loaded)) }
    ensures told { IsTrue (D.state disk.old).tells
        → IfOk result (λ loaded. IsReadAs (D.state disk.old).file (unboxed loaded)) }
    ensures stopped { IsTrue (D.state disk.old).tells
        → IfErr result (StopsAs (IsNotRead (D.state disk.old).file)) }
    ensures looks { Looks (D.state disk.old) (D.state disk.new) result }
    ensures plain { IfErr result IsCommandReason }
{
    match load_by_mark(alloc, disk) {
        Ok(loaded) => Ok(loaded),
        Err(fault) => Err(stop_of(fault)),
    }
}
