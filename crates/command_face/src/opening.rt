//! Why a file isn't opened, as a reason to stop.
ghost use Rattle.std.specs.Prelude.{◌≡◌};
ghost use Rattle.command_face.specs.{Refusing.{stop_of}, Layers.{IsCommandReason}};

use crate::StopReason;
use reopen::OpenFault;
use slot_pair::SlotFault;

/// What a fault in opening is to the command.
pub fn stop_of(fault: OpenFault) -> StopReason
    ensures same { result ≡ stop_of fault }
    ensures plain { IsCommandReason result }
{
    match fault {
        OpenFault::Slot(SlotFault::Disk) => StopReason::Disk,
        OpenFault::NoMemory => StopReason::NoMemory,
        other => StopReason::NotStore(other),
    }
}
