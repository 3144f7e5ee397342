//! The refusals for a device that failed.
ghost use Rattle.std.specs.Prelude.{◌≡◌};

use crate::Refusal;
use disk_face::{DiskFault, SinkFault};

/// Why a request isn't served whose disk failed.
pub(crate) fn disk_failed(_: DiskFault) -> Refusal
    ensures { result ≡ Refusal.Disk }
{
    Refusal::Disk
}

/// Why a request isn't served whose sink failed.
pub(crate) fn sink_failed(_: SinkFault) -> Refusal
    ensures { result ≡ Refusal.Sink }
{
    Refusal::Sink
}
