//! Mounting a file that has to be there.
ghost use Rattle.std.specs.Prelude.{◌≡◌, false, None, Err, IfErr, IsTrue, OnOk};
ghost use Rattle.disk_face.specs.{Frames.{AfterMount}, declared.bay.Mounted.TheVariants.{There}};
ghost use Rattle.slot_pair.specs.Finding.{HasDiskCause};
ghost use Rattle.command_face.specs.Mounting.{IsMounted, IsNotThere, mounted};

use crate::StopReason;
use disk_face::{Bay, Mounted};

/// Mounts a file that has to be there, and makes none. It stops where the file isn't there, or the disk
/// failed.
pub fn mount_there<B: Bay>(bay: &mut B, file: &str) -> Result<(), StopReason>
    requires { (B.state bay.old).last_mount ≡ None }
    ensures mounted { IsMounted file.now false (B.state bay.new).last_mount (result ≡ Err StopReason.Disk)
        (result ≡ Err StopReason.NoFile) }
    ensures there { OnOk result ((B.state bay.new).last_mount ≡ mounted file.now false There) }
    ensures ready { OnOk result (IsTrue (B.state bay.new).is_ready) }
    ensures absent { IfErr result (λ why. IsNotThere file.now (B.state bay.old) (B.state bay.new)
        (why ≡ StopReason.Disk) (why ≡ StopReason.NoFile)) }
    ensures frame { AfterMount (B.state bay.old) (B.state bay.new) }
    ensures cause { HasDiskCause StopReason.Disk (B.state bay.old).faults (B.state bay.new).faults result }
{
    match bay.mount(file, false) {
        Err(_) => Err(StopReason::Disk),
        Ok(Mounted::Absent) => Err(StopReason::NoFile),
        Ok(Mounted::There | Mounted::Made) => Ok(()),
    }
}
