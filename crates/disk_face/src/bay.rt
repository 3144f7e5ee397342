//! A place that has files by name.
ghost use Rattle.std.specs.Prelude.{◌≡◌, ◌↔◌, [], Some, None, Ok, OnErr, IfOk, IsTrue, IsFalse};
ghost use Rattle.disk_face.specs.{Counts.{HasCause}, Frames.{AfterMount}, Mounts.{Names, is_mounted}};

use crate::{Disk, DiskFault};

/// What a mount found: the file was there, or it was made, or it is absent.
#[derive(Clone, Copy, Debug, PartialEq, Eq)]
pub enum Mounted {
    There,
    Made,
    Absent,
}

/// A place that has files by name, of which one may be mounted. Once it is, the bay is that disk.
pub trait Bay: Disk {
    /// What a contract sees of it beside its disk.
    ghost names: { Self → Names };

    /// Opens the file of that name, and makes it where it is not there and `make` is true.
    fn mount(&mut self, name: &str, make: bool) -> Result<Mounted, DiskFault>
        requires { (Self.state self.old).last_mount ≡ None }
        ensures mounted { IfOk result (λ answer. (Self.state self.new).last_mount
            ≡ Some (record { name = name.now; make = make; answer = answer })) }
        ensures none { OnErr result ((Self.state self.new).last_mount ≡ None) }
        ensures there { IsTrue (names self.old).tells
            → IfOk result (λ answer. IsTrue ((names self.old).is_there name.now) ↔ (answer ≡ Mounted.There)) }
        ensures made { result ≡ Ok Mounted.Made
            → IsTrue make × (IsTrue (Self.state self.old).tells → (Self.state self.new).file ≡ []) }
        ensures absent { result ≡ Ok Mounted.Absent → IsFalse make }
        ensures frame { AfterMount (Self.state self.old) (Self.state self.new) }
        ensures cause { HasCause (Self.state self.old).faults (Self.state self.new).faults result }
        ensures names_told { (names self.new).tells ≡ (names self.old).tells };

    /// It is ready exactly where its last mount found or made a file.
    ghost ready_if_mounted: { (bay : Self)
        → (Self.state bay).is_ready ≡ is_mounted (Self.state bay).last_mount };
}
