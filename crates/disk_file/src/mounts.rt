//! How a mount opens a file, and brings it to rest.
ghost use Rattle.std.specs.Prelude.{◌≡◌, ◌↔◌, [], Some, None, Ok, is_some, length, IfOk, IsOk, OnOk, IsTrue, IsFalse};
ghost use Rattle.disk_face.specs.{Frames.{AfterMount}, Moments.{Rests}, Mounts.{has_file}};
ghost use Rattle.disk_file.specs.{Hosts.{SameHold, SameWorld, can_open, opened_by}, Mounted.{CanMount, IsTaken}};

use crate::cause::Cause;
use crate::host::{Host, How, Kind, Use};
use disk_face::Mounted;
use std::io::{Error, ErrorKind};

/// Finds the file of a name, or makes it where it isn't there and is to be made. What is there stays
/// as it is, and who only reads makes none.
pub fn find_or_make<H: Host>(
    host: &mut H,
    name: &str,
    usage: Use,
    make: bool,
) -> Result<Mounted, Cause>
    ensures ready { IfOk result (λ a. IsTrue (has_file a) → IsTrue (H.state host.new).is_ready) }
    ensures there { IsTrue (H.marks host.old).tells → IfOk result (λ a.
        IsTrue (is_some ((H.marks host.old).kind_at name.now)) ↔ (a ≡ Mounted.There)) }
    ensures made { result ≡ Ok Mounted.Made
        → IsTrue make × (IsTrue (H.state host.old).tells → (H.state host.new).file ≡ []) }
    ensures absent { result ≡ Ok Mounted.Absent → IsFalse make }
    ensures taken { IfOk result (λ a. IsTaken usage a (H.marks host.old) (H.marks host.new)
        (H.state host.new)) }
    ensures serves { IsFalse (H.marks host.old).may_fail → CanMount usage make name.now (H.marks host.old)
        → IsOk result }
    ensures frame { AfterMount (H.state host.old) (H.state host.new) }
    ensures world { SameWorld (H.marks host.old) (H.marks host.new) }
{
    match host.look(name) {
        Ok(Kind::File) => {
            take(host, name, usage)?;
            Ok(Mounted::There)
        }
        Ok(kind) => Err(refused(kind)),
        Err(error) if error.kind() != ErrorKind::NotFound => Err(Cause::System(error)),
        Err(_) if !make => Ok(Mounted::Absent),
        Err(error) => {
            make_new(host, name, usage, error)?;
            Ok(Mounted::Made)
        }
    }
}

/// Opens a file that is there.
fn take<H: Host>(host: &mut H, name: &str, usage: Use) -> Result<(), Cause>
    ensures ready { OnOk result (IsTrue (H.state host.new).is_ready) }
    ensures locked { IsTrue (H.marks host.old).tells → OnOk result ((H.marks host.new).lock ≡ Some usage) }
    ensures own { IsTrue (H.marks host.old).tells
        → OnOk result (IsFalse ((H.marks host.old).is_stream usage)) }
    ensures rests { usage ≡ Use.Changing → IsTrue (H.state host.new).tells
        → OnOk result (Rests (H.state host.new)) }
    ensures named { IsTrue (H.marks host.old).tells → usage ≡ Use.Changing → IsTrue (H.state host.new).tells
        → OnOk result (length (H.state host.new).file ≡ 0 → IsTrue (H.marks host.new).is_named) }
    ensures serves { IsFalse (H.marks host.old).may_fail → IsTrue (H.marks host.old).tells
        → IsFalse (H.marks host.old).in_use → (H.marks host.old).kind_at name.now ≡ Some Kind.File
        → IsOk result }
    ensures frame { AfterMount (H.state host.old) (H.state host.new) }
    ensures world { SameWorld (H.marks host.old) (H.marks host.new) }
{
    match usage {
        Use::Reading => open(host, name, How::Read, usage),
        Use::Changing => {
            open(host, name, How::Change, usage)?;
            settle(host)?;
            name_if_empty(host, name)
        }
    }
}

/// Brings the name of an empty file to the device: a run that made it may have been stopped before it
/// did so.
fn name_if_empty<H: Host>(host: &mut H, name: &str) -> Result<(), Cause>
    requires { IsTrue (H.state host.old).is_ready }
    ensures ready { IsTrue (H.state host.new).is_ready }
    ensures named { IsTrue (H.marks host.old).tells → IsTrue (H.state host.old).tells
        → OnOk result (length (H.state host.old).file ≡ 0 → IsTrue (H.marks host.new).is_named) }
    ensures serves { IsFalse (H.marks host.old).may_fail → IsOk result }
    ensures frame { AfterMount (H.state host.old) (H.state host.new) }
    ensures hold { SameHold (H.marks host.old) (H.marks host.new) }
{
    let length = host.length().map_err(Cause::System)?;
    if length == 0 {
        host.sync_folder(name).map_err(Cause::NoFolder)?;
    }
    Ok(())
}

/// Makes a file where none is, and brings its name to the device. That needs its folder to be opened, so
/// where that can't be no file is made. Who only reads makes none: the error is that nothing is there.
fn make_new<H: Host>(host: &mut H, name: &str, usage: Use, error: Error) -> Result<(), Cause>
    ensures ready { OnOk result (IsTrue (H.state host.new).is_ready) }
    ensures empty { IsTrue (H.state host.old).tells → OnOk result ((H.state host.new).file ≡ []) }
    ensures locked { IsTrue (H.marks host.old).tells → OnOk result ((H.marks host.new).lock ≡ Some usage) }
    ensures own { IsTrue (H.marks host.old).tells
        → OnOk result (IsFalse ((H.marks host.old).is_stream usage)) }
    ensures named { IsTrue (H.marks host.old).tells → OnOk result (IsTrue (H.marks host.new).is_named) }
    ensures rests { IsTrue (H.state host.new).tells → OnOk result (Rests (H.state host.new)) }
    ensures serves { IsFalse (H.marks host.old).may_fail → IsTrue (H.marks host.old).tells
        → IsFalse (H.marks host.old).in_use → (H.marks host.old).kind_at name.now ≡ None
        → usage ≡ Use.Changing → IsOk result }
    ensures frame { AfterMount (H.state host.old) (H.state host.new) }
    ensures world { SameWorld (H.marks host.old) (H.marks host.new) }
{
    match usage {
        Use::Reading => Err(Cause::System(error)),
        Use::Changing => {
            host.see_folder(name).map_err(Cause::NoFolder)?;
            open(host, name, How::Make, usage)?;
            settle(host)?;
            host.sync_folder(name).map_err(Cause::NoFolder)
        }
    }
}

/// Opens a file and takes its lock. What was opened is looked at again: it may not be what had the
/// name before. Nor may it be what a standard stream writes, or reads, where it may be changed: what is put
/// would be written over the store.
fn open<H: Host>(host: &mut H, name: &str, how: How, usage: Use) -> Result<(), Cause>
    ensures ready { OnOk result (IsTrue (H.state host.new).is_ready) }
    ensures empty { how ≡ How.Make → IsTrue (H.state host.old).tells
        → OnOk result ((H.state host.new).file ≡ []) }
    ensures locked { IsTrue (H.marks host.old).tells → OnOk result ((H.marks host.new).lock ≡ Some usage) }
    ensures own { IsTrue (H.marks host.old).tells
        → OnOk result (IsFalse ((H.marks host.old).is_stream usage)) }
    ensures serves { IsFalse (H.marks host.old).may_fail → IsTrue (H.marks host.old).tells
        → IsFalse (H.marks host.old).in_use → IsTrue (can_open how ((H.marks host.old).kind_at name.now))
        → opened_by how ((H.marks host.old).kind_at name.now) ≡ Some Kind.File → IsOk result }
    ensures frame { AfterMount (H.state host.old) (H.state host.new) }
    ensures world { SameWorld (H.marks host.old) (H.marks host.new) }
{
    host.open(name, how).map_err(Cause::System)?;
    let kind = host.kind().map_err(Cause::System)?;
    if kind != Kind::File {
        return Err(refused(kind));
    }
    if host.is_stream(usage) {
        return Err(Cause::OwnStream);
    }
    host.lock(usage).map_err(not_held)
}

/// Brings a file to rest: what an earlier process wrote is on the device.
fn settle<H: Host>(host: &mut H) -> Result<(), Cause>
    requires ready { IsTrue (H.state host.old).is_ready }
    requires locked { IsTrue (H.marks host.old).tells → (H.marks host.old).lock ≡ Some Use.Changing }
    ensures ready { IsTrue (H.state host.new).is_ready }
    ensures rests { IsTrue (H.state host.new).tells → OnOk result (Rests (H.state host.new)) }
    ensures serves { IsFalse (H.marks host.old).may_fail → IsOk result }
    ensures frame { AfterMount (H.state host.old) (H.state host.new) }
    ensures hold { SameHold (H.marks host.old) (H.marks host.new) }
{
    host.sync_all().map_err(Cause::System)
}

/// Why what has the name isn't opened.
fn refused(kind: Kind) -> Cause {
    match kind {
        Kind::Folder => Cause::Folder,
        Kind::File | Kind::Other => Cause::Special,
    }
}

/// Why a lock wasn't had.
fn not_held(error: Error) -> Cause {
    if error.kind() == ErrorKind::WouldBlock {
        return Cause::InUse;
    }
    Cause::System(error)
}
