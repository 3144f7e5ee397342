//! The changing calls of a disk, by the calls of a system.
ghost use Rattle.std.specs.Prelude.{◌≡◌, ◌⊎◌, ◌+◌, ◌≤◌, length, OnOk, OnErr, IfErr, IsOk, IsTrue, IsFalse};
ghost use Rattle.byte_ranges.specs.Ranges.{overwritten, resized};
ghost use Rattle.disk_face.specs.{Counts.{counted, last}, Frames.{AfterLength, AfterSync, AfterWrite}, Moments.{Only}};
ghost use Rattle.disk_file.specs.Words.{AsksFor};

use crate::cause::{Cause, of_change};
use crate::host::Host;
use crate::positions::write_whole;

/// Writes all the bytes from a position on.
pub fn write<H: Host>(host: &mut H, pos: u64, bytes: &[u8]) -> Result<(), Cause>
    requires ready { IsTrue (H.state host.old).is_ready }
    requires within { IsTrue (H.state host.old).tells
        → pos + length bytes.now ≤ length (H.state host.old).file }
    ensures written { IsTrue (H.state host.old).tells
        → OnOk result ((H.state host.new).file ≡ overwritten (H.state host.old).file pos bytes.now) }
    ensures serves { IsFalse (H.marks host.old).may_fail → IsTrue (H.state host.old).tells
        → pos + length bytes.now ≤ last → IsOk result }
    ensures room { IfErr result (AsksFor (counted pos (length bytes.now))) }
    ensures frame { AfterWrite pos (length bytes.now) (H.state host.old) (H.state host.new) }
    ensures marks { H.marks host.new ≡ H.marks host.old }
{
    let answer = write_whole(host, pos, bytes);
    host.end_call();
    answer
}

/// Cuts the file or grows it.
pub fn resize<H: Host>(host: &mut H, n: u64) -> Result<(), Cause>
    requires { IsTrue (H.state host.old).is_ready }
    ensures resized { IsTrue (H.state host.old).tells
        → OnOk result ((H.state host.new).file ≡ resized (H.state host.old).file n) }
    ensures either { IsTrue (H.state host.old).tells
        → OnErr result (((H.state host.new).file ≡ (H.state host.old).file)
        ⊎ ((H.state host.new).file ≡ resized (H.state host.old).file n)) }
    ensures serves { IsFalse (H.marks host.old).may_fail → n ≤ (H.marks host.old).room → IsOk result }
    ensures room { IfErr result (AsksFor n) }
    ensures frame { AfterLength n (H.state host.old) (H.state host.new) }
    ensures marks { H.marks host.new ≡ H.marks host.old }
{
    let answer = host.resize(n);
    host.end_call();
    match answer {
        Ok(()) => Ok(()),
        Err(error) => Err(of_change(error, n, None)),
    }
}

/// Syncs the file, unless a sync has failed before. Where the name leads to it no more, what was synced
/// can't be found by its name, and that is a fault too.
pub fn sync<H: Host>(host: &mut H, name: &str, has_lost: bool) -> Result<(), Cause>
    requires { IsTrue (H.state host.old).is_ready }
    ensures rests { OnOk result (Only (H.state host.old).file (H.state host.new).may_leave) }
    ensures lost { IsTrue has_lost → OnOk result ⊥ }
    ensures gone { IsTrue (H.marks host.old).tells → IsFalse ((H.marks host.old).leads name.now)
        → OnOk result ⊥ }
    ensures serves { IsFalse (H.marks host.old).may_fail → IsFalse has_lost → IsOk result }
    ensures frame { AfterSync (H.state host.old) (H.state host.new) }
    ensures marks { H.marks host.new ≡ H.marks host.old }
{
    if has_lost {
        host.end_call();
        return Err(Cause::Lost);
    }
    let answer = host.sync_data();
    host.end_call();
    if answer.is_ok() && !host.leads(name) {
        return Err(Cause::Gone);
    }
    answer.map_err(Cause::System)
}
