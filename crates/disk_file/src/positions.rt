//! Reads and writes at positions, of which one call may pass on a part alone.
ghost use Rattle.std.specs.Prelude.{◌≡◌, ◌+◌, ◌≤◌, length, OnOk, IfErr, IsOk, IsTrue, IsFalse};
ghost use Rattle.disk_face.specs.Counts.{counted, last};
ghost use Rattle.byte_ranges.specs.Ranges.{bytes_at, overwritten};
ghost use Rattle.disk_file.specs.{Parts.{WritesPart}, Words.{AsksFor}};

use crate::cause::{Cause, of_change};
use crate::host::Host;
use crate::retries::is_interrupted;

/// Fills `out` with the bytes from a position on. An interrupted call is tried again; any other
/// failed call, and one that gives none before `out` is full, ends it with its cause.
pub fn fill<H: Host>(host: &H, pos: u64, out: &mut [u8]) -> Result<(), Cause>
    requires { IsTrue (H.state host.now).is_ready }
    ensures bytes { IsTrue (H.state host.now).tells
        → OnOk result (out.new ≡ bytes_at (H.state host.now).file pos (length out.old)) }
    ensures serves { IsFalse (H.marks host.now).may_fail
        → pos + length out.old ≤ length (H.state host.now).file
        → pos + length out.old ≤ last → IsOk result }
{
    let mut filled = 0;
    'calls: for call in 0..u64::MAX {
        if filled >= out.len() {
            return Ok(());
        }
        let Some(at) = pos.checked_add(filled as u64) else {
            return Err(Cause::Ended);
        };
        match host.read_some(at, &mut out[filled..]) {
            Ok(0) => return Err(Cause::Ended),
            Ok(n) => filled += n,
            Err(error) if is_interrupted(&error) => {}
            Err(error) => return Err(Cause::System(error)),
        }
    }
    if filled >= out.len() {
        return Ok(());
    }
    Err(Cause::Ended)
}

/// Writes all the bytes from a position on. An interrupted call is tried again; any other failed
/// call, and one that takes none of what is left, ends it with its cause.
pub fn write_whole<H: Host>(host: &mut H, pos: u64, bytes: &[u8]) -> Result<(), Cause>
    requires { IsTrue (H.state host.old).is_ready }
    ensures written { IsTrue (H.state host.old).tells
        → pos + length bytes.now ≤ length (H.state host.old).file
        → OnOk result ((H.state host.new).file ≡ overwritten (H.state host.old).file pos bytes.now) }
    ensures serves { IsFalse (H.marks host.old).may_fail → IsTrue (H.state host.old).tells
        → pos + length bytes.now ≤ length (H.state host.old).file → pos + length bytes.now ≤ last
        → IsOk result }
    ensures room { IfErr result (AsksFor (counted pos (length bytes.now))) }
    ensures frame { WritesPart pos (length bytes.now) (H.state host.old) (H.state host.new) }
    ensures marks { H.marks host.new ≡ H.marks host.old }
{
    let end = pos.saturating_add(bytes.len() as u64);
    let mut written = 0;
    'calls: for call in 0..u64::MAX {
        if written >= bytes.len() {
            return Ok(());
        }
        let Some(at) = pos.checked_add(written as u64) else {
            return Err(Cause::NoneTaken);
        };
        match host.write_some(at, &bytes[written..]) {
            Ok(0) => return Err(Cause::NoneTaken),
            Ok(n) => written += n,
            Err(error) if is_interrupted(&error) => {}
            Err(error) => return Err(of_change(error, end, Some(at))),
        }
    }
    if written >= bytes.len() {
        return Ok(());
    }
    Err(Cause::NoneTaken)
}
