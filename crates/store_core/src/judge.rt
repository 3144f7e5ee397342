//! Whether an object of the file has the digest that it was put with.
ghost use Rattle.std.specs.Prelude.{◌≡◌, ◌⊎◌, ◌+◌, ◌^◌, ◌<◌, ◌≤◌, Some, IfErr, OnErr, OnOk, IsTrue, bytes_eq, length, true, false};
ghost use Rattle.byte_ranges.specs.Ranges.{bytes_at};
ghost use Rattle.disk_face.specs.Frames.{Unchanged};
ghost use Rattle.slot_pair.specs.Finding.{HasDiskCause};
ghost use Rattle.store_model.specs.Reads.{IsJudged};

use crate::Refusal;
use crate::faults::disk_failed;
use data_area::digest_at;
use disk_face::Disk;
use sha2::{Digest, Sha256};

/// Refuses bytes that have another digest than this, if there is one.
pub(crate) fn judge(digest: &Option<[u8; 32]>, bytes: &[u8]) -> Result<(), Refusal>
    ensures judged { IsJudged digest.now bytes.now result }
    ensures only { IfErr result (λ why. why ≡ Refusal.Damaged) }
{
    match digest {
        Some(digest) => compare(digest, &Sha256::digest(bytes)),
        None => Ok(()),
    }
}

/// The same of `size` bytes of the file from position `at` on, which are read in pieces of the buffer.
pub(crate) fn judge_at<D: Disk>(
    disk: &mut D,
    at: u64,
    size: u64,
    buf: &mut [u8],
    digest: &Option<[u8; 32]>,
) -> Result<(), Refusal>
    requires ready { IsTrue (D.state disk.old).is_ready }
    requires some { 0 < length buf.old }
    requires range { at + size < 2 ^ 64 }
    requires within { IsTrue (D.state disk.old).tells → at + size ≤ length (D.state disk.old).file }
    ensures judged { IsTrue (D.state disk.old).tells
        → IsJudged digest.now (bytes_at (D.state disk.old).file at size) result }
    ensures only { IfErr result (λ why. (why ≡ Refusal.Disk) ⊎ (why ≡ Refusal.Damaged)) }
    ensures frame { Unchanged (D.state disk.old) (D.state disk.new) }
    ensures disk_cause { HasDiskCause Refusal.Disk (D.state disk.old).faults
        (D.state disk.new).faults result }
{
    match digest {
        Some(digest) => {
            let found = digest_at(disk, at, size, buf).map_err(disk_failed)?;
            compare(digest, &found)
        }
        None => Ok(()),
    }
}

/// Whether two digests are the same, as an answer.
fn compare(digest: &[u8; 32], found: &[u8; 32]) -> Result<(), Refusal>
    ensures same { OnOk result (bytes_eq digest.now found.now ≡ true) }
    ensures other { OnErr result (bytes_eq digest.now found.now ≡ false) }
    ensures only { IfErr result (λ why. why ≡ Refusal.Damaged) }
{
    if digest.as_slice() == found.as_slice() {
        Ok(())
    } else {
        Err(Refusal::Damaged)
    }
}
