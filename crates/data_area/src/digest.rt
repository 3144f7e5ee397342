//! The digest of bytes of the file.
ghost use Rattle.std.specs.Prelude.{◌≡◌, ◌+◌, ◌^◌, ◌<◌, ◌≤◌, ◌++◌, List, ℕ, IfOk, OnOk, IsTrue, length};
ghost use Rattle.sha2.specs.{Hashers.{Holds256}, Sha256.{sha256}};
ghost use Rattle.byte_ranges.specs.Ranges.{bytes_at};
ghost use Rattle.disk_face.specs.{Counts.{HasCause}, Frames.{Unchanged}};

use disk_face::{Disk, DiskFault, read};
use sha2::{Digest, Sha256};

/// The SHA-256 of `size` bytes of the file from position `at` on, which are read in pieces of the buffer.
pub fn digest_at<D: Disk>(
    disk: &mut D,
    at: u64,
    size: u64,
    buf: &mut [u8],
) -> Result<[u8; 32], DiskFault>
    requires ready { IsTrue (D.state disk.old).is_ready }
    requires some { 0 < size → 0 < length buf.old }
    requires range { at + size < 2 ^ 64 }
    requires within { IsTrue (D.state disk.old).tells → at + size ≤ length (D.state disk.old).file }
    ensures digest { IsTrue (D.state disk.old).tells
        → IfOk result (λ digest. digest ≡ sha256 (bytes_at (D.state disk.old).file at size)) }
    ensures room { length buf.new ≡ length buf.old }
    ensures cause { HasCause (D.state disk.old).faults (D.state disk.new).faults result }
    ensures frame { Unchanged (D.state disk.old) (D.state disk.new) }
{
    let mut hasher = Sha256::new();
    let mut done = 0;
    'pieces: while done < size {
        let n = (size - done).min(buf.len() as u64);
        take_in(disk, at + done, &mut buf[..n as usize], &mut hasher)?;
        done += n;
    }
    Ok(hasher.finalize())
}

/// Adds as many bytes of the file as the piece has to the message of a hasher.
fn take_in<D: Disk>(
    disk: &mut D,
    at: u64,
    piece: &mut [u8],
    hasher: &mut Sha256,
) -> Result<(), DiskFault>
    requires ready { IsTrue (D.state disk.old).is_ready }
    requires within { IsTrue (D.state disk.old).tells
        → at + length piece.old ≤ length (D.state disk.old).file }
    ensures taken { IsTrue (D.state disk.old).tells → OnOk result ((m : List ℕ) → Holds256 hasher.old m
        → Holds256 hasher.new (m ++ bytes_at (D.state disk.old).file at (length piece.old))) }
    ensures room { length piece.new ≡ length piece.old }
    ensures cause { HasCause (D.state disk.old).faults (D.state disk.new).faults result }
    ensures frame { Unchanged (D.state disk.old) (D.state disk.new) }
{
    read(disk, at, piece)?;
    hasher.update(&*piece);
    Ok(())
}
