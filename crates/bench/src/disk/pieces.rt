//! Passes over a file, a piece at a time, and their microseconds.
ghost use Rattle.std.specs.Prelude.{IsTrue, IsFalse};

use crate::clock::{micros, now};
use disk_face::{Disk, DiskFault};

/// How many times fewer syncs than pieces are measured.
const PIECES_A_SYNC: u64 = 64;

/// The times of writes, of reads and of syncs. The file is written once before, without being measured.
pub fn times_of<D: Disk>(
    rt: &HostRuntime,
    disk: &mut D,
    piece: &mut [u8],
    count: u64,
) -> Result<[u64; 3], DiskFault>
    requires ready { IsTrue (D.state disk.old).is_ready }
    requires untold { IsFalse (D.state disk.old).tells }
    ensures ready { IsTrue (D.state disk.new).is_ready }
    ensures untold { IsFalse (D.state disk.new).tells }
{
    fill(rt, disk, piece, count)?;
    let write = writes(rt, disk, piece, count)?;
    let read = reads(rt, disk, piece, count)?;
    let sync = syncs(rt, disk, piece, count / PIECES_A_SYNC)?;
    Ok([write, read, sync])
}

/// Gives the file its length, and writes it once.
fn fill<D: Disk>(rt: &HostRuntime, disk: &mut D, piece: &[u8], count: u64) -> Result<u64, DiskFault>
    requires ready { IsTrue (D.state disk.old).is_ready }
    requires untold { IsFalse (D.state disk.old).tells }
    ensures ready { IsTrue (D.state disk.new).is_ready }
    ensures untold { IsFalse (D.state disk.new).tells }
{
    disk.set_len(count.saturating_mul(piece.len() as u64))?;
    writes(rt, disk, piece, count)
}

/// Writes a piece so many times, one after another from position 0.
fn writes<D: Disk>(
    rt: &HostRuntime,
    disk: &mut D,
    piece: &[u8],
    count: u64,
) -> Result<u64, DiskFault>
    requires ready { IsTrue (D.state disk.old).is_ready }
    requires untold { IsFalse (D.state disk.old).tells }
    ensures ready { IsTrue (D.state disk.new).is_ready }
    ensures untold { IsFalse (D.state disk.new).tells }
{
    let start = now(rt);
    let mut pos = 0u64;
    'pieces: for _ in 0..count {
        disk.write_at(pos, piece)?;
        pos = pos.wrapping_add(piece.len() as u64);
    }
    Ok(micros(rt, start))
}

/// Reads a piece so many times, one after another from position 0.
fn reads<D: Disk>(
    rt: &HostRuntime,
    disk: &mut D,
    piece: &mut [u8],
    count: u64,
) -> Result<u64, DiskFault>
    requires ready { IsTrue (D.state disk.old).is_ready }
    requires untold { IsFalse (D.state disk.old).tells }
    ensures ready { IsTrue (D.state disk.new).is_ready }
    ensures untold { IsFalse (D.state disk.new).tells }
{
    let start = now(rt);
    let mut pos = 0u64;
    'pieces: for _ in 0..count {
        disk.read_at(pos, piece)?;
        pos = pos.wrapping_add(piece.len() as u64);
    }
    Ok(micros(rt, start))
}

/// Syncs what was written before, which isn't measured; then writes a piece at position 0 and syncs, so
/// many times.
fn syncs<D: Disk>(
    rt: &HostRuntime,
    disk: &mut D,
    piece: &[u8],
    count: u64,
) -> Result<u64, DiskFault>
    requires ready { IsTrue (D.state disk.old).is_ready }
    requires untold { IsFalse (D.state disk.old).tells }
    ensures ready { IsTrue (D.state disk.new).is_ready }
    ensures untold { IsFalse (D.state disk.new).tells }
{
    disk.sync()?;
    let start = now(rt);
    'pieces: for _ in 0..count {
        disk.write_at(0, piece)?;
        disk.sync()?;
    }
    Ok(micros(rt, start))
}
