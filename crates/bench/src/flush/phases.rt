//! Times changes and checkpoints of a store.
use crate::clock::{micros, nanos, now};
use disk_face::Disk;
use std::test::Fail;
use store_core::Refusal;
use store_rows::trials::Trial;

/// Every object.
pub const OBJECT: &[u8] = &[7; 64];

/// The class of its size.
const CLASS: usize = 6;

/// How often a checkpoint is saved. The least time is taken, since other processes run.
const ROUNDS: u64 = 8;

/// What some changes cost: how many were quiet, and how many made a flush, and nanoseconds of both;
/// and how many objects the flushes moved, and how many checkpoints they saved. Then microseconds of a
/// checkpoint after them.
#[derive(Drop)]
pub struct Cost {
    pub quiet: u64,
    pub quiet_nanos: u64,
    pub flushes: u64,
    pub flush_nanos: u64,
    pub moves: u64,
    pub saves: u64,
    pub checkpoint: u64,
}

/// Puts the object under each name, or removes each where there is none; then saves checkpoints.
pub fn changes<D: Disk>(
    rt: &HostRuntime,
    trial: &mut Trial<D>,
    names: &[String],
    object: Option<&[u8]>,
) -> Result<Cost, Fail> {
    let (moved, saved) = counts(trial);
    let [quiet, quiet_nanos, flushes, flush_nanos] = change_each(rt, trial, names, object)?;
    let (moved_then, saved_then) = counts(trial);
    let checkpoint = checkpoint(rt, trial)?;
    Ok(Cost {
        quiet,
        quiet_nanos,
        flushes,
        flush_nanos,
        moves: moved_then.saturating_sub(moved) / OBJECT.len() as u64,
        saves: saved_then.saturating_sub(saved),
        checkpoint,
    })
}

/// Makes the changes: how many were quiet, and their nanoseconds, and the same of those that made a flush.
fn change_each<D: Disk>(
    rt: &HostRuntime,
    trial: &mut Trial<D>,
    names: &[String],
    object: Option<&[u8]>,
) -> Result<[u64; 4], Refusal> {
    let mut quiet = [0; 2];
    let mut flushed = [0; 2];
    for name in names {
        let start = now(rt);
        let is_flush = change(trial, name.as_str(), object)?;
        let nanos = nanos(rt, start);
        add(if is_flush { &mut flushed } else { &mut quiet }, nanos);
    }
    Ok([quiet[0], quiet[1], flushed[0], flushed[1]])
}

/// Puts the object under a name, or removes the name, and tells whether that made a flush.
fn change<D: Disk>(
    trial: &mut Trial<D>,
    name: &str,
    object: Option<&[u8]>,
) -> Result<bool, Refusal> {
    let done = match object {
        Some(bytes) => trial.put(name, bytes)?,
        None => trial.del(name)?,
    };
    Ok(done.kept)
}

/// Counts one change more, and its nanoseconds.
fn add(sums: &mut [u64; 2], nanos: u64) {
    sums[0] = sums[0].saturating_add(1);
    sums[1] = sums[1].saturating_add(nanos);
}

/// The bytes moved so far, and the sequence.
fn counts<D: Disk>(trial: &Trial<D>) -> (u64, u64) {
    let store = trial.store();
    (store.ledger().moved.cells()[CLASS], store.gauge().sequence)
}

/// Microseconds of a checkpoint: the least of a few.
fn checkpoint<D: Disk>(rt: &HostRuntime, trial: &mut Trial<D>) -> Result<u64, Refusal> {
    let mut least = u64::MAX;
    for _ in 0..ROUNDS {
        let start = now(rt);
        trial.keep()?;
        least = least.min(micros(rt, start));
    }
    Ok(least)
}
