//! Measures a store on a disk in memory: what a checkpoint costs, and what a move of a flush costs.
ghost use Rattle.std.specs.Prelude.{◌≡◌, ◌≤◌, IsTrue, length};

mod phases;

use crate::lines::Lines;
use crate::numbered::names_of;
use disk_face::Disk;
use disk_mem::PlainDisk;
use phases::{Cost, OBJECT, changes};
use slot_pair::SlotPair;
use std::alloc::Global;
use std::test::Fail;
use store_rows::trials::{Trial, store_on};

/// The divisor of the file: a buffer has a ninth of what its payload segment has.
const DIVISOR: u64 = 9;

/// Bytes of the disk for each name, and beside them: more than the file ever has.
const ROOM_A_NAME: u64 = 1024;

const ROOM_BESIDE: u64 = 65_536;

/// Measures a file with so many names.
pub fn measure(rt: &HostRuntime, names: u64, lines: &mut Lines) -> Result<(), Fail>
    requires low { 16 ≤ names }
    requires high { names ≤ 65536 }
{
    let list = names_of(rt.alloc(), names)?;
    let mut trial = fresh(rt.alloc(), names)?;
    measure_on(rt, &mut trial, &list, lines)
}

/// The store of a file on a disk in memory, which has room for `names` names.
fn fresh(alloc: Global, names: u64) -> Result<Trial<PlainDisk>, Fail>
    requires low { 16 ≤ names }
    requires high { names ≤ 65536 }
{
    let disk = PlainDisk::with_room(alloc, names * ROOM_A_NAME + ROOM_BESIDE)?;
    fresh_on(alloc, disk, names)
}

/// The store of a file that is formatted with room for `names` names.
fn fresh_on<D: Disk + Drop>(alloc: Global, disk: D, names: u64) -> Result<Trial<D>, Fail>
    requires ready { IsTrue (D.state disk).is_ready }
    requires tells { IsTrue (D.state disk).tells }
    requires empty { length (D.state disk).file ≡ 0 }
    requires low { 16 ≤ names }
    requires high { names ≤ 65536 }
{
    let mut disk = disk;
    SlotPair::format(&mut disk, DIVISOR, names)?;
    store_on(alloc, disk)
}

/// Puts an object of each name, puts another one in the place of each, and removes half of them; saves
/// checkpoints after each of these.
fn measure_on<D: Disk>(
    rt: &HostRuntime,
    trial: &mut Trial<D>,
    names: &[String],
    lines: &mut Lines,
) -> Result<(), Fail> {
    let filled = changes(rt, trial, names, Some(OBJECT))?;
    let replaced = changes(rt, trial, names, Some(OBJECT))?;
    let removed = changes(rt, trial, &names[..names.len() / 2], None)?;
    show_all(rt, names.len() as u64, &[filled, replaced, removed], lines);
    Ok(())
}

/// Prints what the checkpoints and the changes cost.
fn show_all(rt: &HostRuntime, count: u64, costs: &[Cost; 3], lines: &mut Lines) {
    let [filled, replaced, removed] = costs;
    let (full, later, half) = (filled.checkpoint, replaced.checkpoint, removed.checkpoint);
    let text = "# names: checkpoint # us, # us later, # us with half";
    lines.add(rt, "", text, &[count, full, later, half]);
    show(rt, "put", filled, 0, lines);
    show(rt, "replace", replaced, later, lines);
    show(rt, "remove half", removed, half, lines);
}

/// Prints what some changes cost. Of the time of the flushes, `save` microseconds a checkpoint aren't
/// counted to the moves: none while names are put, where the checkpoints have from no name to all.
fn show(rt: &HostRuntime, what: &str, cost: &Cost, save: u64, lines: &mut Lines) {
    let saving = save.saturating_mul(1000).saturating_mul(cost.saves);
    let numbers = [
        cost.quiet,
        cost.quiet_nanos / cost.quiet.max(1),
        cost.flushes,
        cost.flush_nanos / 1000,
        cost.moves,
        cost.saves,
        cost.flush_nanos.saturating_sub(saving) / cost.moves.max(1),
    ];
    let text = ": quiet #, ns a quiet #, flushes #, us #, moves #, saves #, ns a move #";
    lines.add(rt, what, text, &numbers);
}
