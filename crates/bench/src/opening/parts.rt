//! The parts of an opening, each timed.
ghost use Rattle.std.specs.Prelude.{IsTrue};
ghost use Rattle.reopen.specs.Loads.{KeepsLoaded};

use crate::clock::{micros, now};
use disk_face::Disk;
use reopen::{Loaded, State, read_state};
use size_class::CLASSES;
use slot_pair::SlotPair;
use std::test::Fail;
use store_core::Store;
use table_check::check_settled;

/// How often each part is measured. The least time is taken, since other processes run.
const ROUNDS: u64 = 8;

/// The least microseconds of finding the slot in use, of reading the state, of trying the rules of its
/// table alone, and of opening a store.
pub fn timed<D: Disk>(rt: &HostRuntime, disk: &mut D) -> Result<[u64; 4], Fail>
    requires ready { IsTrue (D.state disk.old).is_ready }
{
    let mut least = [u64::MAX; 4];
    for _ in 0..ROUNDS {
        let finding = finding(rt, disk)?;
        let [reading, trying] = reading(rt, disk)?;
        let opening = opening(rt, disk)?;
        take_less(&mut least, &[finding, reading, trying, opening]);
    }
    Ok(least)
}

/// Takes each time that is less than the least so far.
fn take_less(least: &mut [u64; 4], times: &[u64; 4]) {
    for n in 0..4 {
        least[n] = least[n].min(times[n]);
    }
}

/// Microseconds of finding the slot in use.
fn finding<D: Disk>(rt: &HostRuntime, disk: &mut D) -> Result<u64, Fail>
    requires ready { IsTrue (D.state disk.old).is_ready }
    ensures ready { IsTrue (D.state disk.new).is_ready }
{
    let start = now(rt);
    SlotPair::find(disk)?;
    Ok(micros(rt, start))
}

/// Microseconds of reading the state, and of trying the rules of its table.
fn reading<D: Disk>(rt: &HostRuntime, disk: &mut D) -> Result<[u64; 2], Fail>
    requires ready { IsTrue (D.state disk.old).is_ready }
    ensures ready { IsTrue (D.state disk.new).is_ready }
{
    let start = now(rt);
    let state = read_state::<D, CLASSES>(rt.alloc(), disk);
    let reading = micros(rt, start);
    match &state {
        Ok(State::Still(loaded)) => trying(rt, loaded, reading),
        _ => Err("a settled state")?,
    }
}

/// Microseconds of trying the rules of a table, behind those of reading it.
fn trying(rt: &HostRuntime, loaded: &Loaded<CLASSES>, reading: u64) -> Result<[u64; 2], Fail>
    requires { KeepsLoaded loaded.now }
{
    let mut order = Vec::with_capacity(rt.alloc(), 65_536)?;
    if 65_536 < loaded.table.count() {
        return Err("at most 65,536 names")?;
    }
    let start = now(rt);
    let length = loaded.layout.end();
    let k = loaded.block.k;
    check_settled::<CLASSES>(&loaded.table, &loaded.header, k, length, &mut order)?;
    Ok([reading, micros(rt, start)])
}

/// Microseconds of opening a store.
fn opening<D: Disk>(rt: &HostRuntime, disk: &mut D) -> Result<u64, Fail>
    requires ready { IsTrue (D.state disk.old).is_ready }
    ensures ready { IsTrue (D.state disk.new).is_ready }
{
    let start = now(rt);
    if Store::<CLASSES>::open(rt.alloc(), disk).is_err() {
        return Err("a store")?;
    }
    Ok(micros(rt, start))
}
