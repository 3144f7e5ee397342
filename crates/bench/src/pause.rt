//! Measures how long a store on a real file keeps its caller waiting: in one call that makes a flush, and
//! where the flush is made by steps, in its begin, in a step, and in a read between two steps.
ghost use Rattle.std.specs.Prelude.{◌≤◌, IsTrue, IsFalse};

mod sliced;
mod spread;

use crate::lines::Lines;
use crate::numbered::names_of;
use crate::scratch::{Measured, on_scratch};
use disk_face::Disk;
use sliced::{FLUSHES, GETS, Pauses, QUIET, STEPS, by_steps, in_one};
use slot_pair::SlotPair;
use spread::Spread;
use std::test::Fail;
use store_rows::slices::{Slicer, sliced_on};

/// The scratch file.
const NAME: &str = "bench_pause.scratch";

/// The divisor of the file: a buffer has a ninth of what its payload segment has.
const DIVISOR: u64 = 9;

/// How calls are told where each put is one call.
const CALLS: &[(&str, usize)] = &[("put that flushes", FLUSHES), ("quiet put", QUIET)];

/// The same where puts are made by steps.
const CALLS_BY_STEPS: &[(&str, usize)] = &[
    ("begin", FLUSHES),
    ("step", STEPS),
    ("get between two steps", GETS),
    ("quiet begin", QUIET),
];

/// An object of each name, put twice: by one call each, or by steps.
#[derive(Drop)]
struct Puts<'a> {
    names: &'a [String],
    count: u64,
    is_sliced: bool,
    ghost low: { 16 ≤ count },
    ghost high: { count ≤ 65536 },
}

/// Puts an object of each name twice on a new file, by one call each, and on another one by steps.
pub fn measure(rt: &HostRuntime, count: u64, lines: &mut Lines) -> Result<(), Fail>
    requires low { 16 ≤ count }
    requires high { count ≤ 65536 }
{
    let names = names_of(rt.alloc(), count)?;
    measure_names(rt, &names, count, lines)
}

/// The same with these names.
fn measure_names(
    rt: &HostRuntime,
    names: &[String],
    count: u64,
    lines: &mut Lines,
) -> Result<(), Fail>
    requires low { 16 ≤ count }
    requires high { count ≤ 65536 }
{
    let one = on_new_file(rt, names, count, false)?;
    let steps = on_new_file(rt, names, count, true)?;
    let text = "# names, nanoseconds: calls, half within, 99 of 100 within, longest";
    lines.add(rt, "", text, &[count]);
    show(rt, CALLS, &one, lines);
    show(rt, CALLS_BY_STEPS, &steps, lines);
    Ok(())
}

/// Measures on a new file, which is removed.
fn on_new_file(
    rt: &HostRuntime,
    names: &[String],
    count: u64,
    is_sliced: bool,
) -> Result<Pauses, Fail>
    requires low { 16 ≤ count }
    requires high { count ≤ 65536 }
{
    let puts = Puts {
        names,
        count,
        is_sliced,
    };
    on_scratch(rt, NAME, true, &puts)
}

impl<'a> Measured for Puts<'a> {
    type Times = Pauses;

    fn times<D: Disk + Drop>(&self, rt: &HostRuntime, disk: D) -> Result<Pauses, Fail>
        requires ready { IsTrue (D.state disk).is_ready }
        requires untold { IsFalse (D.state disk).tells }
    {
        let mut disk = disk;
        SlotPair::format(&mut disk, DIVISOR, self.count)?;
        let mut store = sliced_on(rt.alloc(), disk)?;
        let mut pauses = [Spread::new(); 4];
        for _ in 0..2 {
            all_names(rt, &mut store, self.names, self.is_sliced, &mut pauses)?;
        }
        Ok(pauses)
    }
}

/// Puts an object of each name.
fn all_names<D: Disk>(
    rt: &HostRuntime,
    store: &mut Slicer<D>,
    names: &[String],
    is_sliced: bool,
    pauses: &mut Pauses,
) -> Result<(), Fail> {
    for name in names {
        if is_sliced {
            by_steps(rt, store, name.as_str(), pauses)?;
        } else {
            in_one(rt, store, name.as_str(), pauses)?;
        }
    }
    Ok(())
}

/// Prints how long calls took.
fn show(rt: &HostRuntime, calls: &[(&str, usize)], pauses: &Pauses, lines: &mut Lines) {
    for (what, kind) in calls {
        if let Some(spread) = pauses.get(*kind) {
            lines.add(rt, what, ": # calls, #, #, #", &spread.numbers());
        }
    }
}
