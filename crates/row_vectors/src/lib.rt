//! Worked commands of the whole program, and runs of it over devices in memory.
#![tactic(auto)]

ghost use Rattle.std.specs.Prelude.{◌≡◌, None};
ghost use Rattle.disk_mem.specs.Bays.{last_mount_of};

pub use costore_top::Outcome;
use costore_top::costore;
use disk_face::Disk;
use disk_mem::{MemBay, MemSink, MemSource};
use std::alloc::Global;

/// One run of the program over devices in memory.
pub fn serve<D: Disk>(
    alloc: Global,
    words: &[&str],
    bay: &mut MemBay<D>,
    input: &mut MemSource,
    output: &mut MemSink,
) -> Outcome
    requires { last_mount_of bay.old ≡ None }
{
    costore(alloc, words, bay, input, output)
}

pub mod alike;
#[cfg(test)]
mod answers;
#[cfg(test)]
mod digests;
#[cfg(test)]
mod dumps;
#[cfg(test)]
mod failing_disks;
#[cfg(test)]
mod failing_sinks;
#[cfg(test)]
mod formats;
#[cfg(test)]
mod fronts;
#[cfg(test)]
mod gets;
pub mod images;
pub mod inputs;
#[cfg(test)]
mod limits;
#[cfg(test)]
mod refusals;
#[cfg(test)]
mod resumed;
#[cfg(test)]
mod rows;
pub mod runs;
#[cfg(test)]
mod tables;
#[cfg(test)]
mod words;
