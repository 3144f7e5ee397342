//! Measures the opening of a file of the file system, which is written before.
mod file;
mod parts;

ghost use Rattle.std.specs.Prelude.{◌≤◌, IsTrue, IsFalse};

use crate::lines::Lines;
use crate::scratch::{Measured, on_scratch};
use disk_face::Disk;
use file::written;
use parts::timed;
use std::test::Fail;

/// The scratch file.
const NAME: &str = "bench_open.scratch";

/// Openings of a file of so many objects.
#[derive(Drop)]
struct Openings {
    names: u64,
    ghost low: { 16 ≤ names },
    ghost high: { names ≤ 65536 },
}

/// Measures the opening of a file of so many objects.
pub fn measure(rt: &HostRuntime, names: u64, lines: &mut Lines) -> Result<(), Fail>
    requires low { 16 ≤ names }
    requires high { names ≤ 65536 }
{
    let times = on_scratch(rt, NAME, false, &Openings { names })?;
    lines.add(
        rt,
        "find",
        " # us, state # us, rules # us, open # us",
        &times,
    );
    Ok(())
}

impl Measured for Openings {
    type Times = [u64; 4];

    /// Writes the objects to an empty file, and times what is measured.
    fn times<D: Disk + Drop>(&self, rt: &HostRuntime, disk: D) -> Result<[u64; 4], Fail>
        requires ready { IsTrue (D.state disk).is_ready }
        requires untold { IsFalse (D.state disk).tells }
    {
        let mut disk = disk;
        written(rt, &mut disk, self.names)?;
        timed(rt, &mut disk)
    }
}
