//! Measures a real file through `FileBay`: pieces that are written, read and synced.
mod pieces;

ghost use Rattle.std.specs.Prelude.{IsTrue, IsFalse};

use crate::lines::Lines;
use crate::scratch::{Measured, on_scratch};
use disk_face::Disk;
use pieces::times_of;
use std::test::Fail;

/// The scratch file.
const NAME: &str = "bench_disk.scratch";

/// The lengths of small pieces and of large ones.
const SMALL: usize = 4096;

const LARGE: usize = 65_536;

/// Small pieces and large ones, so many of each.
#[derive(Drop)]
struct Sizes {
    count: u64,
}

/// Measures so many pieces of each size.
pub fn measure(rt: &HostRuntime, count: u64, lines: &mut Lines) -> Result<(), Fail> {
    let [small, large] = on_scratch(rt, NAME, false, &Sizes { count })?;
    show(rt, SMALL, count, small, lines);
    show(rt, LARGE, count, large, lines);
    Ok(())
}

/// Prints the times of pieces of one size.
fn show(rt: &HostRuntime, size: usize, count: u64, times: [u64; 3], lines: &mut Lines) {
    let [write, read, sync] = times;
    let numbers = [size as u64, count, write, read, sync];
    lines.add(rt, "", "# # write # read # sync #", &numbers);
}

impl Measured for Sizes {
    type Times = [[u64; 3]; 2];

    fn times<D: Disk + Drop>(&self, rt: &HostRuntime, disk: D) -> Result<[[u64; 3]; 2], Fail>
        requires ready { IsTrue (D.state disk).is_ready }
        requires untold { IsFalse (D.state disk).tells }
    {
        let mut disk = disk;
        let small = times_of(rt, &mut disk, &mut [7; SMALL], self.count)?;
        let large = times_of(rt, &mut disk, &mut [7; LARGE], self.count)?;
        Ok([small, large])
    }
}
