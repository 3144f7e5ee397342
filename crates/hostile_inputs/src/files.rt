//! Tries the opening of files with tables that were spoilt: two thousand, each with one, two or three
//! parts that its number draws, are opened by `read_state` and by `plain_layout`. It prints how many
//! are still opened, how many are refused for each reason, the sum of the positions of their faults, and on how
//! many the two differ.
mod bases;
mod spoils;

use crate::drawn::Drawn;
use crate::tally::Tally;
use bases::drawn_base;
use disk_mem::MemDisk;
use row_vectors::alike::opened_by_both;
use row_vectors::images::image;
use spoils::spoil;
use std::alloc::Global;
use std::test::Fail;

/// How many files are tried: those of the numbers from 0 on.
const FILES: u64 = 2_000;

/// Tries them all.
pub fn try_all(rt: &HostRuntime) -> Result<(), Fail> {
    let mut tally = Tally::new();
    for number in 0..FILES {
        let mut file = drawn_file(rt.alloc(), number)?;
        tally.add(opened_by_both(rt.alloc(), &mut file));
    }
    println!(rt; "files {FILES}")?;
    tally.show(rt)?;
    Ok(())
}

/// The file of a number: one of the base files, with one, two or three spoilt parts.
fn drawn_file(alloc: Global, number: u64) -> Result<MemDisk, Fail> {
    let mut words = Drawn::new(number);
    let base = drawn_base(&mut words);
    let mut bytes = image(alloc, base.length, base.first, base.then)?;
    let spoils = 1 + words.below(3);
    for _ in 0..spoils {
        spoil(&mut bytes, &mut words)?;
    }
    Ok(MemDisk::from_bytes(alloc, &bytes)?)
}
