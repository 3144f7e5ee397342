//! Tries the opening of logged files that were spoilt: two thousand, each with one to five parts that its number
//! draws, are opened by `load_by_mark`. It prints what `files` prints; what another program finds of the same
//! files is `check/predict_files`.
mod bases;
mod spoils;

use crate::drawn::Drawn;
use crate::tally::Tally;
use bases::drawn_base;
use disk_mem::MemDisk;
use reopen::{BoxedLoaded, OpenFault, load_by_mark};
use row_vectors::alike::{Seen, as_refusal};
use size_class::CLASSES;
use slot_codec::Kind;
use spoils::spoil_log;
use std::alloc::Global;
use std::test::Fail;

/// How many files are tried: those of the numbers from 0 on.
const FILES: u64 = 2_000;

/// Tries them all.
pub fn try_all(rt: &HostRuntime) -> Result<(), Fail> {
    let mut tally = Tally::new();
    'files: for number in 0..FILES {
        let mut file = drawn_log(rt.alloc(), number)?;
        let read = load_by_mark(rt.alloc(), &mut file);
        tally.add(Ok(as_seen(read)));
    }
    println!(rt; "logged files {FILES}")?;
    tally.show(rt)?;
    Ok(())
}

/// What a file is that was read.
fn as_seen(read: Result<BoxedLoaded<CLASSES>, OpenFault>) -> Seen {
    match read {
        Ok(loaded) => match loaded.header.kind {
            Kind::Settled => Seen::Still,
            Kind::Moving => Seen::Moving,
        },
        Err(fault) => Seen::Refused(as_refusal(fault)),
    }
}

/// The file of a number: one of the base files, with one to five spoilt parts.
fn drawn_log(alloc: Global, number: u64) -> Result<MemDisk, Fail> {
    let mut words = Drawn::new(number);
    let mut bytes = drawn_base(alloc, &mut words)?;
    let spoils = 1 + words.below(5);
    'spoils: for _ in 0..spoils {
        spoil_log(&mut bytes, &mut words)?;
    }
    Ok(MemDisk::from_bytes(alloc, &bytes)?)
}
