//! Tries sessions with inputs that were cut and spoilt: lists of requests that numbers draw are given to
//! the command `run` over devices in memory. A plain reader, which shares nothing with the program, finds
//! the requests in front of the first bytes that are none, and a plain map answers them. It prints of
//! each list how its session ended and what the file holds then, and how many sessions differed from
//! what the plain map says.
mod lists;
mod plain_map;
mod plain_reader;
mod spoils;
mod trials;

use std::test::Fail;
use trials::{Trial, tried};

/// How many lists are tried: those of the numbers from 0 on.
const LISTS: u64 = 200;

/// Tries them all.
pub fn try_all(rt: &HostRuntime) -> Result<(), Fail> {
    let mut differ = 0u64;
    for number in 0..LISTS {
        let Trial {
            outcome,
            names,
            bytes,
            agrees,
        } = tried(rt.alloc(), number)?;
        println!(rt;
            "list {number} status {} done {} kept {} names {names} bytes {bytes}",
            outcome.status, outcome.done, outcome.kept_done
        )?;
        if !agrees {
            differ = differ.saturating_add(1);
        }
    }
    println!(rt; "differ {differ}")?;
    Ok(())
}
