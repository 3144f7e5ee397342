//! Measures the parts of a store: `bench disk PIECES` a real file, `bench table NAMES` the table of names,
//! `bench flush NAMES` flushes and checkpoints, `bench open NAMES` openings, `bench pause NAMES` how long a
//! flush keeps its caller waiting, `bench cached NAMES` reads behind a cache. There are 16 to 65,536 names.
//! With no word each is measured with few, and nothing is printed.
#![tactic(auto)]

ghost use Rattle.std.specs.Prelude.{◌≤◌};

mod answers;
mod cached;
mod clock;
mod disk;
mod flush;
mod lines;
mod numbered;
mod opening;
mod pause;
mod scratch;
mod table;

use lines::Lines;
use std::env;
use std::test::Fail;

/// Pieces or names where no word says how many.
const FEW: u64 = 64;

/// The same where each flush syncs a real file.
const FEWEST: u64 = 16;

/// Each part, with few pieces or names.
const PARTS: &[(&str, u64)] = &[
    ("disk", FEW),
    ("table", FEW),
    ("flush", FEW),
    ("open", FEW),
    ("pause", FEWEST),
    ("cached", FEWEST),
];

fn main(rt: HostRuntime) -> Result<(), Fail> {
    let mut words = env::args(&rt)?;
    match words.nth(1) {
        Some(what) => told(&rt, what.as_str(), number(words.next())?),
        None => each(&rt),
    }
}

/// The number that the second word tells.
fn number(word: Option<String>) -> Result<u64, Fail> {
    match word {
        Some(word) => Ok(word.as_str().parse::<u64>()?),
        None => Err("a number of pieces or of names")?,
    }
}

/// Measures each part, and prints nothing.
fn each(rt: &HostRuntime) -> Result<(), Fail> {
    let mut lines = Lines::new(false);
    for (what, count) in PARTS {
        one(rt, what, *count, &mut lines)?;
    }
    Ok(())
}

/// Measures one part, and prints what was measured.
fn told(rt: &HostRuntime, what: &str, count: u64) -> Result<(), Fail> {
    let mut lines = Lines::new(true);
    one(rt, what, count, &mut lines)?;
    if lines.has_failed() {
        return Err("a line couldn't be printed")?;
    }
    Ok(())
}

/// Measures one part.
fn one(rt: &HostRuntime, what: &str, count: u64, lines: &mut Lines) -> Result<(), Fail> {
    if what == "disk" {
        return disk::measure(rt, count, lines);
    }
    if count < 16 || 65_536 < count {
        return Err("16 to 65,536 names")?;
    }
    with_names(rt, what, count, lines)
}

/// Measures one part with so many names.
fn with_names(rt: &HostRuntime, what: &str, count: u64, lines: &mut Lines) -> Result<(), Fail>
    requires low { 16 ≤ count }
    requires high { count ≤ 65536 }
{
    match what {
        "table" => table::measure(rt, count, lines),
        "flush" => flush::measure(rt, count, lines),
        "open" => opening::measure(rt, count, lines),
        "pause" => pause::measure(rt, count, lines),
        "cached" => cached::measure(rt, count, lines),
        _ => Err("disk, table, flush, open, pause or cached")?,
    }
}
