//! Times of the calls that go over the whole table.
use super::ROUNDS;
use super::names::{clear, fill};
use crate::clock::{now, take_least};
use extent_table::Table;
use slot_codec::Name;

/// The times, as they are told.
pub const TEXT: &str = ": keep #, back #";

/// Times `keep` and `back` where some names were removed and some set since the last `keep`.
pub fn time(rt: &HostRuntime, table: &mut Table, gone: &[Name], set: &[Name]) -> [u64; 2] {
    let mut least = [u64::MAX; 2];
    for _ in 0..ROUNDS {
        replace(table, gone, set);
        let start = now(rt);
        table.back();
        take_least(rt, start, 1, &mut least[1]);
        replace(table, gone, set);
        let start = now(rt);
        table.keep();
        take_least(rt, start, 1, &mut least[0]);
        replace(table, set, gone);
        table.keep();
    }
    least
}

/// Removes names, and sets others.
fn replace(table: &mut Table, gone: &[Name], set: &[Name]) {
    clear(table, gone);
    fill(table, set);
}
