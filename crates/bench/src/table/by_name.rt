//! Times of the calls that search a name.
use super::ROUNDS;
use super::names::{clear, fill};
use crate::clock::{now, take_least};
use extent_table::Table;
use slot_codec::Name;

/// The times, as they are told.
pub const TEXT: &str = ": get #, set live #, remove #, set new #, sum #";

/// Times `get`, `set` of a live name, `remove` and `set` of a new name, where the names are live.
/// What `get` answers is summed and comes last, so that no call is left out.
pub fn time(rt: &HostRuntime, table: &mut Table, names: &[Name]) -> [u64; 5] {
    let mut least = [u64::MAX; 5];
    least[4] = 0;
    for _ in 0..ROUNDS {
        one_round(rt, table, names, &mut least);
    }
    least
}

/// Times each of the calls at each name once, by batches.
fn one_round(rt: &HostRuntime, table: &mut Table, names: &[Name], least: &mut [u64; 5]) {
    for batch in names.chunks((names.len() / 16 + 1).min(1024)) {
        let start = now(rt);
        least[4] = least[4].wrapping_add(sum_of_places(table, batch));
        take_least(rt, start, batch.len(), &mut least[0]);
        let start = now(rt);
        fill(table, batch);
        take_least(rt, start, batch.len(), &mut least[1]);
        let start = now(rt);
        clear(table, batch);
        take_least(rt, start, batch.len(), &mut least[2]);
        let start = now(rt);
        fill(table, batch);
        take_least(rt, start, batch.len(), &mut least[3]);
    }
}

/// The sum of the places of names, by `get`.
fn sum_of_places(table: &Table, names: &[Name]) -> u64 {
    let mut sum = 0u64;
    for name in names {
        sum = sum.wrapping_add(table.get(name).map_or(0, |spot| spot.place));
    }
    sum
}
