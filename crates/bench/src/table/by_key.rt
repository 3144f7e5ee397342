//! Times of the calls by a rank or a key.
ghost use Rattle.std.specs.Prelude.{All, IfOk};
ghost use Rattle.extent_table.specs.Extents.{IsLive};

use super::ROUNDS;
use crate::clock::{now, take_least};
use extent_table::Table;
use slot_codec::{Roll, write_record};
use std::alloc::{AllocError, Global};

/// The times, as they are told.
pub const TEXT: &str = " #, kept_spot #, record #, sum #";

/// Times `in_order`, `kept_spot` and the writing of a record, each at all live names. What they answer
/// is summed and comes last, so that no call is left out.
pub fn time(rt: &HostRuntime, table: &Table) -> Result<[u64; 4], AllocError> {
    let mut least = [u64::MAX; 4];
    least[3] = 0;
    for _ in 0..ROUNDS {
        one_round(rt, table, &mut least)?;
    }
    Ok(least)
}

/// Times each at all live names once.
fn one_round(rt: &HostRuntime, table: &Table, least: &mut [u64; 4]) -> Result<(), AllocError> {
    let keys = live_keys(rt.alloc(), table)?;
    let start = now(rt);
    let in_order = sum_in_order(table);
    take_least(rt, start, keys.len(), &mut least[0]);
    let start = now(rt);
    let kept = sum_of_kept(table, &keys);
    take_least(rt, start, keys.len(), &mut least[1]);
    let start = now(rt);
    let records = sum_of_records(table);
    take_least(rt, start, keys.len(), &mut least[2]);
    least[3] = least[3]
        .wrapping_add(in_order)
        .wrapping_add(kept)
        .wrapping_add(records);
    Ok(())
}

/// The keys of the live names, in the order of the names.
fn live_keys(alloc: Global, table: &Table) -> Result<Vec<u32>, AllocError>
    ensures live { IfOk result (λ keys. All (IsLive table.now) keys.items) }
{
    let mut keys = Vec::with_capacity(alloc, table.count() as usize)?;
    'ranks: for n in 0..table.count() {
        let entry = table.in_order(n);
        keys.push(entry.0)?;
    }
    Ok(keys)
}

/// The sum of the places and of the last bytes of all live names, by `in_order`.
fn sum_in_order(table: &Table) -> u64 {
    let mut sum = 0u64;
    for n in 0..table.count() {
        let (_, name, spot) = table.in_order(n);
        let last = name.as_bytes().last().copied().unwrap_or(0);
        sum = sum.wrapping_add(spot.place).wrapping_add(u64::from(last));
    }
    sum
}

/// The sum of a byte of each record, after it is written.
#[tactic(auto, unfolding(slot_codec::specs::Spelling::record_len))]
fn sum_of_records<R: Roll>(roll: &R) -> u64 {
    let mut sum = 0u64;
    let mut out = [0; 80];
    for n in 0..roll.count() {
        write_record(&roll.nth(n), 1, &mut out);
        sum = sum.wrapping_add(u64::from(out[(n % 80) as usize]));
    }
    sum
}

/// The sum of the places where the objects of some keys stood at the last checkpoint.
fn sum_of_kept(table: &Table, keys: &[u32]) -> u64
    requires { All (IsLive table.now) keys.now }
{
    let mut sum = 0u64;
    'keys: for key in keys {
        sum = sum.wrapping_add(table.kept_spot(*key).map_or(0, |spot| spot.place));
    }
    sum
}
