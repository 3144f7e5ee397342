//! Times of the calls by a rank by place, and of moves.
ghost use Rattle.std.specs.Prelude.{◌+◌, ◌<◌, ◌≤◌, ◌^◌};

use super::ROUNDS;
use crate::clock::{now, take_least};
use crate::lines::Lines;
use extent_table::Table;

/// So many bytes lie between the places of neighbours.
const STEP: u64 = 1 << 20;

/// How many objects are moved to the far end and back in a round.
const FAR: u64 = 64;

/// Times `at_place` and `place_rank` at each rank, and `relocate` in runs: where the rank stays,
/// where it changes by one, and where the object goes from one end to the other. The objects stand
/// `STEP` apart when a measure begins. What the first two answer is summed and comes behind their times,
/// so that no call is left out.
pub fn time(rt: &HostRuntime, table: &mut Table) -> [u64; 6] {
    let mut least = [u64::MAX; 6];
    least[2] = 0;
    for _ in 0..ROUNDS {
        spread(table);
        ask_each(rt, table, &mut least);
        move_all(rt, table, &mut least);
    }
    least
}

/// Times `at_place` and `place_rank`.
fn ask_each(rt: &HostRuntime, table: &Table, least: &mut [u64; 6]) {
    let calls = table.place_count() as usize;
    let start = now(rt);
    least[2] = least[2].wrapping_add(sum_at_place(table));
    take_least(rt, start, calls, &mut least[0]);
    let start = now(rt);
    least[2] = least[2].wrapping_add(sum_of_ranks(table));
    take_least(rt, start, calls, &mut least[1]);
}

/// Times `relocate`.
fn move_all(rt: &HostRuntime, table: &mut Table, least: &mut [u64; 6]) {
    let calls = table.place_count() as usize;
    let start = now(rt);
    move_each(table, 0, 1, 1);
    take_least(rt, start, calls, &mut least[3]);
    spread(table);
    let start = now(rt);
    move_each(table, 1, 2, STEP + STEP / 2);
    take_least(rt, start, calls / 2, &mut least[4]);
    let start = now(rt);
    move_far(table);
    take_least(rt, start, 2 * FAR as usize, &mut least[5]);
}

/// Prints the times.
pub fn show(rt: &HostRuntime, times: &[u64; 6], lines: &mut Lines) {
    lines.add(rt, "at_place", " #, place_rank #, sum #", &times[..3]);
    lines.add(
        rt,
        "relocate",
        ": rank stays #, next rank #, far end #",
        &times[3..],
    );
}

/// Moves the object of a rank, if there is one.
fn carry(table: &mut Table, rank: u64, place: u64)
    requires { place < 2 ^ 48 }
{
    if rank < table.place_count() {
        let (key, _) = table.at_place(rank);
        table.relocate(key, place);
    }
}

/// Gives the objects places that are `STEP` apart, in their order.
fn spread(table: &mut Table) {
    for rank in 0..table.place_count() {
        carry(table, rank, rank % 65_536 * 4096);
    }
    for rank in (0..table.place_count()).rev() {
        carry(table, rank, (rank + 1) % 65_536 * STEP);
    }
}

/// Moves the object of each so-manieth rank on by some bytes.
fn move_each(table: &mut Table, first: u64, stride: u64, by: u64) {
    let count = table.place_count();
    let mut rank = first;
    for _ in 0..count {
        if rank < table.place_count() {
            let (key, spot) = table.at_place(rank);
            table.relocate(key, spot.place.saturating_add(by) % (1 << 48));
        }
        rank = rank.saturating_add(stride);
    }
}

/// Moves the first objects to the far end and back.
fn move_far(table: &mut Table) {
    for _ in 0..FAR {
        carry(table, 0, (1 << 48) - 1);
        let last = table.place_count().saturating_sub(1);
        carry(table, last, 0);
    }
}

/// The sum of the places at each rank.
fn sum_at_place(table: &Table) -> u64 {
    let mut sum = 0u64;
    for n in 0..table.place_count() {
        let (_, spot) = table.at_place(n);
        sum = sum.wrapping_add(spot.place);
    }
    sum
}

/// The sum of the ranks of places between the objects.
fn sum_of_ranks(table: &Table) -> u64 {
    let mut sum = 0u64;
    for n in 0..table.place_count() {
        sum = sum.wrapping_add(table.place_rank(n.wrapping_mul(7919) % 65_536 * STEP));
    }
    sum
}
