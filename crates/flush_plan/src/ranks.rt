//! The rank of a place: how many objects of a shelf stand before it.
ghost use Rattle.std.specs.Prelude.{◌<◌, ◌≤◌};
ghost use Rattle.flush_plan.specs.Shelves.{IsRank, IsShelf};

use crate::shelf::Shelf;

/// How many objects of a shelf begin before a place. The hint is a rank near which the answer may lie:
/// it is looked at first, then each time twice as far from there, and what is left is halved. It
/// changes the work alone.
pub(crate) fn rank_from<S: Shelf>(shelf: &S, place: u64, hint: u64) -> u64
    requires rises { IsShelf (S.items shelf.now) }
    ensures { IsRank (S.items shelf.now) place result }
{
    let mut low = 0;
    let mut high = shelf.len();
    let mut at = hint;
    let mut stride = 0u64;
    'ranks: while low < high {
        let rank = between(low, high, at);
        if shelf.item(rank).place < place {
            low = rank + 1;
            at = low.saturating_add(stride);
        } else {
            high = rank;
            at = rank.saturating_sub(1).saturating_sub(stride);
        }
        stride = stride.saturating_mul(2).saturating_add(1);
    }
    low
}

/// A number that is wanted, if it is one from `low` up to `high`, and else the middle one of these.
fn between(low: u64, high: u64, wanted: u64) -> u64
    requires some { low < high }
    ensures low { low ≤ result }
    ensures high { result < high }
{
    if low <= wanted && wanted < high {
        wanted
    } else {
        low + (high - low) / 2
    }
}
