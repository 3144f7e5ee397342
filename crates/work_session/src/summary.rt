//! What is summed up of the jobs of a number.
ghost use Rattle.std.specs.Prelude.{◌≡◌, ◌<◌, ◌≤◌, ◌+◌, ◌*◌, ◌^◌, ℕ, false, None, slice_index};
ghost use Rattle.std.specs.FinMap as fin;
ghost use Rattle.byte_ranges.specs.Lists.{sum_below};
ghost use Rattle.size_class.specs.Rows.{cells_of};
ghost use Rattle.extent_table.specs.Extents.{volume_of};
ghost use Rattle.segment_layout.specs.Books.{book_end};
ghost use Rattle.store_model.specs.Stores.{IsStore};
ghost use Rattle.work_session.specs.{Jobs.{HasTally}, Works.{EndsAt, IsLine, LinesOf}};

use crate::Server;
use crate::tally::Tally;
use move_cost::{CostTable, Flat, Linear, Seek, weighted};
use size_class::Row;

/// What the bytes moved and the bytes asked for cost by one table, each times `2^(C - 1)`.
#[derive(Clone, Copy, Debug, PartialEq, Eq)]
pub struct Cost {
    pub moved: u128,
    pub asked: u128,
}

/// The numbers of a work: how many jobs there were; how many of them were done without a checkpoint
/// (puts and removals), and with one (these and keeps); how many bytes gets gave; how many jobs were
/// refused; the names, their bytes and the length of the data part at the end; the bytes moved; and what
/// these and the bytes asked for cost by each table.
#[derive(Clone, Copy, Debug, PartialEq, Eq)]
pub struct Summary {
    pub requests: u64,
    pub ok: u64,
    pub kept: u64,
    pub read: u64,
    pub refused: u64,
    pub names: u64,
    pub bytes: u64,
    pub length: u64,
    pub moved: u128,
    pub linear: Cost,
    pub flat: Cost,
    pub seek: Cost,
}

/// The summary of so many jobs, of which this was counted, by what did them.
pub(crate) fn sum_up<S: Server<C>, const C: usize>(
    server: &S,
    requests: u64,
    tally: Tally,
) -> Summary
    requires whole { (S.store server.now).is_broken ≡ false }
    requires idle { (S.store server.now).in_hand ≡ None }
    requires sound { IsStore C (S.store server.now) }
    ensures tally { HasTally tally requests result }
    ensures end { EndsAt (S.store server.now) result }
    ensures lines { LinesOf C (S.store server.now).moved (S.store server.now).asked result }
    ensures zeros { (c : ℕ) → C ≤ c → slice_index (S.store server.now).moved c ≡ 0 }
{
    let (names, bytes) = server.names_and_bytes();
    let ledger = server.ledger_now();
    Summary {
        requests,
        ok: tally.ok,
        kept: tally.kept,
        read: tally.read,
        refused: tally.refused,
        names,
        bytes,
        length: server.length(),
        moved: total(&ledger.moved),
        linear: line(&Linear, &ledger.moved, &ledger.asked),
        flat: line(&Flat, &ledger.moved, &ledger.asked),
        seek: line(&Seek, &ledger.moved, &ledger.asked),
    }
}

/// What two rows of bytes cost by a table.
fn line<T: CostTable<C>, const C: usize>(table: &T, moved: &Row<C>, asked: &Row<C>) -> Cost
    requires fits { C ≤ 32 }
    ensures { IsLine C (T.cost_of table.now) (cells_of moved.now) (cells_of asked.now) result }
{
    Cost {
        moved: weighted(table, moved),
        asked: weighted(table, asked),
    }
}

/// All numbers of a row together.
fn total<const C: usize>(row: &Row<C>) -> u128
    requires fits { C ≤ 32 }
    ensures { result ≡ sum_below C (slice_index (cells_of row.now)) }
{
    let mut sum: u128 = 0;
    'classes: for c in 0..C {
        sum += u128::from(row.get(c as u8));
    }
    sum
}
