//! What bytes cost by their class: tables of costs, the weight of a row, and the constant of the
//! amortised cost.
#![tactic(auto)]

ghost use Rattle.std.specs.Prelude.{◌≡◌, ◌≤◌, ◌<◌, ◌+◌, ◌*◌, ◌^◌, ℕ};
ghost use Rattle.move_cost.specs.Costs as costs;

mod laws;
mod table;
mod tables;
mod weight;

pub use laws::{worked_factors, worked_weights};
pub use table::CostTable;
pub use tables::{Flat, Linear, Seek};
pub use weight::weighted;

/// The constant of the amortised cost of a store with this k, from 2 to 64; it is at most 4,995.
pub fn factor(k: u64) -> u64
    requires low { 2 ≤ k }
    requires high { k ≤ 64 }
    ensures { result ≡ costs.factor k }
{
    8 * k * (size_class::lg_up(k) + 3) + 6 * k + 3
}
