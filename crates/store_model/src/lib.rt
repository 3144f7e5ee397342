//! What a store is: its state and what it answers, what it keeps and how that belongs to its file, what a change
//! charges, what its calls leave, and what an opening does. These are definitions and laws over the fields of a
//! store as a value; the one code here charges a layout for a change, and nothing here knows of the disk.
#![tactic(auto)]

ghost use Rattle.std.specs.Prelude.{◌≡◌, []};
ghost use Rattle.store_model.specs.States.{Limits, Run, State};

mod answers;
mod charge;
mod hand;

pub use answers::{Begun, Done, Facts, Gauge, Moment, Progress, Refusal, Stat};
pub use charge::{ChargeResult, charge_change};
pub use hand::Began;

/// A run of no requests leaves the state.
pub fn an_empty_run()
    ensures { (limits : Limits) (s t : State) → Run limits s [] [] t → t ≡ s }
{}
