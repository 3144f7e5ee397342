//! The store: names and their objects on a disk, as they stand now and as they stood at the last
//! checkpoint, to which it can go back.
#![tactic(auto)]

mod begin;
mod change;
mod copy;
mod digest;
mod facts;
mod faults;
mod fetch;
mod flush;
mod held;
mod judge;
mod keep;
pub mod laws;
mod lines;
mod lists;
mod memory;
mod next;
mod open;
mod plan;
mod quiet;
mod reads;
mod renew;
mod sliced;
mod store;
mod upgrade;

pub use store::Store;
pub use store_model::{Begun, Done, Facts, Gauge, Moment, Progress, Refusal, Stat};
