//! The work of a store, or of one behind a cache: the jobs of a number, done one after another, and a summary
//! of what they came to and of what they cost.
#![tactic(auto)]

mod by_cache;
mod by_store;
mod job;
mod jobs;
mod pattern;
mod server;
mod sink;
mod summary;
mod tally;
mod work;

pub use server::Server;
pub use summary::{Cost, Summary};
pub use work::{WorkFault, do_work};
