//! A list of requests that a number gives, as a database's block layer would make them: to try a store
//! with, and to measure one. The same number gives the same list everywhere.
#![tactic(auto)]

mod job;
mod laws;
mod next;
mod work;

pub use job::Job;
pub use work::Work;
