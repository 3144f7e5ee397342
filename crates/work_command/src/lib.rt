//! The commands `work` and `cached`: the jobs of a number over a file, by its store or through a cache, and
//! their summary.
#![tactic(auto)]

mod laws;
mod summary;
mod work;

pub use laws::{jobs_are_done, worked_counts, worked_summary};
pub use work::{cached_file, work_file};
