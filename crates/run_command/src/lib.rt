//! The command `run`: a session over a file, and what it does to the file, whole.
#![tactic(auto)]

mod laws;
mod run;

pub use laws::requests_are_served;
pub use run::run_file;
