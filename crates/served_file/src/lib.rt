//! Requests that are served over a file that opens: what `run` and `work` both say of it.
#![tactic(auto)]

mod ends;

pub use ends::end_of;
