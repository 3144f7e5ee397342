//! Batches: puts and removals that take effect as one, also where a crash comes between them.
#![tactic(auto)]

pub mod check;
pub mod laws;
pub mod part;
