//! The command `batch`: the puts and removals of an input take effect as one.
#![tactic(auto)]

mod batch;
mod text;

pub use batch::batch_file;
