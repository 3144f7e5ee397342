//! Batches done by a store: the text of one is kept under a name of its own until all of it was done, so
//! that it takes effect as one.
#![tactic(auto)]

mod batcher;
mod fault;
mod fit;
mod judge;
pub mod laws;
mod lent;
mod make;
mod run;

pub use batch_model::check::{BATCH, check_text};
pub use batcher::Batcher;
pub use fault::BatchFault;
pub use lent::{apply_to, finish_in, is_pending_in, pending_size_in};
