//! What a flush that is made one step at a time comes to: laws of the values of a store and of its disk.
#![tactic(auto)]

mod laws;

pub use laws::{a_begin_with_no_flush_comes_to_one_call, a_flush_by_steps_comes_to_one_call};
