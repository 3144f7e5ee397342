//! The lines of an input: bytes that are read ahead of their use, and lines that are cut from them.
#![tactic(auto)]

mod ahead;
mod line;
mod piece;

pub use ahead::Ahead;
pub use line::{next_ask, read_line};
pub use piece::{fill, skip};
