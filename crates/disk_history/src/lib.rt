//! The history of a file: the changing calls on it, what reads give after them, and what a crash may leave.
#![tactic(auto)]

mod laws;

pub use laws::what_reads_give_is_an_image;
