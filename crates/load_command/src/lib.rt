//! The command `load`: a file that is made of a dump.
#![tactic(auto)]

mod laws;
mod load;

pub use laws::a_second_load_is_taken;
pub use load::load_file;
