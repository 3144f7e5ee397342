//! The command `desk`: sessions at one desk over a file, by the script of the input.
#![tactic(auto)]

mod desk;

pub use desk::desk_file;
