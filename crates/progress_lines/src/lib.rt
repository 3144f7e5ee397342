//! How far a long call is, said on standard error once a second where that is a terminal.
#![tactic(auto)]

mod counted;
mod pace;
mod terminal;

pub use counted::{CountedSink, CountedSource};
pub use pace::Pace;
pub use terminal::{Stream, is_terminal};
