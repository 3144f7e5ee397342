//! The space that the last checkpoint holds though nothing stands there now. Nothing may be written
//! there before the next checkpoint.
#![tactic(auto)]

mod guard;
mod search;

pub use guard::Guard;
