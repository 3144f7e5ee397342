//! The lines on standard error: how a call of the program ended, by a stable word and a text for people;
//! how a line begins that is not a request; and how much of a session no checkpoint holds.
#![tactic(auto)]

mod failed;
mod line;
mod refused;
mod shown;
mod texts;
mod told;
mod typed;
mod unkept;
mod unread;
mod why;
mod wrong;

pub use failed::Failed;
pub use typed::Typed;
pub use unkept::Unkept;
pub use why::Why;
