//! The texts of requests and replies: a line read as what it asks for, the first line of a reply, and how a
//! turn of those who serve requests ends.
#![tactic(auto)]

mod ask;
mod digits;
mod ends;
mod laws;
mod reply;
mod word;

pub use ask::{Ask, LineFault, read_ask};
pub use digits::number;
pub use ends::{End, Turn};
pub use reply::{RefusedWord, Reply, write_reply};
pub use word::Word;
