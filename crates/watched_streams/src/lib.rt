//! The streams of the program, with what the lines on standard error need to know of them: how the request
//! begins that was read last, what was put last, and how many requests no checkpoint holds.
#![tactic(auto)]

mod asked;
mod backs;
mod begun;
mod heard;
mod tally;

pub use asked::Asked;
pub use backs::Backs;
pub use begun::Begun;
pub use heard::Heard;
pub use tally::Tally;
