//! A desk: sessions whose requests stand in queues before one store, and a flush that goes one move at a
//! time between them.
#![tactic(auto)]

mod desk;
mod event;
mod hearing;
pub mod laws;
mod lines;
mod run;
mod said;
mod served;
mod serving;
mod stepping;
mod taking;

pub use ask_text::{End, Turn};
pub use desk::Desk;
