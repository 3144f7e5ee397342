//! The requests that wait at a desk: one ring of bytes for each session, with the texts of its requests.
#![tactic(auto)]

pub mod laws;
mod queues;
mod taken;

pub use queues::{Queues, RING, SESSIONS};
