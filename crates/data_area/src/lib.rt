//! The data part of a file: writing an object, reading a part of one, and moving one within it.
//! Past the head of a formatted file nothing else writes.
#![tactic(auto)]

mod area;
mod copy;
mod digest;
mod ledger;
mod moving;
mod put;

pub use area::{read_chunk, write_object};
pub use digest::digest_at;
pub use ledger::Ledger;
pub use moving::move_object;
pub use put::{PutFault, put_bytes};
