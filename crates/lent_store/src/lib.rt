//! A store over a file in memory, as one value, for a program that makes the calls of the system itself.
#![tactic(auto)]

mod batch;
pub mod batch_laws;
mod change;
mod check;
mod dumped;
pub mod durable_laws;
mod facts;
pub mod laws;
mod parts;
mod reads;
mod room;
mod sliced;
pub mod sliced_law;
mod store;
mod stream;
mod text;
mod upgrade;

pub use check::check_file;
pub use room::{room_need, width_of};
pub use store::LentStore;
pub use stream::DumpStop;
