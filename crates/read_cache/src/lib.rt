//! A store behind a cache: the small objects that were read last are kept in memory, and a get of one of
//! them makes no call of the disk. Names are placed by a hash with a fixed seed, so whoever chooses the
//! names may make the cache slow, but not wrong.
#![tactic(auto)]

mod cached;
mod changes;
mod get;
mod got;
mod held;
pub mod laws;
mod recent;

pub use cached::Cached;
pub use got::Got;
