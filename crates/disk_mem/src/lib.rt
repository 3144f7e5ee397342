//! The outside in memory: disks that keep a record or none, disks that fail when they are told to, a bay
//! of one file, a source and a sink.
#![tactic(auto)]

mod bay;
mod calls;
mod disk;
mod fuse;
mod image;
mod laws;
mod plain;
mod record;
mod replay;
mod smear;
mod streams;
mod turns;

pub use bay::MemBay;
pub use disk::MemDisk;
pub use fuse::Fuse;
pub use image::Choice;
pub use plain::PlainDisk;
pub use streams::{MemSink, MemSource};
