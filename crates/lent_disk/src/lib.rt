//! A file in memory as a disk. It makes no call of a system: it changes the bytes and
//! notes each changing call, so that the caller can make them.
#![tactic(auto)]

mod bytes;
mod course;
mod disk;
mod gap;
mod gaps;
pub mod laws;
mod log;
mod room;
mod trail;
mod view;

pub use disk::LentDisk;
pub use log::Log;
pub use room::Room;
pub use view::FileView;
