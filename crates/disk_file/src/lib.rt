//! The trusted edge: a real file of the runtime, and its standard reader and writer.
#![tactic(auto)]

mod bay;
mod calls;
mod cause;
mod host;
mod mounts;
mod own;
mod passes;
mod positions;
mod retries;
mod standard;
mod streams;
mod system;

pub use bay::FileBay;
pub use cause::{Cause, NoRoom};
pub use host::{Host, How, Kind, Use};
pub use own::{is_own_errors, is_own_stream};
pub use standard::{HeldNumbers, hold_numbers};
pub use streams::{StdSink, StdSource};
pub use system::SystemFile;
