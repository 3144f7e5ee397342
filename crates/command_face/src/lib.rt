//! What the commands of the program share: why one stops, how it ends, and what it keeps of its devices.
#![tactic(auto)]

mod fault;
mod mount;
mod opening;
mod outcome;
mod put;
mod status;
mod stop;

pub use mount::mount_there;
pub use opening::stop_of;
pub use outcome::{Outcome, finish};
pub use put::{push, put_whole};
pub use status::{
    DAMAGED_OBJECT, DISK_FAILED, DONE, FAULTY_REQUEST, FAULTY_WORDS, NO_BATCH, NO_FILE, NO_MEMORY,
    NO_OBJECT, NO_STORE, NOT_EMPTY, SINK_FAILED, SOURCE_FAILED, TOO_MANY_NAMES, TOO_MANY_REQUESTS,
    UNFIT, WORN,
};
pub use stop::StopReason;
