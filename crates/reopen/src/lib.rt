//! The state of a file: its slot in use, its table, and the layout in which the objects stand.
#![tactic(auto)]

mod behind;
mod boxed;
mod fault;
mod items;
mod log;
mod records;
mod state;
mod table;

pub use fault::OpenFault;
pub use state::{BoxedLoaded, Loaded, State, load_by_mark, load_state, read_state};
