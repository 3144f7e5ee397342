//! Dumps: the map of a file as a stream of bytes, and a file that is laid out at once from one.
#![tactic(auto)]

mod gathering;
mod head;
mod laws;
mod putting;
mod sums;

pub use head::{DumpHead, read_head, write_head};
pub use laws::a_dump_is_of_one_map;
pub use putting::{DumpFault, dump, dump_boxed};
pub use sums::add_size;
