//! The two slots of a file whose slots have logs: which one is in use, where the next entry of its log would
//! stand, and how a checkpoint is saved: as an entry that says what changed, where one fits, and else as a
//! whole table in the other slot. `Slots` is the pair of any file, with one save for both forms. No command
//! makes a file with logs yet.
#![tactic(auto)]

mod append;
mod laws;
mod pair;
mod rewrite;
mod slots;

pub use laws::{
    a_log_that_is_read_tells_the_pair, a_save_of_changes_makes_no_more_calls,
    an_entry_has_sectors_of_its_own, the_table_is_that_of_the_file,
};
pub use pair::LoggedPair;
pub use slots::Slots;
