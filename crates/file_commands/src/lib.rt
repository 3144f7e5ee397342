//! The commands that look at a file or make one: `format`, `get`, `check`, `map` and `dump`. Those that look
//! at one go by its mark: they read files whose slots have no logs, and files whose slots have logs.
#![tactic(auto)]

mod check;
mod command;
mod copy;
mod digest;
mod dump;
mod get;
mod laws;
mod lines;
mod load;
mod map;

pub use command::{check_from, dump_from, format_in, get_from, map_from};
pub use laws::{
    a_formatted_file_is_the_empty_store, a_map_of_a_file_has_a_dump, told_of_the_map, worked_texts,
};
