//! The definitions of layouts, tables and books as plain and slow programs, to be tried on examples; and so
//! is the way from a file to the map and the book for which it stands.
#![tactic(auto)]

mod balance;
mod book;
mod bounds;
mod change;
mod class;
mod first;
mod hello;
mod objects;
mod opened;
mod opening;
mod record_list;
mod resume;
mod rules;
mod settle;
mod sums;
mod table;

pub use book::{Book, Charged};
pub use bounds::{Sizes, is_loose, is_tight};
pub use change::{Next, items_of};
pub use class::class_of;
pub use first::{Rule, rule_of};
pub use hello::{Change, HELLO, put};
pub use opened::{Opened, Refusal, open};
pub use settle::volume_of;
pub use table::Table;
