//! The rules of a table that was read from a file: whether all of them hold, and which is broken
//! first, and where.
#![tactic(auto)]

mod apart;
mod balance;
mod check;
mod fault;
mod frame;
mod order;
mod places;
mod resume;
mod room;
mod spots;

pub use check::{check_moving, check_settled};
pub use fault::TableFault;
