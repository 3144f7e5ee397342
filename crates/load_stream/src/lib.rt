//! Loading a dump: a file that is laid out at once from a stream.
#![tactic(auto)]

mod begin;
mod body;
mod end;
mod fault;
mod fill;
mod first;
mod laws;
mod loading;
mod next;
mod object;
mod objects;
mod plan;
mod save;

pub use fault::LoadFault;
pub use laws::{an_input_has_one_answer, objects_that_are_put_are_laid_out};
pub use loading::load;
