//! What a flush moves, told from where the objects of its suffix stand: its numbers, the next move of each
//! phase, and what each phase keeps, with the laws of these. Nothing here keeps a list or knows of the disk.
#![tactic(auto)]

mod item;
mod laws;
mod segments;

pub use item::{Item, Move, Numbers};
pub use laws::{
    few_bytes_are_moved, objects_move_twice_at_most, the_next_move_is_one, the_reach_is_loose,
    worked_numbers,
};
pub use segments::{places_of, stands, starts_of};
