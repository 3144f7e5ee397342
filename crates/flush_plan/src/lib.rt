//! The moves of a flush, told from a shelf: the objects of a table by rank of their places. No phase
//! keeps a list; each knows how far it has come by a few places.
#![tactic(auto)]

mod again;
mod counts;
mod lay;
mod lift;
mod pack;
mod ranks;
mod settled;
mod shelf;
mod volumes;

pub use again::numbers_again;
pub use counts::numbers;
pub use flush_model::{Item, Move, Numbers};
pub use lay::Laying;
pub use lift::Lifting;
pub use pack::Packing;
pub use settled::Settled;
pub use shelf::Shelf;
