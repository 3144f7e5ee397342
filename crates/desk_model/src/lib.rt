//! A desk: sessions whose requests stand in queues before one store, and a flush that goes one move at a
//! time between them. These are definitions and laws alone.
#![tactic(auto)]

pub mod laws;
