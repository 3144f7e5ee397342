//! What the moves of a store cost: laws of its books, for each cost by class at once.
#![tactic(auto)]

mod laws;

pub use laws::{
    a_session_is_paid_for, buffers_are_nearly_full, each_request_is_paid_for,
    going_back_costs_nothing, moves_are_paid_for, the_rate_falls,
};
