//! What the calls of a store cost: laws of its values before and after, for each cost by class at once.
#![tactic(auto)]

mod laws;

pub use laws::{
    a_put_is_paid_for, a_session_of_a_store_is_paid_for, a_store_is_weighed,
    other_calls_move_nothing, tables_that_are_no_costs,
};
