//! Rules of outer joins, each with its laws.
#![tactic(auto)]

pub mod condition_below_left_join;
pub mod keep_of_left_side;
pub mod left_join_above_join;
pub mod left_join_below_join;
pub mod outer_join_is_anti;
pub mod outer_join_is_inner;
pub mod select_below_left_join;
