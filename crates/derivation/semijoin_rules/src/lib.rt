//! Rules of semijoins and antijoins, each with its laws.
#![tactic(auto)]

pub mod antijoin_of_filled;
pub mod semijoin_below_join;
pub mod semijoin_is_join;
