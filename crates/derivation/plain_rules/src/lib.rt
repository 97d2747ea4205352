//! Rules of selections, projections, inner joins, DISTINCT and groups, each with its laws.
#![tactic(auto)]

pub mod condition_below_join;
pub mod distinct_of_keyed;
pub mod group_is_distinct;
pub mod join_associates;
pub mod join_commutes;
pub mod keep_below_join;
pub mod keep_of_all;
pub mod keeps_merge;
pub mod select_below_group;
pub mod select_below_join;
pub mod select_below_semi;
pub mod select_into_join;
pub mod selects_merge;
