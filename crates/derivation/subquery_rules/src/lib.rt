//! Rules of subqueries: that they are semijoins and antijoins, and what they don't see, each with its laws.
#![tactic(auto)]

pub mod exists_is_semi;
pub mod exists_of_select_is_semi;
pub mod in_is_semi;
pub mod in_select_is_semi;
pub mod not_exists_is_anti;
pub mod not_exists_of_select_is_anti;
pub mod not_in_is_anti;
pub mod not_in_select_is_anti;
mod replacing;
pub mod subquery_of_input;
mod unnesting;
