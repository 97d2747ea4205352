//! Labels of least cost: goals with what the cheapest plan of each costs, by which a plan is shown to be the cheapest of its log.
#![tactic(auto)]

mod accesses;
mod bounds;
mod by_class;
mod check;
pub mod goal;
mod inputs;
mod lines;
mod nodes;
mod offered;
mod offers;
pub mod winners;

pub use accesses::accesses_of;
pub use check::check_least;
pub use goal::{Goal, Label};
pub use inputs::{fitting_goals, input_goals};
pub use nodes::nodes_of;
pub use offers::{Derived, goal_of, is_goal, same_goal};
