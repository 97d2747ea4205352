//! Lines by which a good join tree is among the plans of a log.
//!
//! Nothing is promised of the lines that are added: the log takes only lines that may stand, so the code here is kept from panics and
//! endless loops alone. The trees are those of `join_trees`.
#![tactic(auto)]

mod correlated;
mod filter_pushdown;
mod founding;
mod left_join_pullup;
mod left_join_pushdown;
mod nodes;
mod raising;
mod reaching;
mod seeding;
mod subquery_placement;

pub use raising::raise_left_joins;
pub use seeding::seed;
