//! Which joins of a log hang together, and the join tree that seems good for them.
//!
//! Nothing is promised of the tree: what it is good for is judged by the plans that come of it, so the code here is kept from panics and endless
//! loops alone. A tree is chosen by dynamic programming over the subsets of what is joined.
#![tactic(auto)]

mod candidates;
mod choice;
mod connected;
mod equations;
mod exhaustive;
mod frontiers;
mod greedy;
mod join_graph;
mod join_tree;
mod leaves;
mod left_joins;
mod log_estimates;
mod placeables;
mod regions;
mod selectivities;
mod sets;
mod subqueries;
mod table_costs;
mod unnested;

pub use candidates::TreeNode;
pub use choice::{Choice, choose};
pub use connected::falls_apart;
pub use join_tree::JoinTree;
pub use left_joins::OuterJoin;
pub use log_estimates::mentioned_leaves;
pub use regions::{
    Parts, Region, Sides, conditions_of, founding_sides, parts_of, place_of, regions_of,
};
pub use sets::{LeafSet, MOST_LEAVES};
pub use subqueries::Subquery;
