//! Cardinalities of classes, and costs of plans.
#![tactic(auto)]

pub mod cardinalities;
mod condition_lists;
mod condition_shares;
mod equalities;
mod index_conjuncts;
pub mod monotone;
pub mod nodes;
mod numbers;
pub mod plans;
mod tables;

pub use cardinalities::Cardinalities;
pub use condition_lists::Filtered;
pub use condition_shares::selectivity;
pub use nodes::{
    Estimate, Inputs, instance_probe_cost, instance_scan_cost, join_cost, node_cost, scan_cost,
};
pub use numbers::{ALL, per_million, product, sum, with_each};
pub use plans::{cost, estimates};
pub use tables::{index_over, owner, rows_of};
