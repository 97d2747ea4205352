//! The search for a plan of least cost over the lines of a log: goals, each a class and an order, and what is offered for them (Graefe, The Cascades
//! framework for query optimization, 1995).
#![tactic(auto)]

mod build;
mod collect;
mod found;
mod goals;
mod least;
mod nodes;
mod space;

pub use least::{BestPlan, best};
