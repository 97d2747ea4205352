//! What a plan reads of the environment in which it runs.
#![tactic(auto)]

mod conditions;
mod operators;
mod plans;
mod readings;

pub use plans::{free_columns, plan_columns};
