//! Bindings: rules with the lines that they are applied to, and what they give there.
#![tactic(auto)]

mod binding;
mod operators;
mod result_laws;
mod rule_results;

pub use binding::{Binding, BoundLines, step_of};
pub use operators::{OverOne, OverTwo};
pub use result_laws::{result_may_stand, results_are_shallow, results_may_stand};
pub use rule_results::RuleResult;
