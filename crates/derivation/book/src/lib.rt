//! The rule book: the rules by their names in certificates, and the laws of each.
#![tactic(auto)]

mod names;
pub mod rule_laws;

pub use names::RuleName;
