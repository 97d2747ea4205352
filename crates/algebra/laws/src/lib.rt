//! Laws of the algebra, on which rules and facts rest. The functions do nothing: their contracts are the laws.
#![tactic(auto)]

pub mod alike;
pub mod fitting;
pub mod rewriting;

pub use alike::{alike_is_free, alike_is_same, expressions_keep_classes};
pub use fitting::{classes_fit, conditions_read_mentions};
