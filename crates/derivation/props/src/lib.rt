//! Facts of classes: what holds of their rows in every database that satisfies the schema and in every environment.
#![tactic(auto)]

pub mod fact;
pub mod given;
pub mod keys;
pub mod known;
pub mod outcomes;
pub mod single;

pub use fact::{Fact, FactSets, Facts};
pub use keys::Keys;
pub use known::KnownClasses;
pub use outcomes::{NullColumns, Truths, never_true};
