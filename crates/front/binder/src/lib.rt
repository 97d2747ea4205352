//! How the tree of a text becomes a bound query.
#![tactic(auto)]

mod extent;
pub mod fault;
mod having;
pub mod laws;
pub mod meaning;
mod named;
mod ordering;
mod output;
mod places;
mod scope;
mod selects;
mod statement;
mod sums;
mod tables;

pub use fault::{BindFault, BindReason, BindRefusal};
pub use laws::statements_are_bound;
pub use meaning::{names_are_resolved, statements_have_meaning};
pub use statement::bind;
