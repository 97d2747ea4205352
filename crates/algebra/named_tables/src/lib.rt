//! Which tables a query names, and that no others count for its answer.
#![tactic(auto)]

pub mod laws;
pub mod names;

pub use laws::others_do_not_count;
pub use names::is_named;
