//! A log grows by rules, within a limit: by those that only make expressions simpler, and by each rule at each binding.
//!
//! Nothing is promised of which lines `simplify` adds: the log takes only lines that may stand, so its code is kept from panics and endless
//! loops alone.
#![tactic(auto)]

mod entering;
mod exploring;
mod keys;
mod learning;
mod needed_facts;
mod news;
mod promises;
mod queue;
mod simplifying;
mod takers;

pub use exploring::{apply_all, apply_and_learn, explore};
pub use promises::Products;
pub use simplifying::simplify;
