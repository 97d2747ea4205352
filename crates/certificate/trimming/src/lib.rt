//! Certificates that have a part of a log's lines: those that a plan needs.
#![tactic(auto)]

mod facts;
mod kept;
mod needed;
mod part;
mod picks;
mod plan_lines;
mod renumbered;
mod renumbered_plans;
mod sameness;
mod serving;

pub use part::trimmed;
pub use serving::serving_lines;
