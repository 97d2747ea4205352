//! Whether a log is closed: whether each rule's result at each of its lines stands there already; and what it lacks, if it isn't.
#![tactic(auto)]

mod closing;
mod lacks;
mod learning;
mod numbers;
mod pairs;
mod picks;
mod standing;

pub use closing::{is_closed, missing};
pub use lacks::Missing;
pub use learning::lacking_fact;
