//! What is measured of a plan's nodes: how many rows each hands over, and how long that takes.
#![tactic(auto)]

mod counting;
mod measured;
mod stopwatch;

pub use measured::{Measure, measures};
pub use stopwatch::Stopwatch;
