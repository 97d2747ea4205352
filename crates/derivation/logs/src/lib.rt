//! Logs: whether the lines of a derivation may stand one behind the other, and what is known by them.
#![tactic(auto)]

mod additions;
mod alike;
mod class_lines;
mod free;
mod judge;
mod known;
pub mod log;
mod lookups;
mod sets;
mod spelling;

pub use alike::are_alike;
pub use judge::LineFault;
pub use log::Log;
