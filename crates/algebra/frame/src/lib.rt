//! The frame of a query: the expressions over classes that its derivations begin with.
#![tactic(auto)]

mod frames;
pub mod laws;
mod lines;
mod numbers;
mod scope;

pub use frames::frame_of;
pub use numbers::query_numbers;
