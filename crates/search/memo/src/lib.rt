//! A log that is lean as it grows by rules, and whose lines are found by their expressions up to which classes are the same.
#![tactic(auto)]

mod congruent;
mod groups;
mod keys;
mod lines;
mod looking;
mod spelt;

pub use lines::Memo;
