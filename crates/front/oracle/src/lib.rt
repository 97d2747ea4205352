//! The slow evaluator of bound queries: the meaning's own loops as a program, with no index and no rewriting.
#![tactic(auto)]

mod aggregates;
mod answer;
mod blocks;
mod environment;
mod evaluate;
mod rows;

pub use answer::meaning;
pub use rows::Row;
