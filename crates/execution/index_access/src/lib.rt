//! Rows of a relation that are found by an index, in its order.
#![tactic(auto)]

mod bounds;
mod cuts;
mod lookup;
mod ranges;

pub use cuts::Cut;
pub use lookup::{equal_rows, found_by_index, index_numbers};
