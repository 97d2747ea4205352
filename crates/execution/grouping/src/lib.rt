//! Groups and distinct rows, of relations and of rows that come a chunk at a time.
#![tactic(auto)]

mod aggregates;
mod chains;
mod chunked;
mod group_hashes;
mod group_table;
mod groups;
mod hashed_groups;
mod key_table;
mod keys;
mod row_groups;
mod row_numbers;
mod runs;
mod totals;

pub use chunked::{distinct_in_chunks, grouped_in_chunks};
pub use groups::{distinct, grouped};
