//! Filters and projections: of the rows of a relation, and of rows that a join makes a chunk at a time.
#![tactic(auto)]

mod filters;
mod projections;
mod row_chunks;
mod selecting;

pub use filters::filtered;
pub use projections::projected;
pub use row_chunks::RowChunks;
pub use selecting::{Selecting, selecting_of};
