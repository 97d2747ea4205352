//! Statistics of tables as JSON, and the columns whose keys may be counted.
#![tactic(auto)]

mod columns;
mod entries;
mod laws;
mod writing;

pub use columns::every_column;
pub use laws::counts_fit;
pub use writing::write;
