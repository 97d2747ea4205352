//! Plans at work: the operators over rows that are lent from tables.
#![tactic(auto)]

mod existence;
mod index_scans;
mod listed;
mod plan_lists;
mod plan_parts;
mod right_sides;
mod running;
mod scans;
mod shown;
mod sorting;
mod sources;
mod subqueries;

pub use plan_lists::{plan_found, plan_rows};
pub use running::{chunked_rows, run_plan};
pub use shown::{FoundRows, Row, owned_rows};
pub use sources::{IndexedTables, Sources};
