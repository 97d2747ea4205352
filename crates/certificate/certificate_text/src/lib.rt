//! Certificates as text: what the text is, writing it, and reading the parts of its lines.
#![tactic(auto)]

pub mod aggregates;
pub mod column_lists;
mod conditions;
pub mod conjunct_lists;
pub mod decimal_law;
pub mod fault;
mod kept;
mod limits;
mod line_text;
mod node_text;
pub mod numbers;
pub mod part_fault;
mod parts;
mod terms;
pub mod text_law;
pub mod worked;
pub mod writing;

pub use fault::{TextFault, TextReason, TextRefusal};
pub use limits::{MOST_DEEP, MOST_LINES, MOST_NESTED, MOST_NODES};
pub use writing::write;
