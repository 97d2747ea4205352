//! Rows at work: relations, whose rows are lent from tables by their numbers, and the truth of conditions at these.
#![tactic(auto)]

mod admitted;
mod building;
pub mod environment;
mod exchanged;
pub mod headings;
pub mod made_columns;
pub mod number_column;
pub mod pair_tests;
pub mod parts;
pub mod passing;
pub mod relation;
pub mod resolved;
pub mod row_columns;
pub mod rows;
pub mod subqueries;
mod terms;
pub mod truth;
pub mod value_lists;

pub use environment::{Env, row_cell, row_column};
pub use exchanged::turned;
pub use headings::{Heading, Place};
pub use made_columns::MadeColumn;
pub use number_column::NumberColumn;
pub use parts::Part;
pub use relation::Relation;
pub use row_columns::RowColumn;
pub use rows::Rows;
pub use subqueries::Subqueries;
pub use value_lists::ValueList;
