//! Expressions of the relational algebra over classes.
//!
//! A class is named by a number, and means the rows of the expression that founds it. An expression is an operator over
//! classes. Columns are named by numbers too, each its own throughout a query, so a row and the environment around it
//! are one thing: what every column number reads as.
#![tactic(auto)]

pub mod aggregations;
pub mod columns;
pub mod condition;
pub mod condition_text;
mod conjunct_order;
mod conjunct_parts;
mod connectives;
pub mod equated;
pub mod expr;
pub mod formed;
mod mentions;
mod named_classes;
mod operator_columns;
mod rising;

pub use aggregations::Aggregations;
pub use columns::Columns;
pub use condition::{ClassId, Condition, Conjuncts, LineId, Term};
pub use conjunct_parts::add_copies;
pub use expr::{Aggregation, Expr};
pub use mentions::{ClassColumns, add_term};
