//! Bound queries, what they mean, and what an answer is.
#![tactic(auto)]

pub mod aggregates;
mod bound_query;
pub mod ids;
pub mod laws;
pub mod query;

pub use bound_query::BoundQuery;
pub use laws::{
    answers_are_by_laws, laws_determine_meaning, meaning_obeys_laws, satisfying_databases_fit,
    worked_rows_hold,
};
pub use query::{
    Aggregate, Block, Column, ColumnId, Cond, From, InstanceId, Item, Query, SortKey,
    TableInstance, TableReference, Term,
};
