//! Queries with what checking, planning and explaining them begin with.
#![tactic(auto)]

mod prepared;

pub use prepared::PreparedQuery;
