//! Schemas: tables, their columns, and the lists of columns that are unique or indexed.
#![tactic(auto)]

mod copies;
mod each;
mod entries;
pub mod fault;
mod limits;
mod names;
mod places;
mod reading;
pub mod schema;

pub use fault::{SchemaFault, SchemaRefusal};
pub use schema::{Column, Kind, Schema, Table};
