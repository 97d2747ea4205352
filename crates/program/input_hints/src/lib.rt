//! What is said where a file, a row of a table, a schema, statistics or a certificate are refused: the place, what stands there, and what is wanted.
#![tactic(auto)]

mod certificate_places;
mod files;
mod foreign;
mod json;
mod rows;
mod schema_places;
mod statistics_places;

pub use certificate_places::{Numbered, certificate_there};
pub use files::{
    file_explanation, line_explanation, quote_there, row_there, size_explanation, table_there,
};
pub use json::json_fault;
pub use rows::{FoundRow, found_row, line_at};
pub use schema_places::schema_there;
pub use statistics_places::statistics_there;
