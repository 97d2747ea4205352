//! Tables loaded from CSV, and the database that they make up.
#![tactic(auto)]

mod cells;
mod chains;
mod columns;
mod cuts;
pub mod database;
mod ends;
pub mod fault;
mod field;
mod indexes;
pub mod input;
pub mod key;
pub mod numbers;
mod reading;
mod records;
pub mod row;
pub mod source;
pub mod table;
mod text_column;
pub mod texts;
mod unique;

pub use database::Database;
pub use fault::{FieldFault, TableCause, TableFault, TableRefusal};
pub use indexes::index_of;
pub use input::{CountedInput, DeviceFailed, TableInput};
pub use key::RowKey;
pub use numbers::Numbers;
pub use row::RowCells;
pub use source::RowSource;
pub use table::Table;
pub use text_column::TextColumn;
