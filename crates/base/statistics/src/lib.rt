//! Statistics of tables: how many rows and pages each has, and how many different keys each of its indexes.
#![tactic(auto)]

mod column_keys;
mod counting;
pub mod counts;
mod digits;
mod entries;
pub mod fault;
mod number_keys;
mod reading;
mod unique_columns;
mod unique_lists;

pub use counts::{IndexStatistics, Statistics, TableColumn, TableStatistics};
pub use fault::{StatisticsFault, StatisticsRefusal};
