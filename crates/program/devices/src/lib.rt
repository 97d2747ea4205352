//! What the program's standard streams may still take, and files that are read within bounds.
#![tactic(auto)]

mod limits;
pub mod reading;
pub mod room;
pub mod standard;
#[cfg(test)]
mod tests;
mod writing;

pub use reading::{BoundedReader, Bounds, FILE_BOUNDS, ReadFailure, TABLE_BOUNDS, read_file};
pub use room::{Room, write_within};
pub use standard::StandardStream;
pub use writing::write_file;
