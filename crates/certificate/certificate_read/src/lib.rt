//! Reading certificates from their text.
#![tactic(auto)]

mod derivation_lines;
mod forms;
mod front;
pub mod line_fault;
mod node_forms;
mod nodes;
mod one_fault;
pub mod reading;
pub mod sort_keys;
pub mod text_lines;
pub mod words;

pub use front::{Front, read_front};
pub use one_fault::first_fault_is_one;
pub use reading::read;
