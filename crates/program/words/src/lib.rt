//! What the program says to people: how it spells paths and arguments, what its codes mean, and where in a text they are reported.
#![tactic(auto)]

pub mod certificates;
mod codes;
pub mod explanations;
pub mod meanings;
pub mod places;
pub mod spelling;

pub use codes::list_of_codes;
pub use explanations::{explanation, explanation_at};
pub use meanings::Meaning;
pub use places::{Place, place_of};
pub use spelling::{quoted, quoted_front, readable, spelled};
