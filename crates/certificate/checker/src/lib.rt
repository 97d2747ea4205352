//! The check of certificates against their queries.
#![tactic(auto)]

pub mod checked;

pub use checked::{Checked, check};
