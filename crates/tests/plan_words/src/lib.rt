//! What tests of plans share: plans and lines in words and as texts, the tables that they are of, and worked queries.
#![tactic(auto)]

pub mod derived;
pub mod plans;
pub mod queries;
pub mod tables;
pub mod texts;
