//! Rules that no book lists: each takes lines of a pattern that no rule of the book has, and has all laws of a rule.
#![tactic(auto)]

pub mod input_exists;
pub mod right_select_of_none;
pub mod right_selects_merge;
