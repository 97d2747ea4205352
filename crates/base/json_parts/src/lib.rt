//! Parts of JSON that are wanted there, or the refusal that they aren't.
#![tactic(auto)]

pub mod parts;

pub use parts::{has_keys, items_of, json_of, member_of};
