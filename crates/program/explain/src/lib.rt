//! Plans as text for people: what each node does, by the names of the query, with the rows and the cost that are estimated of it.
#![tactic(auto)]

mod condition_text;
pub mod dot_text;
mod json_text;
pub mod log_plans;
mod names;
mod naming;
mod node_text;
mod parts;
pub mod plan_text;
pub mod worked;

pub use dot_text::dot;
pub use log_plans::{dot_plan, explain_plan, json_plan};
pub use naming::Naming;
pub use plan_text::{explain, json};
