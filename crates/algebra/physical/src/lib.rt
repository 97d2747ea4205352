//! Plans of physical operators: what they produce, and in which order.
//!
//! What a plan produces is a list of rows in each environment (specs/Outputs), and the order that it delivers is one of columns
//! (specs/Orders).
#![tactic(auto)]

mod copies;
pub mod indexes;
pub mod laws;
pub mod node_orders;
pub mod order;
pub mod plan;

pub use order::delivers;
pub use plan::{GroupMethod, IndexAccess, JoinMethod, Matching, Node, Operator, OrderKey, Plan};
