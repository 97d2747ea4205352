//! Certificates: lines of a derivation and a plan, when they replay, whether a plan fits a log, and that a plan whose certificate replays
//! answers its query.
#![tactic(auto)]

pub mod certificate;
pub mod index_fit;
pub mod join_fit;
pub mod judging;
pub mod needed;
pub mod order_by;
pub mod order_fit;
pub mod plan_fit;
pub mod soundness;

pub use certificate::{Certificate, CheckFault, CheckReason, CheckRefusal};
pub use order_by::query_order;
pub use plan_fit::fit;
