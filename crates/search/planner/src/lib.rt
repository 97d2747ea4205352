//! Plans of queries: the cheapest one that the lines of a search offer, with labels that show it to be that and a certificate; and the canonical one, which follows its
//! query operator by operator.
#![tactic(auto)]

mod certificates;
mod certifying;
mod planned;
mod query_logs;
mod searching;

pub use certificates::canonical;
pub use planned::{Exploration, Planned, plan};
