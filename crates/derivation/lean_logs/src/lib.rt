//! Logs that grow by lines that say something new: the results of rules, and behind them what these are made of.
#![tactic(auto)]

mod expr_text;
mod founded;
mod given_results;
mod lean_log;
mod served;
mod unadded;

pub use founded::Spelt;
pub use lean_log::{LeanLog, Member};
pub use unadded::Unadded;
