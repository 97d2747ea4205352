//! Tests of the search: canonical plans, logs that are explored, and logs that are trimmed.
#![tactic(auto)]

#[cfg(test)]
mod canonical;
#[cfg(test)]
mod label_table;
#[cfg(test)]
mod memos;
#[cfg(test)]
mod trimmed_logs;
