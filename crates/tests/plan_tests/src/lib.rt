//! Tests of plans at work, and of the whole way: `checker`, `pipeline` and `planner`.
#![tactic(auto)]

#[cfg(test)]
mod answers;
#[cfg(test)]
mod certificates;
#[cfg(test)]
mod chosen;
#[cfg(test)]
mod commands;
#[cfg(test)]
mod files;
#[cfg(test)]
mod handed_certificates;
#[cfg(test)]
mod labelled;
#[cfg(test)]
mod measured;
