//! Tests of what a plan is made of and how it is shown: expressions, frames, orders, certificates as texts, and plans explained.
#![tactic(auto)]

#[cfg(test)]
mod explained;
#[cfg(test)]
mod expressions;
#[cfg(test)]
mod frames;
#[cfg(test)]
mod free_columns;
#[cfg(test)]
mod orders;
#[cfg(test)]
mod read_certificates;
#[cfg(test)]
mod read_parts;
