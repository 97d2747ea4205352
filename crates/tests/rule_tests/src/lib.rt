//! Tests of the rule book: `book`, what they read of `props` and `algebra`, and `logs` of lines that cite rules.
#![tactic(auto)]

#[cfg(test)]
mod answers;
#[cfg(test)]
mod applied;
#[cfg(test)]
mod bound;
#[cfg(test)]
mod classes;
#[cfg(test)]
mod facts;
#[cfg(test)]
mod logged;
#[cfg(test)]
mod numbers;
#[cfg(test)]
mod outcomes;
#[cfg(test)]
mod patterns;
#[cfg(test)]
mod promises;
#[cfg(test)]
mod shapes;
#[cfg(test)]
mod unlisted;
#[cfg(test)]
mod words;
