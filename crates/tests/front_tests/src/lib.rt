//! Tests of what comes before a plan: `values`, `schema`, `statistics`, `sql_parse`, `binder`, `store` and `oracle`.
#![tactic(auto)]

#[cfg(test)]
mod answers;
#[cfg(test)]
mod cells;
#[cfg(test)]
mod copies;
#[cfg(test)]
mod counts;
#[cfg(test)]
mod files;
#[cfg(test)]
mod indexes;
#[cfg(test)]
mod names;
#[cfg(test)]
mod schemas;
#[cfg(test)]
mod statements;
#[cfg(test)]
mod trees;
