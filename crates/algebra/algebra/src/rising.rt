//! Conjuncts and aggregates made of lists that are in order already, as the text of a certificate has them.

ghost use Rattle.std.specs.Prelude.{◌≡◌, ◌↔◌, IsTrue, IfOk, MatchOption};
ghost use Rattle.std.specs.List.{AllByRecursion};
ghost use Rattle.std.specs.Ordering.{nat_cmp, is_lt};
ghost use Rattle.std.specs.Cmp.Lexicographic.{slice_cmp};
ghost use Rattle.algebra.specs.AggregateOrder.{AreByColumn};
ghost use Rattle.algebra.specs.ConjunctOrder as spec;

use crate::aggregations::Aggregations;
use crate::condition::{Condition, Conjuncts};
use crate::condition_text::condition_text;
use crate::expr::Aggregation;
use std::alloc::{AllocError, Global};
use values::Items;

/// Whether a condition is no AND.
fn is_part(condition: &Condition) -> bool
    ensures { IsTrue result ↔ spec.IsPart condition.now }
{
    match condition {
        Condition::And(_, _, _) => false,
        _ => true,
    }
}

fn are_parts(conditions: &[Condition]) -> bool
    ensures { IsTrue result ↔ AllByRecursion spec.IsPart conditions.now }
{
    for condition in conditions {
        if !is_part(condition) {
            return false;
        }
    }
    true
}

/// Whether the first of two texts is below the second, in the order of bytes.
fn is_below(first: &str, second: &str) -> bool
    ensures { result ≡ is_lt (slice_cmp nat_cmp first.now second.now) }
{
    first < second
}

/// Whether the text of each condition is below that of the next.
fn texts_rise(alloc: Global, conditions: &[Condition]) -> Result<bool, AllocError>
    ensures { IfOk result (λ rise. IsTrue rise ↔ spec.TextsRise conditions.now) }
{
    if conditions.is_empty() {
        return Ok(true);
    }
    let mut last = condition_text(alloc, &conditions[0])?;
    for place in 1..conditions.len() {
        let text = condition_text(alloc, &conditions[place])?;
        if !is_below(last.as_str(), text.as_str()) {
            return Ok(false);
        }
        last = text;
    }
    Ok(true)
}

fn columns_rise(added: &[Aggregation]) -> bool
    ensures { IsTrue result ↔ AreByColumn added.now }
{
    for place in 1..added.len() {
        if added[place - 1].column >= added[place].column {
            return false;
        }
    }
    true
}

impl Conjuncts {
    /// The conjuncts of a list whose texts rise strictly and of which none is an AND; `None` of another list.
    pub fn from_rising(
        alloc: Global,
        conditions: Items<Condition>,
    ) -> Result<Option<Conjuncts>, AllocError>
        ensures { IfOk result (λ found. MatchOption found (spec.AreRising conditions → ⊥) (λ c. (c ≡ conditions) × spec.AreRising conditions)) }
    {
        if !are_parts(conditions.as_slice()) || !texts_rise(alloc, conditions.as_slice())? {
            return Ok(None);
        }
        Ok(Some(Conjuncts::from_items(conditions)))
    }
}

impl Aggregations {
    /// The aggregates of a list whose columns rise strictly; `None` of another list.
    pub fn from_rising(added: Items<Aggregation>) -> Option<Aggregations>
        ensures { MatchOption result (AreByColumn added → ⊥) (λ a. (a ≡ added) × AreByColumn added) }
    {
        if !columns_rise(added.as_slice()) {
            return None;
        }
        Some(Aggregations::from_items(added))
    }
}
