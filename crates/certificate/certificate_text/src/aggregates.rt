//! Aggregates of a group, in rising order of their columns.

ghost use Rattle.std.specs.Prelude.{◌≡◌, List, map, MatchOption, IfOk, Some, None, ◌⊎◌};
ghost use Rattle.query.specs.declared.query.Aggregate.{Aggregate};
ghost use Rattle.algebra.specs.declared.expr.Aggregation.{Aggregation};
ghost use Rattle.certificate_text.specs.PartTexts.{IsNamed};
ghost use Rattle.certificate_text.specs.Numerals.{numeral};
ghost use Rattle.certificate_text.specs.Parts.{IsRead, Reads};
ghost use Rattle.certificate_text.specs.Spelled.{IsShortAggregate, IsShortAggregation, AreShortAggregations, SpellsAggregate, SpellsAggregation, SpellEachAggregation, SpellsAggregations};

use crate::column_lists::are_rising;
use crate::numbers::{number, parts_of};
use crate::part_fault::{PartFault, PartReason};
use algebra::{Aggregation, Aggregations};
use query::{Aggregate, ColumnId};
use std::alloc::{AllocError, Global};
use values::Items;

/// The aggregate of this name over a column.
fn named_aggregate(name: &str, column: ColumnId) -> Option<Aggregate>
    ensures { MatchOption result ((a : Aggregate) → IsNamed a name.now column → ⊥) (λ a. IsNamed a name.now column) }
{
    match name {
        "count" => Some(Aggregate::Count(column)),
        "sum" => Some(Aggregate::Sum(column)),
        "min" => Some(Aggregate::Min(column)),
        "max" => Some(Aggregate::Max(column)),
        _ => None,
    }
}

/// What an aggregate computes; `None` where its column is past 32 bits.
fn aggregate(word: &str) -> Result<Option<Aggregate>, PartReason>
    ensures { IsRead SpellsAggregate IsShortAggregate word.now result }
{
    let Some((name, column)) = word.split_once(':') else {
        if word == "count" {
            return Ok(Some(Aggregate::CountRows));
        }
        return Err(PartReason::OtherForm);
    };
    let read = number(column)?;
    let Some(aggregate) = named_aggregate(name, read.unwrap_or(0)) else {
        return Err(PartReason::OtherForm);
    };
    Ok(if read.is_some() {
        Some(aggregate)
    } else {
        None
    })
}

/// The aggregate over its column, if both are within 32 bits.
fn aggregation_of(column: Option<ColumnId>, aggregate: Option<Aggregate>) -> Option<Aggregation>
    ensures { MatchOption result ((column ≡ None) ⊎ (aggregate ≡ None)) (λ a. (column ≡ Some a.column) × (aggregate ≡ Some a.aggregate)) }
{
    match (column, aggregate) {
        (Some(column), Some(aggregate)) => Some(Aggregation { column, aggregate }),
        _ => None,
    }
}

/// An aggregate with the column that it adds; `None` where a number is past 32 bits.
fn aggregation(part: &str) -> Result<Option<Aggregation>, PartReason>
    ensures { IsRead SpellsAggregation IsShortAggregation part.now result }
{
    let Some((column, word)) = part.split_once('=') else {
        return Err(PartReason::OtherForm);
    };
    let read = number(column)?;
    Ok(aggregation_of(read, aggregate(word)?))
}

/// The column that is added, as it is spelled.
fn column_word(part: &str) -> &str
    ensures { (a : Aggregation) → SpellsAggregation part.now a → result.now ≡ numeral a.column }
{
    match part.split_once('=') {
        Some((column, _)) => column,
        None => part,
    }
}

/// The columns that are added, as they are spelled.
fn column_words<'a>(alloc: Global, parts: &[&'a str]) -> Result<Vec<&'a str>, AllocError>
    ensures { IfOk result (λ words. (G : List Aggregation) → SpellEachAggregation (map (λ part. part.now) parts.now) G → map (λ word. word.now) words.items ≡ map (λ a. numeral a.column) G) }
{
    let mut words = Vec::with_capacity(alloc, parts.len())?;
    for part in parts {
        words.push(column_word(part))?;
    }
    Ok(words)
}

/// The aggregates of the parts of a list, in any order.
fn each_aggregation(alloc: Global, parts: &[&str]) -> Result<Option<Items<Aggregation>>, PartFault>
    ensures { Reads SpellEachAggregation AreShortAggregations (map (λ part. part.now) parts.now) (λ a. a) result }
{
    let mut added = Items::new(alloc);
    let mut in_range = true;
    for part in parts {
        match aggregation(part)? {
            Some(aggregation) => added.push(aggregation)?,
            None => in_range = false,
        }
    }
    Ok(if in_range { Some(added) } else { None })
}

/// The aggregates of a list whose columns rise strictly; `None` where a number is past 32 bits.
pub fn aggregations(alloc: Global, list: &str) -> Result<Option<Aggregations>, PartFault>
    ensures { Reads SpellsAggregations AreShortAggregations list.now (λ a. a) result }
{
    if list == "-" {
        return Ok(Aggregations::from_rising(Items::new(alloc)));
    }
    let parts = parts_of(alloc, list)?;
    let read = each_aggregation(alloc, parts.as_slice())?;
    let words = column_words(alloc, parts.as_slice())?;
    if !are_rising(words.as_slice()) {
        return Err(PartReason::OtherForm.into());
    }
    let Some(added) = read else {
        return Ok(None);
    };
    match Aggregations::from_rising(added) {
        Some(added) => Ok(Some(added)),
        None => Err(PartReason::OtherForm.into()),
    }
}
