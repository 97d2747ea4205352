//! The parts of a line: numbers, columns, conditions, aggregates and keys, each added behind what goes before it.

ghost use Rattle.std.specs.Prelude.{◌≡◌, ◌++◌, codes, decimal, flat_map, true, OnOk};
ghost use Rattle.std.specs.List.{AllByRecursion, join_by};
ghost use Rattle.algebra.specs.ConjunctOrder.{condition_text};
ghost use Rattle.certificate_text.specs.Parts.{IsShort, AreShort};
ghost use Rattle.certificate_text.specs.Spelled.{IsShortAggregate, IsShortAggregation};
ghost use Rattle.certificate_text.specs.CertificateText as spec;
ghost use Rattle.certificate_text.specs.Limits.{all_nest_within, most_nested};
ghost use Rattle.certificate_text.specs.Readable.{AreAggregations, AreColumns, AreConjuncts, AreShortKeys, IsShortKey};

use crate::kept::conditions_are_kept;
use algebra::condition_text::condition_text;
use algebra::{Aggregation, Aggregations, Columns, Condition, Conjuncts};
use itoa::Buffer;
use physical::OrderKey;
use query::Aggregate;
use std::alloc::{AllocError, Global};

pub(crate) fn push_text(text: &mut Vec<u8>, part: &str) -> Result<(), AllocError>
    ensures { OnOk result (text.new.items ≡ text.old.items ++ part.now) }
{
    text.extend_from_slice(part.as_bytes())
}

pub(crate) fn push_number(text: &mut Vec<u8>, before: &str, number: u32) -> Result<(), AllocError>
    ensures text { OnOk result (text.new.items ≡ text.old.items ++ (before.now ++ decimal number)) }
    ensures short { IsShort number }
{
    push_text(text, before)?;
    push_text(text, Buffer::new().format(number))
}

pub(crate) fn push_count(text: &mut Vec<u8>, before: &str, count: usize) -> Result<(), AllocError>
    ensures { OnOk result (text.new.items ≡ text.old.items ++ (before.now ++ decimal count)) }
{
    push_text(text, before)?;
    push_text(text, Buffer::new().format(count))
}

fn push_more_numbers(text: &mut Vec<u8>, more: &[u32]) -> Result<(), AllocError>
    ensures { OnOk result (text.new.items ≡ text.old.items ++ flat_map (λ n. codes "," ++ decimal n) more.now) }
{
    for number in more {
        push_number(text, ",", *number)?;
    }
    Ok(())
}

pub(crate) fn push_numbers(
    text: &mut Vec<u8>,
    before: &str,
    numbers: &[u32],
) -> Result<(), AllocError>
    ensures text { OnOk result (text.new.items ≡ text.old.items ++ (before.now ++ spec.numbers_text numbers.now)) }
    ensures short { AreShort numbers.now }
{
    push_text(text, before)?;
    match numbers {
        [] => push_text(text, "-"),
        [first, more @ ..] => {
            push_number(text, "", *first)?;
            push_more_numbers(text, more)
        }
    }
}

pub(crate) fn push_columns(
    text: &mut Vec<u8>,
    before: &str,
    columns: &Columns,
) -> Result<(), AllocError>
    ensures text { OnOk result (text.new.items ≡ text.old.items ++ (before.now ++ spec.numbers_text columns.now)) }
    ensures readable { AreColumns columns.now }
{
    push_numbers(text, before, columns.as_slice())
}

fn push_condition(
    alloc: Global,
    text: &mut Vec<u8>,
    before: &str,
    condition: &Condition,
) -> Result<(), AllocError>
    ensures { OnOk result (text.new.items ≡ text.old.items ++ (before.now ++ condition_text condition.now)) }
{
    push_text(text, before)?;
    push_text(text, condition_text(alloc, condition)?.as_str())
}

fn push_more_conditions(
    alloc: Global,
    text: &mut Vec<u8>,
    more: &[Condition],
) -> Result<(), AllocError>
    ensures { OnOk result (text.new.items ≡ text.old.items ++ flat_map (λ c. codes ";" ++ condition_text c) more.now) }
{
    for condition in more {
        push_condition(alloc, text, ";", condition)?;
    }
    Ok(())
}

/// Adds conditions with semicolons between them.
fn push_conditions(
    alloc: Global,
    text: &mut Vec<u8>,
    conditions: &[Condition],
) -> Result<(), AllocError>
    ensures { OnOk result (text.new.items ≡ text.old.items ++ join_by condition_text (codes ";") conditions.now) }
{
    match conditions {
        [] => Ok(()),
        [first, more @ ..] => {
            push_condition(alloc, text, "", first)?;
            push_more_conditions(alloc, text, more)
        }
    }
}

/// Adds conjuncts in brackets.
#[tactic(auto, using(crate::proofs::KeptTerms::conjuncts_readable))]
pub(crate) fn push_conjuncts(
    alloc: Global,
    text: &mut Vec<u8>,
    before: &str,
    conjuncts: &Conjuncts,
) -> Result<(), AllocError>
    ensures text { OnOk result (text.new.items ≡ text.old.items ++ (before.now ++ spec.conjuncts_text conjuncts.now)) }
    ensures readable { all_nest_within conjuncts.now most_nested ≡ true → AreConjuncts conjuncts.now }
{
    let conditions = conjuncts.as_slice();
    conditions_are_kept(conditions);
    push_text(text, before)?;
    push_text(text, "[")?;
    push_conditions(alloc, text, conditions)?;
    push_text(text, "]")
}

fn push_aggregate(text: &mut Vec<u8>, aggregate: Aggregate) -> Result<(), AllocError>
    ensures text { OnOk result (text.new.items ≡ text.old.items ++ spec.aggregate_text aggregate) }
    ensures short { IsShortAggregate aggregate }
{
    match aggregate {
        Aggregate::CountRows => push_text(text, "count"),
        Aggregate::Count(column) => push_number(text, "count:", column),
        Aggregate::Sum(column) => push_number(text, "sum:", column),
        Aggregate::Min(column) => push_number(text, "min:", column),
        Aggregate::Max(column) => push_number(text, "max:", column),
    }
}

fn push_aggregation(text: &mut Vec<u8>, before: &str, added: Aggregation) -> Result<(), AllocError>
    ensures text { OnOk result (text.new.items ≡ text.old.items ++ (before.now ++ spec.aggregation_text added)) }
    ensures short { OnOk result (IsShortAggregation added) }
{
    push_number(text, before, added.column)?;
    push_text(text, "=")?;
    push_aggregate(text, added.aggregate)
}

fn push_more_aggregations(text: &mut Vec<u8>, more: &[Aggregation]) -> Result<(), AllocError>
    ensures text { OnOk result (text.new.items ≡ text.old.items ++ flat_map (λ a. codes "," ++ spec.aggregation_text a) more.now) }
    ensures short { OnOk result (AllByRecursion IsShortAggregation more.now) }
{
    for added in more {
        push_aggregation(text, ",", *added)?;
    }
    Ok(())
}

pub(crate) fn push_aggregations(
    text: &mut Vec<u8>,
    before: &str,
    added: &Aggregations,
) -> Result<(), AllocError>
    ensures text { OnOk result (text.new.items ≡ text.old.items ++ (before.now ++ spec.aggregations_text added.now)) }
    ensures readable { OnOk result (AreAggregations added.now) }
{
    push_text(text, before)?;
    match added.as_slice() {
        [] => push_text(text, "-"),
        [first, more @ ..] => {
            push_aggregation(text, "", *first)?;
            push_more_aggregations(text, more)
        }
    }
}

fn push_key(text: &mut Vec<u8>, before: &str, key: OrderKey) -> Result<(), AllocError>
    ensures text { OnOk result (text.new.items ≡ text.old.items ++ (before.now ++ spec.key_text key)) }
    ensures short { OnOk result (IsShortKey key) }
{
    push_number(text, before, key.column)?;
    push_text(text, if key.descending { "d" } else { "a" })
}

fn push_more_keys(text: &mut Vec<u8>, more: &[OrderKey]) -> Result<(), AllocError>
    ensures text { OnOk result (text.new.items ≡ text.old.items ++ flat_map (λ k. codes "," ++ spec.key_text k) more.now) }
    ensures short { OnOk result (AreShortKeys more.now) }
{
    for key in more {
        push_key(text, ",", *key)?;
    }
    Ok(())
}

pub(crate) fn push_keys(
    text: &mut Vec<u8>,
    before: &str,
    keys: &[OrderKey],
) -> Result<(), AllocError>
    ensures text { OnOk result (text.new.items ≡ text.old.items ++ (before.now ++ spec.keys_text keys.now)) }
    ensures short { OnOk result (AreShortKeys keys.now) }
{
    push_text(text, before)?;
    match keys {
        [] => push_text(text, "-"),
        [first, more @ ..] => {
            push_key(text, "", *first)?;
            push_more_keys(text, more)
        }
    }
}
