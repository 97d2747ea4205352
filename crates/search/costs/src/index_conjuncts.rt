//! Conjuncts by which an index is read.

ghost use Rattle.std.specs.Prelude.{◌≡◌, ◌+◌, ◌≤◌, filter};
ghost use Rattle.physical.specs.Indexes.{is_column, is_outside};
ghost use Rattle.costs.specs.Costs as spec;
ghost use Rattle.costs.specs.Selectivity.{list_selectivity};
ghost use Rattle.costs.specs.Tables.{owns};

use crate::condition_shares::also;
use crate::numbers::ALL;
use crate::tables::owns;
use algebra::{Condition, Term};
use query::TableInstance;
use statistics::Statistics;
use values::Comparison;

/// Whether the term is the column at a place of the table instance.
fn is_at(instance: &TableInstance, place: usize, term: &Term) -> bool
    ensures { result ≡ is_column (instance.now.first_column + place) term.now }
{
    match term {
        Term::Column(column) => *column >= instance.first_column
            && (*column - instance.first_column) as usize == place,
        Term::Literal(_) => false,
    }
}

/// Whether the term is no column of the table instance.
fn is_outside(instance: &TableInstance, term: &Term) -> bool
    ensures { result ≡ is_outside (owns instance.now) term.now }
{
    match term {
        Term::Column(column) => !owns(instance, *column),
        Term::Literal(_) => true,
    }
}

/// Whether one of two terms is the column at the place, and the other no column of the table instance.
fn faces(instance: &TableInstance, place: usize, a: &Term, b: &Term) -> bool
    ensures { result ≡ spec.faces (owns instance.now) (instance.now.first_column + place) a.now b.now }
{
    if is_at(instance, place, a) {
        is_outside(instance, b)
    } else {
        is_at(instance, place, b) && is_outside(instance, a)
    }
}

/// By what a condition compares the column at the place with a term that is no column of the table instance.
fn comparison_at(
    instance: &TableInstance,
    place: usize,
    condition: &Condition,
) -> Option<Comparison>
    ensures { result ≡ spec.comparison_at instance.now place condition.now }
{
    match condition {
        Condition::Compare(comparison, a, b) => if faces(instance, place, a, b) {
            Some(*comparison)
        } else {
            None
        },
        Condition::IsNull(_) => None,
        Condition::Not(_) => None,
        Condition::And(_, _, _) => None,
        Condition::Or(_, _, _) => None,
        Condition::Exists(_) => None,
        Condition::In(_, _, _) => None,
    }
}

fn is_equality(comparison: Option<Comparison>) -> bool
    ensures { result ≡ spec.is_equality comparison }
{
    match comparison {
        Some(Comparison::Equal) => true,
        Some(
            Comparison::NotEqual
            | Comparison::Less
            | Comparison::LessOrEqual
            | Comparison::Greater
            | Comparison::GreaterOrEqual,
        ) => false,
        None => false,
    }
}

/// Whether what the index finds by the comparison is one run of its keys.
fn is_run(comparison: Option<Comparison>) -> bool
    ensures { result ≡ spec.is_run comparison }
{
    match comparison {
        Some(
            Comparison::Equal
            | Comparison::Less
            | Comparison::LessOrEqual
            | Comparison::Greater
            | Comparison::GreaterOrEqual,
        ) => true,
        Some(Comparison::NotEqual) => false,
        None => false,
    }
}

/// Whether some condition equates the column at the place.
fn is_equated(instance: &TableInstance, conditions: &[Condition], place: usize) -> bool
    ensures { result ≡ spec.is_equated instance.now conditions.now place }
{
    conditions.iter().any(|condition| is_equality(comparison_at(instance, place, condition)))
}

/// Whether each of the places is equated.
pub fn are_equated(instance: &TableInstance, conditions: &[Condition], places: &[usize]) -> bool
    ensures { result ≡ spec.are_equated instance.now conditions.now places.now }
{
    places
        .iter()
        .all(|place| is_equated(instance, conditions, *place))
}

/// The share of the rows that make the conditions true that bound the place.
fn place_selectivity(
    statistics: &Statistics,
    instances: &[TableInstance],
    instance: &TableInstance,
    conditions: &[Condition],
    place: usize,
) -> u64
    ensures share { result ≡ list_selectivity statistics.now instances.now (filter (λ d. spec.is_run (spec.comparison_at instance.now place d)) conditions.now) }
    ensures most { result ≤ 1000000 }
{
    let mut share = ALL;
    for condition in conditions {
        if is_run(comparison_at(instance, place, condition)) {
            share = also(statistics, instances, share, condition);
        }
    }
    share
}

/// The share of the rows that make the conditions true that bound the first of the places.
pub fn bounds_selectivity(
    statistics: &Statistics,
    instances: &[TableInstance],
    instance: &TableInstance,
    conditions: &[Condition],
    places: &[usize],
) -> u64
    ensures share { result ≡ list_selectivity statistics.now instances.now (spec.bounds instance.now conditions.now places.now) }
    ensures most { result ≤ 1000000 }
{
    match places {
        [first, ..] => place_selectivity(statistics, instances, instance, conditions, *first),
        [] => ALL,
    }
}
