//! Which share of rows makes a condition true, in millionths.

ghost use Rattle.std.specs.Prelude.{◌≡◌, ◌≤◌, ◌<◌, fold, map, option_map, Some, OnSome};
ghost use Rattle.costs.specs.Selectivity as spec;

use crate::numbers::{ALL, per_million};
use crate::tables::{column_keys_of, index_over, keys_of, owner};
use algebra::{Condition, Term};
use query::{ColumnId, TableInstance};
use statistics::Statistics;
use values::Comparison;

/// The different keys of a column of the table instance: those of the first index of its table over the column alone, or else its own, where they are known.
fn instance_keys(statistics: &Statistics, instance: &TableInstance, column: ColumnId) -> Option<u64>
    ensures { result ≡ spec.instance_keys statistics.now instance.now column }
{
    let place = column.saturating_sub(instance.first_column) as usize;
    match index_over(instance, place) {
        Some(index) => Some(keys_of(statistics, instance, index)),
        None => column_keys_of(statistics, instance, place),
    }
}

/// The different keys of a column, where they are known.
fn column_keys(
    statistics: &Statistics,
    instances: &[TableInstance],
    column: ColumnId,
) -> Option<u64>
    ensures { result ≡ spec.column_keys statistics.now instances.now column }
{
    match owner(instances, column) {
        Some(instance) => instance_keys(statistics, instance, column),
        None => None,
    }
}

fn term_keys(statistics: &Statistics, instances: &[TableInstance], term: &Term) -> Option<u64>
    ensures { result ≡ spec.term_keys statistics.now instances.now term.now }
{
    match term {
        Term::Column(column) => column_keys(statistics, instances, *column),
        Term::Literal(_) => None,
    }
}

/// The greater of two numbers, or the one that there is.
fn greater(first: Option<u64>, second: Option<u64>) -> Option<u64>
    ensures { result ≡ spec.greater first second }
{
    match (first, second) {
        (Some(first), Some(second)) => Some(first.max(second)),
        (Some(first), None) => Some(first),
        (None, second) => second,
    }
}

/// The share of one key of so many, which are at least 1.
pub fn share_of_key(keys: Option<u64>) -> u64
    ensures share { result ≡ spec.share_of_key keys }
    ensures most { result ≤ 1000000 }
{
    match keys {
        Some(keys) => ALL.div_ceil(keys.max(1)),
        None => 100_000,
    }
}

/// All but a share.
fn others(share: u64) -> u64
    ensures share { result ≡ spec.others share }
    ensures most { result ≤ 1000000 }
{
    ALL.saturating_sub(share)
}

/// The share of a comparison, where the equality of its terms has this share.
fn compared(comparison: Comparison, share: u64) -> u64
    requires { share ≤ 1000000 }
    ensures share { result ≡ spec.compared comparison share }
    ensures most { result ≤ 1000000 }
{
    match comparison {
        Comparison::Equal => share,
        Comparison::NotEqual => others(share),
        Comparison::Less
        | Comparison::LessOrEqual
        | Comparison::Greater
        | Comparison::GreaterOrEqual => 333_334,
    }
}

/// One of two.
#[tactic(auto, using(crate::proofs::Shares::either_le), unfolding(crate::specs::Selectivity::either))]
fn either(first: u64, second: u64) -> u64
    requires first { first ≤ 1000000 }
    requires second { second ≤ 1000000 }
    ensures share { result ≡ spec.either first second }
    ensures most { result ≤ 1000000 }
{
    first + second - first * second / ALL
}

/// The share of the rows that make a condition true, in millionths.
#[cycle(selectivities)]
pub fn selectivity(
    statistics: &Statistics,
    instances: &[TableInstance],
    condition: &Condition,
) -> u64
    ensures share { result ≡ spec.selectivity statistics.now instances.now condition.now }
    ensures most { result ≤ 1000000 }
{
    match condition {
        Condition::Compare(comparison, a, b) => {
            let first = term_keys(statistics, instances, a);
            let second = term_keys(statistics, instances, b);
            compared(*comparison, share_of_key(greater(first, second)))
        }
        Condition::IsNull(_) => 100_000,
        Condition::Not(part) => others(selectivity(statistics, instances, part.get())),
        Condition::And(a, b, more) => {
            let first = selectivity(statistics, instances, a.get());
            let second = selectivity(statistics, instances, b.get());
            let both = per_million(per_million(ALL, first), second);
            all_of(statistics, instances, both, more.as_slice())
        }
        Condition::Or(a, b, more) => {
            let first = selectivity(statistics, instances, a.get());
            let second = selectivity(statistics, instances, b.get());
            let one = either(either(0, first), second);
            any_of(statistics, instances, one, more.as_slice())
        }
        Condition::Exists(_) => 500_000,
        Condition::In(_, _, _) => 500_000,
    }
}

/// The share of those of a share that make all of the conditions true.
#[cycle(selectivities)]
fn all_of(
    statistics: &Statistics,
    instances: &[TableInstance],
    share: u64,
    conditions: &[Condition],
) -> u64
    requires { share ≤ 1000000 }
    ensures share { result ≡ fold spec.both share (map (spec.selectivity statistics.now instances.now) conditions.now) }
    ensures most { result ≤ 1000000 }
{
    let mut all = share;
    for condition in conditions {
        all = per_million(all, selectivity(statistics, instances, condition));
    }
    all
}

/// The share of those of a share, and of those that make one of the conditions true.
#[cycle(selectivities)]
fn any_of(
    statistics: &Statistics,
    instances: &[TableInstance],
    share: u64,
    conditions: &[Condition],
) -> u64
    requires { share ≤ 1000000 }
    ensures share { result ≡ fold spec.either share (map (spec.selectivity statistics.now instances.now) conditions.now) }
    ensures most { result ≤ 1000000 }
{
    let mut any = share;
    for condition in conditions {
        any = either(any, selectivity(statistics, instances, condition));
    }
    any
}

/// The share of those of a share that make the condition true.
pub fn also(
    statistics: &Statistics,
    instances: &[TableInstance],
    share: u64,
    condition: &Condition,
) -> u64
    requires { share ≤ 1000000 }
    ensures share { result ≡ spec.both share (spec.selectivity statistics.now instances.now condition.now) }
    ensures most { result ≤ 1000000 }
{
    per_million(share, selectivity(statistics, instances, condition))
}

/// The share of the rows that make all of the conditions true.
pub fn list_selectivity(
    statistics: &Statistics,
    instances: &[TableInstance],
    conditions: &[Condition],
) -> u64
    ensures share { result ≡ spec.list_selectivity statistics.now instances.now conditions.now }
    ensures most { result ≤ 1000000 }
{
    all_of(statistics, instances, ALL, conditions)
}
