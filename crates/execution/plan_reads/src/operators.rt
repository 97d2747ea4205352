//! What each operator's rows read, given what those of its inputs do.

ghost use Rattle.std.specs.Prelude.{◌≡◌, ℕ, List, ◌++◌, flat_map, map, IfOk, OnOk, []};
ghost use Rattle.algebra.specs.Bags.{Bag, select, keep, group};
ghost use Rattle.algebra.specs.Columns.{has, rising};
ghost use Rattle.algebra.specs.Conditions.{holds};
ghost use Rattle.algebra.specs.Expressions.{aggregate_columns, aggregate_reads, mentioned, with_aggregates};
ghost use Rattle.physical.specs.Outputs.{Output, join_columns, join_rows, no_classes, subquery_rows};
ghost use Rattle.physical.specs.Sorts as sorts;
ghost use Rattle.plan_reads.specs.Readings.{AreReadings, IsReading, class_columns, class_free, matching_conditions};

use crate::conditions::{Subqueries, add_all_mentioned};
use crate::readings::Reading;
use algebra::{Aggregation, Columns, Condition};
use physical::{Matching, OrderKey};
use query::{Aggregate, ColumnId};
use std::alloc::{AllocError, Global};

/// The rows at which all conditions are true, over these classes.
pub(crate) fn filtered_over(
    alloc: Global,
    input: Reading,
    conditions: &[Condition],
    subqueries: Subqueries<'_>,
) -> Result<Reading, AllocError>
    ensures { (K : List ℕ) (x : Bag) (all : List Output) → IsReading K x input → AreReadings all subqueries.entry.readings.now → IfOk result (IsReading K (select (holds (subquery_rows subqueries.entry.classes.now all) conditions.now) x)) }
{
    let mut read = Vec::new(alloc);
    add_all_mentioned(conditions, subqueries, &mut read)?;
    input.also_reading(alloc, read.as_slice())
}

/// The rows at which all conditions are true, which have no subquery.
pub(crate) fn filtered(
    alloc: Global,
    input: Reading,
    conditions: &[Condition],
) -> Result<Reading, AllocError>
    ensures { (K : List ℕ) (x : Bag) → IsReading K x input → IfOk result (IsReading K (select (holds no_classes conditions.now) x)) }
{
    filtered_over(alloc, input, conditions, Subqueries::none())
}

/// The rows with these columns alone.
pub(crate) fn projected(
    alloc: Global,
    input: Reading,
    columns: &Columns,
) -> Result<Reading, AllocError>
    ensures { (K : List ℕ) (x : Bag) → IsReading K x input → IfOk result (IsReading columns.now (keep (has columns.now) x)) }
{
    let input = input.also_reading(alloc, columns.as_slice())?;
    Ok(Reading {
        columns: columns.copy(alloc)?,
        free: input.free,
    })
}

/// The rows by the keys.
pub(crate) fn sorted(
    alloc: Global,
    input: Reading,
    keys: &[OrderKey],
) -> Result<Reading, AllocError>
    ensures { (K : List ℕ) (x : Bag) → IsReading K x input → IfOk result (IsReading K (λ e. sorts.sorted (sorts.keys_order keys.now) (x e))) }
{
    let mut read = Vec::with_capacity(alloc, keys.len())?;
    for key in keys {
        read.push(key.column)?;
    }
    input.also_reading(alloc, read.as_slice())
}

fn add_aggregate(aggregate: Aggregate, read: &mut Vec<ColumnId>) -> Result<(), AllocError>
    ensures { OnOk result (read.new.items ≡ read.old.items ++ aggregate_reads aggregate) }
{
    match aggregate {
        Aggregate::CountRows => Ok(()),
        Aggregate::Count(column)
        | Aggregate::Sum(column)
        | Aggregate::Min(column)
        | Aggregate::Max(column) => {
            read.push(column)?;
            Ok(())
        }
    }
}

/// The columns that groups read: their keys and what they aggregate.
fn grouping_columns(
    alloc: Global,
    keys: &Columns,
    added: &[Aggregation],
) -> Result<Vec<ColumnId>, AllocError>
    ensures { IfOk result (λ read. read.items ≡ keys.now ++ flat_map (λ a. aggregate_reads a.aggregate) added.now) }
{
    let mut read = Vec::new(alloc);
    read.extend_from_slice(keys.as_slice())?;
    for aggregation in added {
        add_aggregate(aggregation.aggregate, &mut read)?;
    }
    Ok(read)
}

/// One row for each different key, with the aggregates of its rows.
pub(crate) fn grouped(
    alloc: Global,
    input: Reading,
    keys: &Columns,
    added: &[Aggregation],
) -> Result<Reading, AllocError>
    ensures { (K : List ℕ) (x : Bag) → IsReading K x input → IfOk result (IsReading (rising (keys.now ++ aggregate_columns added.now)) (group keys.now (with_aggregates added.now) x)) }
{
    let read = grouping_columns(alloc, keys, added)?;
    let input = input.also_reading(alloc, read.as_slice())?;
    Ok(Reading {
        columns: Columns::of_groups(alloc, keys, added)?,
        free: input.free,
    })
}

/// The columns that a join's conditions mention.
fn matching_columns(alloc: Global, matching: &Matching) -> Result<Vec<ColumnId>, AllocError>
    ensures { IfOk result (λ read. (k : ℕ) → has read.items k ≡ mentioned (class_columns [] []) (class_free [] []) (matching_conditions matching.now) k) }
{
    let mut read = Vec::new(alloc);
    match matching {
        Matching::Inner(conjuncts) | Matching::Left(conjuncts) | Matching::Semi(conjuncts) => {
            add_all_mentioned(conjuncts.as_slice(), Subqueries::none(), &mut read)?;
        }
        Matching::Anti(ordinary, null_aware) => {
            add_all_mentioned(ordinary.as_slice(), Subqueries::none(), &mut read)?;
            add_all_mentioned(null_aware.as_slice(), Subqueries::none(), &mut read)?;
        }
    }
    Ok(read)
}

/// The columns of a join's rows.
fn joined_columns(
    alloc: Global,
    matching: &Matching,
    left: &Columns,
    right: &Columns,
) -> Result<Columns, AllocError>
    ensures { IfOk result (λ columns. columns ≡ join_columns matching.now left.now right.now) }
{
    match matching {
        Matching::Inner(_) | Matching::Left(_) => left.union(alloc, right),
        Matching::Semi(_) | Matching::Anti(_, _) => left.copy(alloc),
    }
}

/// The pairs of a join, or the left rows that it keeps.
pub(crate) fn joined(
    alloc: Global,
    left: &Reading,
    right: &Reading,
    matching: &Matching,
) -> Result<Reading, AllocError>
    ensures { (K L : List ℕ) (a b : Bag) → IsReading K a left.now → IsReading L b right.now → IfOk result (IsReading (join_columns matching.now K L) (join_rows matching.now L a b)) }
{
    let read = matching_columns(alloc, matching)?;
    let pair = left.beside(alloc, right)?;
    let pairs = pair.also_reading(alloc, read.as_slice())?;
    Ok(Reading {
        columns: joined_columns(alloc, matching, &left.columns, &right.columns)?,
        free: pairs.free,
    })
}
