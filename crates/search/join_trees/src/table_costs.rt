//! What tables cost before any line is added, by the formulas of the crate `costs`. That a table is read by an index over one column is this crate's own estimate.

use crate::selectivities::part_of;
use algebra::{Condition, Term};
use costs::{
    Estimate, Inputs, index_over, instance_probe_cost, instance_scan_cost, owner, rows_of,
};
use query::{ColumnId, TableInstance};
use statistics::Statistics;
use std::slice;
use values::Comparison;

/// Both sides of a join, as `costs` takes them.
pub fn join_inputs(first: Estimate, second: Estimate) -> Inputs {
    Inputs {
        first,
        second,
        later: 0,
    }
}

/// The number of the table's first index over the column alone.
fn index_of(instance: &TableInstance, column: ColumnId) -> Option<u32> {
    let place = column.saturating_sub(instance.first_column) as usize;
    match u32::try_from(index_over(instance, place)?) {
        Ok(index) => Some(index),
        Err(_) => None,
    }
}

/// The column that a condition compares with a literal.
fn bounded_column(condition: &Condition) -> Option<(Comparison, ColumnId)> {
    match condition {
        Condition::Compare(comparison, Term::Column(column), Term::Literal(_)) => Some((
            *comparison,
            *column,
        )),
        Condition::Compare(comparison, Term::Literal(_), Term::Column(column)) => Some((
            *comparison,
            *column,
        )),
        _ => None,
    }
}

/// The cost of reading the rows of the table instance that pass a condition of this selectivity by an index over one column, if there is one.
pub fn index_filter_cost(
    statistics: &Statistics,
    instances: &[TableInstance],
    instance: &TableInstance,
    condition: &Condition,
    selectivity: u64,
) -> Option<u64> {
    let (comparison, column) = bounded_column(condition)?;
    if comparison == Comparison::NotEqual {
        return None;
    }
    let index = index_of(instance, column)?;
    let rows = part_of(rows_of(statistics, instance), selectivity);
    Some(instance_scan_cost(
        statistics,
        instances,
        instance,
        index,
        slice::from_ref(condition),
        rows,
    ))
}

/// The cost of finding the rows with one value of the column by an index over it alone, if there is one.
pub fn index_probe_cost(
    statistics: &Statistics,
    instances: &[TableInstance],
    column: ColumnId,
) -> Option<u64> {
    let instance = owner(instances, column)?;
    let index = index_of(instance, column)?;
    Some(instance_probe_cost(statistics, instance, index))
}
