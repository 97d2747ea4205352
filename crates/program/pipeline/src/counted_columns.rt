//! Which columns' keys are counted for a query: those that its equalities name.

use algebra::{Condition, Term};
use prepared_query::PreparedQuery;
use query::{ColumnId, TableInstance};
use schema::Table;
use statistics::TableColumn;
use std::alloc::{AllocError, Global};
use values::Comparison;

/// Whether an index is over the column with this place alone: its keys are counted anyway.
fn has_index_over(entry: &Table, place: usize) -> bool {
    for list in entry.indexes.as_slice() {
        if let [only] = list.as_slice() {
            if *only == place {
                return true;
            }
        }
    }
    false
}

/// The column of the table, if it is one of the instance's and has no index of its own.
fn counted_in(instance: &TableInstance, column: ColumnId) -> Option<TableColumn> {
    let place = column.checked_sub(instance.first_column)? as usize;
    if place >= instance.entry.columns.len() || has_index_over(&instance.entry, place) {
        return None;
    }
    Some(TableColumn {
        table: instance.table,
        place,
    })
}

/// Notes the column that a term is, if it is one.
fn note_term(
    instances: &[TableInstance],
    term: &Term,
    columns: &mut Vec<TableColumn>,
) -> Result<(), AllocError> {
    if let Term::Column(column) = term {
        for instance in instances {
            if let Some(counted) = counted_in(instance, *column) {
                columns.push(counted)?;
            }
        }
    }
    Ok(())
}

/// Notes the columns that the equalities of a condition name.
#[cycle(conditions)]
fn note(
    instances: &[TableInstance],
    condition: &Condition,
    columns: &mut Vec<TableColumn>,
) -> Result<(), AllocError> {
    match condition {
        Condition::Compare(comparison, a, b) => {
            if *comparison == Comparison::Equal {
                note_term(instances, a, columns)?;
                note_term(instances, b, columns)?;
            }
            Ok(())
        }
        Condition::Not(part) => note(instances, part.get(), columns),
        Condition::And(a, b, more) | Condition::Or(a, b, more) => {
            note(instances, a.get(), columns)?;
            note(instances, b.get(), columns)?;
            note_all(instances, more.as_slice(), columns)
        }
        Condition::IsNull(_) | Condition::Exists(_) | Condition::In(_, _, _) => Ok(()),
    }
}

#[cycle(conditions)]
fn note_all(
    instances: &[TableInstance],
    conditions: &[Condition],
    columns: &mut Vec<TableColumn>,
) -> Result<(), AllocError> {
    for condition in conditions {
        note(instances, condition, columns)?;
    }
    Ok(())
}

/// The columns that an equality of the query names, but for those with an index of their own.
pub(crate) fn counted_columns(
    alloc: Global,
    query: &PreparedQuery<'_>,
) -> Result<Vec<TableColumn>, AllocError> {
    let tables = query.query().tables.as_slice();
    let mut columns = Vec::new(alloc);
    for expr in query.frame() {
        let (first, second) = expr.conditions();
        note_all(tables, first, &mut columns)?;
        note_all(tables, second, &mut columns)?;
    }
    Ok(columns)
}
