//! The names of table instances, columns and aggregates.

ghost use Rattle.std.specs.Prelude.{◌≡◌, ◌++◌, codes, flat_map, option_map, slice_get, OnOk};
ghost use Rattle.explain.specs.Names as spec;
ghost use Rattle.explain.specs.Names.{◌␣◌};

use crate::naming::Naming;
use crate::parts::{push_number, push_text};
use algebra::Aggregation;
use query::{Aggregate, ColumnId, InstanceId, TableInstance};
use schema::Column;
use std::alloc::AllocError;

fn push_instance(
    text: &mut Vec<u8>,
    tables: &[TableInstance],
    instance: InstanceId,
) -> Result<(), AllocError>
    ensures { OnOk result (text.new.items ≡ text.old.items ++ spec.names_of_table (slice_get tables.now instance) instance) }
{
    match tables.get(instance as usize) {
        Some(table) => {
            push_text(text, table.entry.name.as_str())?;
            push_text(text, " ")?;
            push_text(text, table.name.as_str())
        }
        None => {
            push_number(text, "t", instance)?;
            push_number(text, " t", instance)
        }
    }
}

/// Adds the names of a table instance: its table's, and its own.
pub(crate) fn push_table(
    text: &mut Vec<u8>,
    names: &Naming<'_>,
    before: &str,
    instance: InstanceId,
) -> Result<(), AllocError>
    ensures { OnOk result (text.new.items ≡ text.old.items ++ (before.now ++ spec.table_text names.now instance)) }
{
    push_text(text, before)?;
    push_instance(text, names.tables(), instance)
}

fn own_column(table: &TableInstance, column: ColumnId) -> Option<&Column>
    ensures { option_map (λ c. c.now) result ≡ spec.own_column table.now column }
{
    let place = column.checked_sub(table.first_column)?;
    table.entry.columns.as_slice().get(place as usize)
}

fn push_own(text: &mut Vec<u8>, table: &TableInstance, column: &Column) -> Result<(), AllocError>
    ensures { OnOk result (text.new.items ≡ text.old.items ++ (table.now.name ++ (codes "." ++ column.now.name))) }
{
    push_text(text, table.name.as_str())?;
    push_text(text, ".")?;
    push_text(text, column.name.as_str())
}

fn push_stored(
    text: &mut Vec<u8>,
    tables: &[TableInstance],
    before: &str,
    column: ColumnId,
) -> Result<(), AllocError>
    ensures { OnOk result (text.new.items ≡ text.old.items ++ (before.now ++ spec.stored_text tables.now column)) }
{
    push_text(text, before)?;
    for table in tables {
        if let Some(own) = own_column(table, column) {
            return push_own(text, table, own);
        }
    }
    push_number(text, "c", column)
}

/// Adds what an aggregate computes.
pub(crate) fn push_aggregate(
    text: &mut Vec<u8>,
    tables: &[TableInstance],
    before: &str,
    aggregate: Aggregate,
) -> Result<(), AllocError>
    ensures { OnOk result (text.new.items ≡ text.old.items ++ (before.now ++ spec.aggregate_text tables.now aggregate)) }
{
    push_text(text, before)?;
    match aggregate {
        Aggregate::CountRows => return push_text(text, "COUNT(*)"),
        Aggregate::Count(column) => push_stored(text, tables, "COUNT(", column)?,
        Aggregate::Sum(column) => push_stored(text, tables, "SUM(", column)?,
        Aggregate::Min(column) => push_stored(text, tables, "MIN(", column)?,
        Aggregate::Max(column) => push_stored(text, tables, "MAX(", column)?,
    }
    push_text(text, ")")
}

fn push_among(
    text: &mut Vec<u8>,
    tables: &[TableInstance],
    aggregates: &[Aggregation],
    column: ColumnId,
) -> Result<(), AllocError>
    ensures { OnOk result (text.new.items ≡ text.old.items ++ spec.column_among tables.now aggregates.now column) }
{
    for own in aggregates {
        if own.column == column {
            return push_aggregate(text, tables, "", own.aggregate);
        }
    }
    push_stored(text, tables, "", column)
}

/// Adds the name of a column of a table, or what computes a column of an aggregate.
pub(crate) fn push_column(
    text: &mut Vec<u8>,
    names: &Naming<'_>,
    before: &str,
    column: ColumnId,
) -> Result<(), AllocError>
    ensures { OnOk result (text.new.items ≡ text.old.items ++ (before.now ++ spec.column_text names.now column)) }
{
    push_text(text, before)?;
    push_among(text, names.tables(), names.aggregates(), column)
}

fn push_more_columns(
    text: &mut Vec<u8>,
    names: &Naming<'_>,
    more: &[ColumnId],
) -> Result<(), AllocError>
    ensures { OnOk result (text.new.items ≡ text.old.items ++ flat_map (λ c. codes "," ++ spec.column_text names.now c) more.now) }
{
    for column in more {
        push_column(text, names, ",", *column)?;
    }
    Ok(())
}

pub(crate) fn push_columns(
    text: &mut Vec<u8>,
    names: &Naming<'_>,
    before: &str,
    columns: &[ColumnId],
) -> Result<(), AllocError>
    ensures { OnOk result (text.new.items ≡ text.old.items ++ (before.now ++ spec.columns_text names.now columns.now)) }
{
    push_text(text, before)?;
    match columns {
        [] => push_text(text, "-"),
        [first, more @ ..] => {
            push_column(text, names, "", *first)?;
            push_more_columns(text, names, more)
        }
    }
}
