//! The parts of statistics as values of JSON.

ghost use Rattle.std.specs.Prelude.{◌≡◌, length, map, codes, IfOk};
ghost use Rattle.std.specs.List.{AllByRecursion};
ghost use Rattle.serde_json.specs.Data.{object};
ghost use Rattle.serde_json.specs.View.{view, members_view};
ghost use Rattle.json_parts.specs.Spelling.{HasKeys};
ghost use Rattle.schema.specs.Each.{Pairs};
ghost use Rattle.schema.specs.Schemas.{AreDifferent, IsTable};
ghost use Rattle.statistics.specs.Spelling.{HasNumber, IsIndexText, AreColumnsText, IsTableText, AreTablesText};
ghost use Rattle.statistics_text.specs.Nesting.{IsWithin};
ghost use Rattle.statistics_text.specs.Shapes.{FitsTable};

use schema::{Column, Table};
use serde_json::{Map, Value, put};
use statistics::{IndexStatistics, TableStatistics};
use std::alloc::{AllocError, Global};

fn index_value(alloc: Global, index: &IndexStatistics) -> Result<Value, AllocError>
    ensures { IfOk result (λ v. IsWithin 1 (λ d. IsIndexText d index.now) (view v)) }
{
    let mut members = Map::new(alloc);
    put(&mut members, alloc, "keys", Value::from(index.keys))?;
    put(&mut members, alloc, "pages", Value::from(index.pages))?;
    Ok(Value::Object(members))
}

fn each_index(alloc: Global, indexes: &[IndexStatistics]) -> Result<Vec<Value>, AllocError>
    ensures { IfOk result (λ values. Pairs (λ v i. IsWithin 1 (λ d. IsIndexText d i) (view v)) values.items indexes.now) }
{
    let mut values = Vec::new(alloc);
    for index in indexes {
        values.push(index_value(alloc, index)?)?;
    }
    Ok(values)
}

fn column_value(alloc: Global, keys: u64) -> Result<Value, AllocError>
    ensures { IfOk result (λ v. IsWithin 1 (λ d. HasKeys 1 d × HasNumber (codes "keys") keys d) (view v)) }
{
    let mut members = Map::new(alloc);
    put(&mut members, alloc, "keys", Value::from(keys))?;
    Ok(Value::Object(members))
}

/// A member for each column that is known, and none for the others.
fn known_columns(
    alloc: Global,
    columns: &[Column],
    keys: &[Option<u64>],
) -> Result<Map<String, Value>, AllocError>
    requires different { AreDifferent (map (λ c. c.name) columns.now) }
    requires each { length keys.now ≡ length columns.now }
    ensures { IfOk result (λ m. IsWithin 2 (λ d. AreColumnsText columns.now d keys.now) (object (members_view m.entries))) }
{
    let mut members = Map::new(alloc);
    for (column, keys) in columns.iter().zip(keys.iter()) {
        if let Some(keys) = keys {
            put(
                &mut members,
                alloc,
                column.name.as_str(),
                column_value(alloc, *keys)?,
            )?;
        }
    }
    Ok(members)
}

/// With no member `columns` where none is known.
fn table_value(alloc: Global, table: &Table, counted: &TableStatistics) -> Result<Value, AllocError>
    requires whole { IsTable table.now }
    requires fitting { FitsTable table.now counted.now }
    ensures { IfOk result (λ v. IsWithin 3 (λ d. IsTableText table.now d counted.now) (view v)) }
{
    let mut members = Map::new(alloc);
    put(&mut members, alloc, "rows", Value::from(counted.rows))?;
    put(&mut members, alloc, "pages", Value::from(counted.pages))?;
    let indexes = each_index(alloc, counted.indexes.as_slice())?;
    put(&mut members, alloc, "indexes", Value::Array(indexes))?;
    let known = known_columns(
        alloc,
        table.columns.as_slice(),
        counted.column_keys.as_slice(),
    )?;
    if known.is_empty() {
        return Ok(Value::Object(members));
    }
    put(&mut members, alloc, "columns", Value::Object(known))?;
    Ok(Value::Object(members))
}

/// A member for each table.
pub(crate) fn each_table(
    alloc: Global,
    tables: &[Table],
    counted: &[TableStatistics],
) -> Result<Map<String, Value>, AllocError>
    requires different { AreDifferent (map (λ t. t.name) tables.now) }
    requires whole { AllByRecursion IsTable tables.now }
    requires fitting { Pairs FitsTable tables.now counted.now }
    ensures { IfOk result (λ m. IsWithin 4 (λ d. AreTablesText tables.now d counted.now) (object (members_view m.entries))) }
{
    let mut members = Map::new(alloc);
    for (table, counts) in tables.iter().zip(counted.iter()) {
        put(
            &mut members,
            alloc,
            table.name.as_str(),
            table_value(alloc, table, counts)?,
        )?;
    }
    Ok(members)
}
