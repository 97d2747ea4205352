//! The columns of a schema.

ghost use Rattle.std.specs.Prelude.{◌≡◌, ◌++◌, IfOk, OnOk};
ghost use Rattle.statistics_text.specs.Columns as spec;

use schema::{Schema, Table};
use statistics::TableColumn;
use std::alloc::{AllocError, Global};

fn push_columns(
    columns: &mut Vec<TableColumn>,
    number: usize,
    table: &Table,
) -> Result<(), AllocError>
    ensures { OnOk result (columns.new.items ≡ columns.old.items ++ spec.table_columns number table.now) }
{
    for place in 0..table.columns.len() {
        columns.push(TableColumn {
            table: number,
            place,
        })?;
    }
    Ok(())
}

/// Every column of every table, which is what `Statistics::of` takes to count the keys of all.
pub fn every_column(alloc: Global, schema: &Schema) -> Result<Vec<TableColumn>, AllocError>
    ensures { IfOk result (λ columns. columns.items ≡ spec.every_column schema.now) }
{
    let mut columns = Vec::new(alloc);
    for (number, table) in schema.tables.as_slice().iter().enumerate() {
        push_columns(&mut columns, number, table)?;
    }
    Ok(columns)
}
