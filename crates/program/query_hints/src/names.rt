//! The tables and columns that there are, where a name of a query means none of them or several.

use crate::habits::say_truth;
use schema::{Column, Schema, Table};
use sql_parse::Name;
use sql_parse::statement::{
    AggregateFunction, ColumnName, ItemValue, SelectItem, SelectList, TableName,
};
use std::alloc::{AllocError, Global};

/// How many names a list says at most.
const LISTED: usize = 24;

/// A table of a FROM around a name.
#[derive(Clone, Copy)]
pub(crate) struct Around<'t> {
    pub table: &'t TableName,
    /// The number of its FROM, which is another for each of those around a name.
    pub from: usize,
}

/// Adds names with commas between them; of many the first, and how many more there are.
fn push_list(said: &mut String, names: &[&str]) -> Result<(), AllocError> {
    for (place, name) in names.iter().take(LISTED).enumerate() {
        said.push_str(if place > 0 { ", " } else { "" })?;
        said.push_str(name)?;
    }
    if names.len() > LISTED {
        let more = names.len() - LISTED;
        write!(said, " and {more} more")?;
    }
    Ok(())
}

/// The table of a name.
fn entry_of<'s>(schema: &'s Schema, name: &str) -> Option<&'s Table> {
    let tables = schema.tables.as_slice();
    tables.iter().find(|table| table.name.as_str() == name)
}

/// The columns of a table: none where the schema has no such table.
fn columns_of<'s>(schema: &'s Schema, table: &TableName) -> &'s [Column] {
    match entry_of(schema, table.name.text.as_str()) {
        Some(entry) => entry.columns.as_slice(),
        None => &[],
    }
}

fn has_column(schema: &Schema, table: &TableName, name: &str) -> bool {
    let columns = columns_of(schema, table);
    columns.iter().any(|column| column.name.as_str() == name)
}

/// The name by which columns name a table of a FROM.
fn known_name<'t>(table: &'t TableName) -> &'t str {
    match &table.alias {
        Some(alias) => alias.text.as_str(),
        None => table.name.text.as_str(),
    }
}

/// Adds a table of a FROM as it stands there.
fn push_table(said: &mut String, table: &TableName) -> Result<(), AllocError> {
    said.push_str(table.name.text.as_str())?;
    if let Some(alias) = &table.alias {
        said.push(' ')?;
        said.push_str(alias.text.as_str())?;
    }
    Ok(())
}

/// Adds tables of FROMs as they stand there, with commas between them.
fn push_tables(said: &mut String, tables: &[Around<'_>]) -> Result<(), AllocError> {
    for (place, around) in tables.iter().enumerate() {
        said.push_str(if place > 0 { ", " } else { "" })?;
        push_table(said, around.table)?;
    }
    Ok(())
}

/// Adds the names of columns.
fn push_columns(alloc: Global, said: &mut String, columns: &[Column]) -> Result<(), AllocError> {
    let mut names = Vec::new(alloc);
    for column in columns {
        names.push(column.name.as_str())?;
    }
    push_list(said, names.as_slice())
}

/// Says the tables of the schema, which has none of this name.
pub(crate) fn say_tables(
    alloc: Global,
    schema: &Schema,
    name: &str,
    said: &mut String,
) -> Result<(), AllocError> {
    let mut names = Vec::new(alloc);
    for table in schema.tables.as_slice() {
        names.push(table.name.as_str())?;
    }
    write!(said, "no table {name}; the schema has ")?;
    push_list(said, names.as_slice())?;
    said.push('\n')
}

/// Says the columns of the one table that was to have a column.
fn say_missing(
    alloc: Global,
    schema: &Schema,
    name: &str,
    table: &TableName,
    said: &mut String,
) -> Result<(), AllocError> {
    write!(said, "no column {name} in ")?;
    push_table(said, table)?;
    said.push_str("; it has ")?;
    push_columns(alloc, said, columns_of(schema, table))?;
    said.push('\n')
}

/// Says the columns of each table around a plain name, which none of them has.
fn say_missing_anywhere(
    alloc: Global,
    schema: &Schema,
    name: &str,
    tables: &[Around<'_>],
    said: &mut String,
) -> Result<(), AllocError> {
    if let [around] = tables {
        return say_missing(alloc, schema, name, around.table, said);
    }
    write!(said, "no column {name} in ")?;
    push_tables(said, tables)?;
    said.push('\n')?;
    for around in tables {
        push_table(said, around.table)?;
        said.push_str(" has ")?;
        push_columns(alloc, said, columns_of(schema, around.table))?;
        said.push('\n')?;
    }
    Ok(())
}

/// Says the tables around a name, none of which is known by what stands before the dot.
fn say_unknown_table(
    table: &str,
    name: &str,
    tables: &[Around<'_>],
    said: &mut String,
) -> Result<(), AllocError> {
    write!(said, "no table is known as {table} there, but ")?;
    push_tables(said, tables)?;
    let by_alias = tables
        .iter()
        .find(|around| around.table.name.text.as_str() == table);
    if let Some(around) = by_alias {
        let known = known_name(around.table);
        write!(
            said,
            "; a table with an alias is known by it alone, as in {known}.{name}"
        )?;
    }
    said.push('\n')
}

/// Says what there is in place of a column that is unknown.
pub(crate) fn say_unknown(
    alloc: Global,
    schema: &Schema,
    name: &ColumnName,
    tables: &[Around<'_>],
    said: &mut String,
) -> Result<(), AllocError> {
    let column = name.name.text.as_str();
    let Some(table) = &name.table else {
        say_missing_anywhere(alloc, schema, column, tables, said)?;
        return say_truth(column, said);
    };
    let table = table.text.as_str();
    match tables
        .iter()
        .find(|around| known_name(around.table) == table)
    {
        Some(around) => say_missing(alloc, schema, column, around.table, said),
        None => say_unknown_table(table, column, tables, said),
    }
}

/// Says which columns a plain name could mean: those of the first FROM that has several.
pub(crate) fn say_ambiguous(
    schema: &Schema,
    name: &Name,
    tables: &[Around<'_>],
    said: &mut String,
) -> Result<(), AllocError> {
    let name = name.text.as_str();
    let found = tables
        .iter()
        .find(|around| has_column(schema, around.table, name));
    let Some(first) = found else {
        return Ok(());
    };
    write!(said, "{name} could mean ")?;
    let own = tables.iter().filter(|around| around.from == first.from
        && has_column(schema, around.table, name));
    for (place, around) in own.enumerate() {
        let known = known_name(around.table);
        said.push_str(if place > 0 { " or " } else { "" })?;
        write!(said, "{known}.{name}")?;
    }
    said.push('\n')
}

/// The name of what a SELECT shows.
fn output_name<'t>(item: &'t SelectItem) -> &'t str {
    match (&item.alias, &item.value) {
        (Some(alias), _) => alias.text.as_str(),
        (None, ItemValue::Column(column)) => column.name.text.as_str(),
        (None, ItemValue::Aggregate(call)) => match call.function {
            AggregateFunction::Count => "count",
            AggregateFunction::Sum => "sum",
            AggregateFunction::Min => "min",
            AggregateFunction::Max => "max",
        },
    }
}

/// Whether a SELECT shows something by this alias.
fn has_alias(list: &SelectList, name: &str) -> bool {
    let SelectList::Items(items) = list else {
        return false;
    };
    let items = items.as_slice();
    items.iter().any(|item| item
        .alias
        .as_ref()
        .is_some_and(|alias| alias.text.as_str() == name))
}

/// Says of a plain name in a HAVING that it is refused though the SELECT has such an alias.
pub(crate) fn say_alias(
    list: &SelectList,
    name: &ColumnName,
    said: &mut String,
) -> Result<(), AllocError> {
    if name.table.is_none() && has_alias(list, name.name.text.as_str()) {
        said.push_str(
            "HAVING knows no alias; write what it stands for once more, as in HAVING COUNT(*) > 1\n",
        )?;
    }
    Ok(())
}

/// Says what a SELECT shows, by which its rows can be ordered. The tables are those of its FROM.
pub(crate) fn say_shown(
    alloc: Global,
    schema: &Schema,
    list: &SelectList,
    tables: &[Around<'_>],
    said: &mut String,
) -> Result<(), AllocError> {
    let mut names = Vec::new(alloc);
    match list {
        SelectList::Star(_) => {
            for around in tables {
                for column in columns_of(schema, around.table) {
                    names.push(column.name.as_str())?;
                }
            }
        }
        SelectList::Items(items) => {
            for item in items.as_slice() {
                names.push(output_name(item))?;
            }
        }
    }
    said.push_str("the SELECT shows ")?;
    push_list(said, names.as_slice())?;
    said.push('\n')
}
