//! Statistics of a database, by a pass over a table for each of its indexes whose keys may repeat.

ghost use Rattle.std.specs.Prelude.{◌≡◌, ◌≤◌, ℕ, length, map, IfOk};
ghost use Rattle.schema.specs.Databases.{SatisfiesTable, SatisfyTables, most_rows};
ghost use Rattle.statistics.specs.ColumnKeys.{AreShort};
ghost use Rattle.statistics.specs.Counting as spec;

use crate::column_keys::column_keys;
use crate::counts::{IndexStatistics, Statistics, TableColumn, TableStatistics};
use crate::digits::keys_by_slots;
use crate::number_keys::keys_by_numbers;
use crate::unique_columns::{is_unique_column, unique_column_keys};
use crate::unique_lists::holds_unique_list;
use std::alloc::{AllocError, Global};
use std::collections::HashSet;
use store::{Database, RowCells, RowKey, RowSource, Table};
use values::Items;

const ROWS_IN_PAGE: u64 = 50;

const ENTRIES_IN_PAGE: u64 = 100;

/// By a set of the keys.
fn keys_by_set(alloc: Global, rows: &Table, places: &[usize]) -> Result<u64, AllocError>
    ensures { IfOk result (λ keys. keys ≡ spec.different_keys rows.now places.now) }
{
    let mut keys = HashSet::new(alloc);
    for row in 0..rows.len() {
        keys.insert(RowKey::new(RowCells::Stored(rows, row), places))?;
    }
    Ok(keys.len() as u64)
}

/// By marks where numbers lie close together, by slots where one column of them doesn't, else by a set.
fn different_keys(alloc: Global, rows: &Table, places: &[usize]) -> Result<u64, AllocError>
    requires few { length rows.now ≤ most_rows }
    requires short { (place : ℕ) → AreShort place rows.now }
    ensures { IfOk result (λ keys. keys ≡ spec.different_keys rows.now places.now) }
{
    if let Some(keys) = keys_by_slots(alloc, rows, places)? {
        return Ok(keys);
    }
    if let [place] = places {
        if let Some(keys) = keys_by_numbers(alloc, rows, *place)? {
            return Ok(keys);
        }
    }
    keys_by_set(alloc, rows, places)
}

/// The same of rows that satisfy their table's entry, with no pass where they can't agree on the index, or only those with a Null can.
fn index_keys(
    alloc: Global,
    rows: &Table,
    entry: &schema::Table,
    places: &[usize],
) -> Result<u64, AllocError>
    requires { SatisfiesTable entry.now rows.now }
    ensures { IfOk result (λ keys. keys ≡ spec.different_keys rows.now places.now) }
{
    if holds_unique_list(entry, places) {
        return Ok(rows.len() as u64);
    }
    if let [place] = places {
        if is_unique_column(entry, *place) {
            return Ok(unique_column_keys(rows, *place) as u64);
        }
    }
    different_keys(alloc, rows, places)
}

fn index_counts(
    alloc: Global,
    rows: &Table,
    entry: &schema::Table,
    places: &[usize],
) -> Result<IndexStatistics, AllocError>
    requires { SatisfiesTable entry.now rows.now }
    ensures { IfOk result (λ index. index ≡ spec.index_counts rows.now places.now) }
{
    let keys = index_keys(alloc, rows, entry, places)?;
    let pages = (rows.len() as u64).div_ceil(ENTRIES_IN_PAGE);
    Ok(IndexStatistics { keys, pages })
}

fn each_index(
    alloc: Global,
    rows: &Table,
    entry: &schema::Table,
) -> Result<Items<IndexStatistics>, AllocError>
    requires { SatisfiesTable entry.now rows.now }
    ensures { IfOk result (λ counted. counted ≡ map (spec.index_counts rows.now) entry.now.indexes) }
{
    let mut counted = Items::new(alloc);
    for places in entry.indexes.as_slice() {
        counted.push(index_counts(alloc, rows, entry, places.as_slice())?)?;
    }
    Ok(counted)
}

fn table_counts(
    alloc: Global,
    rows: &Table,
    entry: &schema::Table,
    counted: &[TableColumn],
    number: usize,
) -> Result<TableStatistics, AllocError>
    requires { SatisfiesTable entry.now rows.now }
    ensures { IfOk result (λ table. table ≡ spec.table_counts counted.now number rows.now entry.now) }
{
    let indexes = each_index(alloc, rows, entry)?;
    let column_keys = column_keys(alloc, rows, entry, counted, number)?;
    let count = rows.len() as u64;
    Ok(TableStatistics {
        rows: count,
        pages: count.div_ceil(ROWS_IN_PAGE),
        indexes,
        column_keys,
    })
}

fn each_table(
    alloc: Global,
    entries: &[schema::Table],
    tables: &[Table],
    counted: &[TableColumn],
) -> Result<Items<TableStatistics>, AllocError>
    requires { SatisfyTables entries.now tables.now }
    ensures { IfOk result (λ read. read ≡ spec.tables_counts counted.now entries.now tables.now) }
{
    let mut read = Items::new(alloc);
    for (entry, rows) in entries.iter().zip(tables.iter()) {
        let number = read.len();
        read.push(table_counts(alloc, rows, entry, counted, number)?)?;
    }
    Ok(read)
}

impl Statistics {
    /// The statistics of the database's tables as they are, with the keys of these columns.
    pub fn of(
        alloc: Global,
        database: &Database<'_>,
        counted: &[TableColumn],
    ) -> Result<Statistics, AllocError>
        ensures { IfOk result (λ statistics. statistics ≡ spec.counts_of counted.now database.now) }
    {
        let entries = database.schema().tables.as_slice();
        let tables = each_table(alloc, entries, database.tables(), counted)?;
        Ok(Statistics { tables })
    }
}
