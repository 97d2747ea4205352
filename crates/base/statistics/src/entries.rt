//! Statistics as JSON spells them, with tables by their names.

ghost use Rattle.std.specs.Prelude.{◌≡◌, map, IfOk};
ghost use Rattle.std.specs.List.{count_by};
ghost use Rattle.std.specs.Option.{is_some};
ghost use Rattle.serde_json.specs.View.{view};
ghost use Rattle.values.specs.Faults.{Gives};
ghost use Rattle.values.specs.declared.fault.Fault.TheVariants as fault;
ghost use Rattle.schema.specs.Each.{each};
ghost use Rattle.statistics.specs.Entries as spec;

use crate::counts::{IndexStatistics, TableStatistics};
use crate::fault::{StatisticsFault, StatisticsRefusal};
use json_parts::{has_keys, member_of};
use schema::{Column, Table};
use serde_json::Value;
use std::alloc::{AllocError, Global};
use values::Items;

fn shape() -> StatisticsFault
    ensures { result ≡ fault.Refused StatisticsRefusal.Shape }
{
    StatisticsFault::Refused(StatisticsRefusal::Shape)
}

fn member<'v>(value: &'v Value, name: &str) -> Result<&'v Value, StatisticsFault>
    ensures { Gives (λ v. view v.now) result (spec.member_in name.now (view value.now)) }
{
    member_of(value, name, StatisticsRefusal::Shape)
}

/// Whether it is an object of so many members.
fn is_object_of(value: &Value, count: usize) -> bool
    ensures { result ≡ spec.is_object_of count (view value.now) }
{
    match value.as_object() {
        Some(members) => members.len() == count,
        None => false,
    }
}

/// The number that a member is.
#[tactic(auto, unfolding(crate::specs::Entries::number_in))]
fn member_number(value: &Value, name: &str) -> Result<u64, StatisticsFault>
    ensures { Gives (λ n. n) result (spec.number_in name.now (view value.now)) }
{
    match member(value, name)?.as_u64() {
        Some(number) => Ok(number),
        None => Err(shape()),
    }
}

/// The array that a value is, of so many items.
#[tactic(auto, unfolding(crate::specs::Entries::items_in))]
fn items_of(value: &Value, count: usize) -> Result<&[Value], StatisticsFault>
    ensures { Gives (λ v. map view v.now) result (spec.items_in count (view value.now)) }
{
    let Some(items) = value.as_array() else {
        return Err(shape());
    };
    let items = items.as_slice();
    if items.len() != count {
        return Err(shape());
    }
    Ok(items)
}

#[tactic(auto, unfolding(crate::specs::Entries::index_in))]
fn index_of(value: &Value) -> Result<IndexStatistics, StatisticsFault>
    ensures { Gives (λ x. x) result (spec.index_in (view value.now)) }
{
    has_keys(value, 2, StatisticsRefusal::Shape)?;
    let keys = member_number(value, "keys")?;
    let pages = member_number(value, "pages")?;
    Ok(IndexStatistics { keys, pages })
}

fn each_index(alloc: Global, items: &[Value]) -> Result<Items<IndexStatistics>, StatisticsFault>
    ensures { Gives (λ x. x) result (each (λ item. spec.index_in (view item)) items.now) }
{
    let mut indexes = Items::new(alloc);
    for item in items {
        indexes.push(index_of(item)?)?;
    }
    Ok(indexes)
}

/// The entries of as many indexes, in the order of the schema.
#[tactic(auto, unfolding(crate::specs::Entries::indexes_in), using(schema::proofs::Loops::each_seen))]
fn indexes_of(
    alloc: Global,
    value: &Value,
    count: usize,
) -> Result<Items<IndexStatistics>, StatisticsFault>
    ensures { Gives (λ x. x) result (spec.indexes_in count (view value.now)) }
{
    let items = items_of(member(value, "indexes")?, count)?;
    each_index(alloc, items)
}

/// How many different keys a column has, if a member stands at its name.
#[tactic(auto, unfolding(crate::specs::Entries::column_in))]
fn column_of(column: &Column, entries: &Value) -> Result<Option<u64>, StatisticsFault>
    ensures { Gives (λ x. x) result (spec.column_in (view entries.now) column.now) }
{
    let Some(entry) = entries.get(column.name.as_str()) else {
        return Ok(None);
    };
    has_keys(entry, 1, StatisticsRefusal::Shape)?;
    let keys = member_number(entry, "keys")?;
    Ok(Some(keys))
}

fn each_column(
    alloc: Global,
    columns: &[Column],
    entries: &Value,
) -> Result<Items<Option<u64>>, StatisticsFault>
    ensures { Gives (λ x. x) result (spec.each_column (view entries.now) columns.now) }
{
    let mut read = Items::new(alloc);
    for column in columns {
        read.push(column_of(column, entries)?)?;
    }
    Ok(read)
}

fn count_known(keys: &[Option<u64>]) -> usize
    ensures { result ≡ count_by is_some keys.now }
{
    keys.iter().filter(|known| known.is_some()).count()
}

/// The keys of the columns that have a member, which no other name has.
#[tactic(auto, unfolding(crate::specs::Entries::known_in))]
fn known_of(
    alloc: Global,
    columns: &[Column],
    entries: &Value,
) -> Result<Items<Option<u64>>, StatisticsFault>
    ensures { Gives (λ x. x) result (spec.known_in columns.now (view entries.now)) }
{
    let keys = each_column(alloc, columns, entries)?;
    let known = count_known(keys.as_slice());
    has_keys(entries, known, StatisticsRefusal::Shape)?;
    Ok(keys)
}

fn none_known(alloc: Global, columns: &[Column]) -> Result<Items<Option<u64>>, AllocError>
    ensures { IfOk result (λ keys. keys ≡ spec.none_known columns.now) }
{
    let mut keys = Items::new(alloc);
    for _column in columns {
        keys.push(None)?;
    }
    Ok(keys)
}

/// The keys of the columns, by the fourth member of a table's entry.
#[tactic(auto, unfolding(crate::specs::Entries::fourth_in))]
fn fourth_of(
    alloc: Global,
    columns: &[Column],
    value: &Value,
) -> Result<Items<Option<u64>>, StatisticsFault>
    ensures { Gives (λ x. x) result (spec.fourth_in columns.now (view value.now)) }
{
    has_keys(value, 4, StatisticsRefusal::Shape)?;
    known_of(alloc, columns, member(value, "columns")?)
}

/// The keys of the columns, of which none is known where that member isn't there.
fn column_keys_of(
    alloc: Global,
    columns: &[Column],
    value: &Value,
) -> Result<Items<Option<u64>>, StatisticsFault>
    ensures { Gives (λ x. x) result (spec.column_keys_in columns.now (view value.now)) }
{
    if is_object_of(value, 3) {
        let none = none_known(alloc, columns)?;
        Ok(none)
    } else {
        fourth_of(alloc, columns, value)
    }
}

#[tactic(auto, unfolding(crate::specs::Entries::table_in))]
fn table_of(alloc: Global, table: &Table, value: &Value) -> Result<TableStatistics, StatisticsFault>
    ensures { Gives (λ x. x) result (spec.table_in table.now (view value.now)) }
{
    let rows = member_number(value, "rows")?;
    let pages = member_number(value, "pages")?;
    let indexes = indexes_of(alloc, value, table.indexes.len())?;
    let column_keys = column_keys_of(alloc, table.columns.as_slice(), value)?;
    Ok(TableStatistics {
        rows,
        pages,
        indexes,
        column_keys,
    })
}

/// The entry that stands at the table's name.
#[tactic(auto, unfolding(crate::specs::Entries::named_in))]
fn named_table(
    alloc: Global,
    table: &Table,
    entries: &Value,
) -> Result<TableStatistics, StatisticsFault>
    ensures { Gives (λ x. x) result (spec.named_in (view entries.now) table.now) }
{
    table_of(alloc, table, member(entries, table.name.as_str())?)
}

fn each_table(
    alloc: Global,
    tables: &[Table],
    entries: &Value,
) -> Result<Items<TableStatistics>, StatisticsFault>
    ensures { Gives (λ x. x) result (spec.each_table (view entries.now) tables.now) }
{
    let mut read = Items::new(alloc);
    for table in tables {
        read.push(named_table(alloc, table, entries)?)?;
    }
    Ok(read)
}

/// The entries of the tables, one of each.
#[tactic(auto, unfolding(crate::specs::Entries::tables_in))]
pub fn tables_of(
    alloc: Global,
    tables: &[Table],
    value: &Value,
) -> Result<Items<TableStatistics>, StatisticsFault>
    ensures { Gives (λ x. x) result (spec.tables_in tables.now (view value.now)) }
{
    has_keys(value, 1, StatisticsRefusal::Shape)?;
    let entries = member(value, "tables")?;
    has_keys(entries, tables.len(), StatisticsRefusal::Shape)?;
    each_table(alloc, tables, entries)
}
