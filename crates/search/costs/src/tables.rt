//! What statistics say of a query's table instances.

ghost use Rattle.std.specs.Prelude.{◌≡◌, map, option_map};
ghost use Rattle.std.specs.List.{position};
ghost use Rattle.algebra.specs.Columns.{is_same_set, is_subset};
ghost use Rattle.costs.specs.Tables as spec;

use query::{ColumnId, TableInstance};
use statistics::{IndexStatistics, Statistics};

/// The rows of the table.
pub fn rows_of(statistics: &Statistics, instance: &TableInstance) -> u64
    ensures { result ≡ spec.rows_of statistics.now instance.now }
{
    match statistics.tables.as_slice().get(instance.table) {
        Some(table) => table.rows,
        None => 0,
    }
}

/// The pages of the table.
pub fn pages_of(statistics: &Statistics, instance: &TableInstance) -> u64
    ensures { result ≡ spec.pages_of statistics.now instance.now }
{
    match statistics.tables.as_slice().get(instance.table) {
        Some(table) => table.pages,
        None => 0,
    }
}

fn index_of<'a>(
    statistics: &'a Statistics,
    instance: &TableInstance,
    index: usize,
) -> Option<&'a IndexStatistics>
    ensures { option_map (λ i. i.now) result ≡ spec.index_of statistics.now instance.now index }
{
    match statistics.tables.as_slice().get(instance.table) {
        Some(table) => table.indexes.as_slice().get(index),
        None => None,
    }
}

/// The different keys of an index of the table.
pub fn keys_of(statistics: &Statistics, instance: &TableInstance, index: usize) -> u64
    ensures { result ≡ spec.keys_of statistics.now instance.now index }
{
    match index_of(statistics, instance, index) {
        Some(index) => index.keys,
        None => 0,
    }
}

/// The different keys of a column of the table, by its place, where they are known.
pub fn column_keys_of(
    statistics: &Statistics,
    instance: &TableInstance,
    place: usize,
) -> Option<u64>
    ensures { result ≡ spec.column_keys_of statistics.now instance.now place }
{
    let table = statistics.tables.as_slice().get(instance.table)?;
    match table.column_keys.as_slice().get(place) {
        Some(keys) => *keys,
        None => None,
    }
}

/// The pages of an index of the table.
pub fn index_pages_of(statistics: &Statistics, instance: &TableInstance, index: usize) -> u64
    ensures { result ≡ spec.index_pages_of statistics.now instance.now index }
{
    match index_of(statistics, instance, index) {
        Some(index) => index.pages,
        None => 0,
    }
}

/// Whether the column is one of the table instance's.
pub fn owns(instance: &TableInstance, column: ColumnId) -> bool
    ensures { result ≡ spec.owns instance.now column }
{
    column >= instance.first_column
        && ((column - instance.first_column) as usize) < instance.entry.columns.len()
}

/// The table instance whose column it is.
pub fn owner(instances: &[TableInstance], column: ColumnId) -> Option<&TableInstance>
    ensures { option_map (λ t. t.now) result ≡ spec.owner instances.now column }
{
    for instance in instances {
        if owns(instance, column) {
            return Some(instance);
        }
    }
    None
}

/// The places of an index's columns.
pub fn index_places(instance: &TableInstance, index: u32) -> &[usize]
    ensures { result.now ≡ spec.index_places instance.now index }
{
    match instance.entry.indexes.as_slice().get(index as usize) {
        Some(places) => places.as_slice(),
        None => &[],
    }
}

/// Whether each of the places is in the list.
fn is_subset(places: &[usize], list: &[usize]) -> bool
    ensures { result ≡ is_subset places.now list.now }
{
    places.iter().all(|place| list.contains(place))
}

/// Whether two lists have the same places.
fn is_same_set(places: &[usize], list: &[usize]) -> bool
    ensures { result ≡ is_same_set places.now list.now }
{
    is_subset(places, list) && is_subset(list, places)
}

/// Whether these places, in any order, are a unique list of the table.
pub fn is_unique(instance: &TableInstance, places: &[usize]) -> bool
    ensures { result ≡ spec.is_unique instance.now places.now }
{
    instance
        .entry
        .unique
        .as_slice()
        .iter()
        .any(|list| is_same_set(places, list.as_slice()))
}

/// Whether the list is of the place alone.
fn is_over(place: usize, list: &[usize]) -> bool
    ensures { result ≡ spec.is_over place list.now }
{
    match list {
        [only] => *only == place,
        _ => false,
    }
}

/// The number of the table's first index over the place alone.
pub fn index_over(instance: &TableInstance, place: usize) -> Option<usize>
    ensures { result ≡ position (spec.is_over place) instance.now.entry.indexes }
{
    instance
        .entry
        .indexes
        .as_slice()
        .iter()
        .position(|list| is_over(place, list.as_slice()))
}
