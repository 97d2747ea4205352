//! Whether an index holds a unique list whose columns are all NOT NULL: then it has as many keys as rows.

ghost use Rattle.std.specs.Prelude.{◌≡◌};
ghost use Rattle.statistics.specs.UniqueLists as spec;

use schema::{Column, Table};

pub fn is_not_null(columns: &[Column], place: usize) -> bool
    ensures { result ≡ spec.is_not_null_at columns.now place }
{
    match columns.get(place) {
        Some(column) => column.not_null,
        None => false,
    }
}

/// Whether the list's places are among these, and their columns NOT NULL.
fn is_held(columns: &[Column], places: &[usize], list: &[usize]) -> bool
    ensures { result ≡ spec.is_held columns.now places.now list.now }
{
    list.iter().all(|place| places.contains(place) && is_not_null(columns, *place))
}

pub fn holds_unique_list(table: &Table, places: &[usize]) -> bool
    ensures { result ≡ spec.holds_unique_list table.now places.now }
{
    let columns = table.columns.as_slice();
    let lists = table.unique.as_slice();
    lists
        .iter()
        .any(|list| is_held(columns, places, list.as_slice()))
}
