//! The different keys of an index that is one unique column: those of the rows without a Null, and one that the others share.

ghost use Rattle.std.specs.Prelude.{◌≡◌, [], ◌∷◌};
ghost use Rattle.std.specs.List.{count_by};
ghost use Rattle.schema.specs.Databases.{IsUnique};
ghost use Rattle.statistics.specs.Counting.{different_keys};
ghost use Rattle.statistics.specs.UniqueLists as spec;

use store::{RowCells, RowSource, Table};

fn is_single(list: &[usize], place: usize) -> bool
    ensures { result ≡ spec.is_single place list.now }
{
    match list {
        [only] => *only == place,
        _ => false,
    }
}

pub fn is_unique_column(table: &schema::Table, place: usize) -> bool
    ensures { result ≡ spec.is_unique_column table.now place }
{
    let lists = table.unique.as_slice();
    lists.iter().any(|list| is_single(list.as_slice(), place))
}

pub fn null_rows(rows: &Table, place: usize) -> usize
    ensures { result ≡ count_by (spec.is_null_at place) rows.now }
{
    let mut nulls: usize = 0;
    for row in 0..rows.len() {
        if RowCells::Stored(rows, row).cell(place).is_null() {
            nulls += 1;
        }
    }
    nulls
}

pub fn unique_column_keys(rows: &Table, place: usize) -> usize
    requires { IsUnique rows.now (place ∷ []) }
    ensures { result ≡ different_keys rows.now (place ∷ []) }
{
    let nulls = null_rows(rows, place);
    rows.len() - nulls + nulls.min(1)
}
