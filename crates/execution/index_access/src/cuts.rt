//! Places between the rows of an index.

ghost use Rattle.std.specs.Prelude.{◌≡◌, ◌≤◌, [], true, false, length, map};
ghost use Rattle.std.specs.List.Sorted.{IsPartitionPoint, IsSorted};
ghost use Rattle.values.specs.Cells.{value_of};
ghost use Rattle.values.specs.Order as orders;
ghost use Rattle.values.specs.Truth as logic;
ghost use Rattle.relations.specs.Relations.{env_of, numbered_env};
ghost use Rattle.index_access.specs.Cuts as spec;
ghost use Rattle.index_access.specs.Cuts.{key_value, number_order};

use query::ColumnId;
use relations::{Env, Relation, row_cell};
use std::alloc::Global;
use std::cmp::Ordering;
use values::{Cell, order};

/// A value that rows are compared with.
#[derive(Clone, Copy)]
pub enum KeyCell<'c, 't> {
    /// Of a condition.
    Literal(Cell<'c>),
    /// Of a column of the environment.
    Around(Cell<'t>),
}

impl KeyCell<'_, '_> {
    pub fn is_null(self) -> bool
        ensures { result ≡ logic.is_null (key_value self.entry) }
    {
        match self {
            KeyCell::Literal(cell) => cell.is_null(),
            KeyCell::Around(cell) => cell.is_null(),
        }
    }

    /// The order of a cell and this one.
    fn order_of(self, cell: Cell<'_>) -> Ordering
        ensures { result ≡ orders.order (value_of cell.entry) (key_value self.entry) }
    {
        match self {
            KeyCell::Literal(own) => order(cell, own),
            KeyCell::Around(own) => order(cell, own),
        }
    }
}

/// Rows of a relation in an environment.
#[derive(Clone, Copy)]
pub struct Around<'e, 't> {
    pub relation: &'e Relation<'t>,
    pub env: &'e Env<'e, 't>,
}

/// A row against a key of the first columns, as far as the key goes.
fn key_order(
    columns: &[ColumnId],
    key: &[KeyCell<'_, '_>],
    rows: Around<'_, '_>,
    number: usize,
) -> Ordering
    ensures { result ≡ spec.key_order (numbered_env rows.entry.relation.now (env_of rows.entry.env.now) number) columns.now (map key_value key.now) }
{
    let [column, columns @ ..] = columns else {
        return Ordering::Equal;
    };
    let [cell, key @ ..] = key else {
        return Ordering::Equal;
    };
    match cell.order_of(row_cell(rows.relation, number, rows.env, *column)) {
        Ordering::Less => Ordering::Less,
        Ordering::Equal => key_order(columns, key, rows, number),
        Ordering::Greater => Ordering::Greater,
    }
}

/// Where a key of the first columns stands: before the rows that equal it, or behind them.
#[derive(Drop)]
pub struct Cut<'c, 't> {
    pub key: Vec<KeyCell<'c, 't>>,
    pub behind: bool,
}

impl<'c, 't> Cut<'c, 't> {
    /// Before all rows.
    pub fn new(alloc: Global) -> Cut<'c, 't>
        ensures key { result.key.items ≡ [] }
        ensures behind { result.behind ≡ false }
    {
        Cut {
            key: Vec::new(alloc),
            behind: false,
        }
    }
}

/// Whether a row stands before the cut.
fn stands_before(
    cut: &Cut<'_, '_>,
    columns: &[ColumnId],
    rows: Around<'_, '_>,
    number: usize,
) -> bool
    ensures { result ≡ spec.is_before cut.now columns.now (numbered_env rows.entry.relation.now (env_of rows.entry.env.now) number) }
{
    match key_order(columns, cut.key.as_slice(), rows, number) {
        Ordering::Less => true,
        Ordering::Equal => cut.behind,
        Ordering::Greater => false,
    }
}

/// How many of the rows, which are sorted by the columns, stand before the cut.
pub fn position<'e, 't>(
    cut: &Cut<'_, '_>,
    columns: &[ColumnId],
    rows: Around<'e, 't>,
    numbers: &[u32],
) -> usize
    requires { IsSorted (number_order (numbered_env rows.relation.now (env_of rows.env.now)) columns.now) numbers.now }
    ensures within { result ≤ length numbers.now }
    ensures parts { IsPartitionPoint (λ n. spec.is_before cut.now columns.now (numbered_env rows.entry.relation.now (env_of rows.entry.env.now) n) ≡ true) (λ n. spec.is_before cut.now columns.now (numbered_env rows.entry.relation.now (env_of rows.entry.env.now) n) ≡ false) numbers.now result }
{
    numbers.partition_point(|number| stands_before(cut, columns, rows, *number as usize))
}
