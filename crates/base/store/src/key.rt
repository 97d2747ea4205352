//! Rows by their values at some places, which stay where they are.

ghost use Rattle.std.specs.Prelude.{◌≡◌, ◌<◌, true, false, [], length, slice_index_or, IsTrue, MatchOption, flat_map};
ghost use Rattle.std.specs.Cmp.{partial_equiv_from_equiv};
ghost use Rattle.std.specs.Cmp.Lexicographic.{slice_cmp};
ghost use Rattle.std.specs.declared.cmp.Ordering.TheVariants.{Less};
ghost use Rattle.std.specs.List.{list_any};
ghost use Rattle.values.specs.Cells.{value_of};
ghost use Rattle.values.specs.Order.{order};
ghost use Rattle.values.specs.Truth as logic;
ghost use Rattle.values.specs.declared.value.Value.TheVariants as value;
ghost use Rattle.schema.specs.Databases.{values_at};
ghost use Rattle.store.specs.Keys.{key_eq, key_writes, key_equiv, key_alike};
ghost use Rattle.store.specs.RowCells.{row_of};

use crate::row::RowCells;
use crate::table::Table;
use std::cmp::Ordering;
use std::hash::{Hash, Hasher};
use std::marker::Model;
use values::{Cell, Items, order};

/// The values of a row at some places, seen as their list.
#[derive(Drop)]
pub struct RowKey<'a, 't> {
    row: RowCells<'a, 't>,
    places: &'a [usize],
}

impl<'a, 't> Model for RowKey<'a, 't> {
    ghost use Rattle.schema.specs.Databases.{Row, values_at};
    ghost use Rattle.store.specs.RowCells.{row_of};

    ghost Value = { Row };

    ghost view = { λ k. values_at k.places.now (row_of k.row) };
}

impl<'a, 't> RowKey<'a, 't> {
    pub fn new(row: RowCells<'a, 't>, places: &'a [usize]) -> RowKey<'a, 't>
        ensures { result ≡ values_at places.entry.now (row_of row.entry) }
    {
        RowKey { row, places }
    }

    fn len(&self) -> usize
        ensures { result ≡ length self.now }
    {
        self.places.len()
    }

    fn cell(&self, number: usize) -> Cell<'t>
        requires { number < length self.now }
        ensures { value_of result ≡ slice_index_or self.now number value.Null }
    {
        self.row.cell(self.places[number])
    }

    /// Whether the first value that differs from the other key's comes before it in the total order.
    pub(crate) fn is_below(&self, other: &RowKey<'_, '_>) -> bool
        ensures { IsTrue result → slice_cmp order self.now other.now ≡ Less }
    {
        if self.len() != other.len() {
            return false;
        }
        for number in 0..self.len() {
            match order(self.cell(number), other.cell(number)) {
                Ordering::Less => return true,
                Ordering::Equal => {}
                Ordering::Greater => return false,
            }
        }
        false
    }
}

impl PartialEq for RowKey<'_, '_> {
    ghost eq = { key_eq };

    ghost laws = { partial_equiv_from_equiv key_equiv };

    fn eq(&self, other: &RowKey<'_, '_>) -> bool {
        if self.len() != other.len() {
            return false;
        }
        for number in 0..self.len() {
            if self.cell(number) != other.cell(number) {
                return false;
            }
        }
        true
    }
}

impl Eq for RowKey<'_, '_> {
    ghost laws = { key_equiv };
}

impl Hash for RowKey<'_, '_> {
    ghost hash_input = { key_writes };

    ghost respects_eq = { key_alike };

    fn hash<H: Hasher>(&self, state: &mut H) {
        for number in 0..self.len() {
            self.cell(number).hash(state);
        }
    }
}

/// The key of a table's row at the places; none where a value is Null.
pub(crate) fn key_of<'t>(
    rows: &'t Table,
    row: usize,
    places: &'t Items<usize>,
) -> Option<RowKey<'t, 't>>
    ensures { MatchOption result (list_any logic.is_null (values_at places.now (slice_index_or rows.now row [])) ≡ true)
        (λ key. (key ≡ values_at places.now (slice_index_or rows.now row [])) × (list_any logic.is_null (values_at places.now (slice_index_or rows.now row [])) ≡ false)) }
{
    let cells = RowCells::Stored(rows, row);
    for place in places.as_slice() {
        if cells.cell(*place).is_null() {
            return None;
        }
    }
    Some(RowKey::new(cells, places.as_slice()))
}
