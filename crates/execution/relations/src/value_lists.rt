//! The values of a column, found by hash.

ghost use Rattle.std.specs.Prelude.{◌≡◌, map, IfOk, IfSome};
ghost use Rattle.values.specs.Cells.{value_of};
ghost use Rattle.values.specs.declared.value.Value.{Value};
ghost use Rattle.values.specs.declared.truth.Comparison.TheVariants as by;
ghost use Rattle.values.specs.Truth as logic;
ghost use Rattle.query.specs.Meaning.{any_of};
ghost use Rattle.relations.specs.Parts.{row_at, value_in};
ghost use Rattle.relations.specs.Relations.{numbers_of, rows_of};
ghost use Rattle.relations.specs.ValueLists.{IsListed, among, values_in};

use crate::headings::Place;
use crate::relation::Relation;
use indexmap::IndexSet;
use query::ColumnId;
use std::alloc::{AllocError, Global};
use values::{Cell, Truth};

/// The different values that rows have in a column. One is found among them by hash.
#[derive(Drop)]
pub struct ValueList<'t> {
    pub column: ColumnId,
    values: IndexSet<Cell<'t>>,
}

/// The different values at a place of the rows of a relation.
fn values_at<'t>(
    alloc: Global,
    relation: &Relation<'t>,
    place: Place,
) -> Result<IndexSet<Cell<'t>>, AllocError>
    ensures { (v : Value) → IfOk result (λ values. among v (map value_of values.keys) ≡ any_of (map (λ n. logic.compare by.Equal v (value_in (Some place) (row_at relation.now.rows.parts.items n))) (numbers_of relation.now))) }
{
    let column = relation.rows.column(place);
    let mut values = IndexSet::new(alloc);
    for number in 0..relation.rows.count {
        values.insert(column.cell(number))?;
    }
    Ok(values)
}

impl<'t> ValueList<'t> {
    /// The values that the rows of a relation have in a column; nothing where it stands in none of its rows.
    pub fn of_column(
        alloc: Global,
        relation: &Relation<'t>,
        column: ColumnId,
    ) -> Result<Option<ValueList<'t>>, AllocError>
        ensures { IfOk result (λ found. IfSome found (IsListed (rows_of relation.now))) }
    {
        match relation.heading.place_of(column) {
            Some(place) => {
                let values = values_at(alloc, relation, place)?;
                Ok(Some(ValueList { column, values }))
            }
            None => Ok(None),
        }
    }

    /// Whether a value equals one of them. Null neither equals a value nor differs from it.
    pub fn has(&self, cell: Cell<'_>) -> Truth
        ensures { result ≡ among (value_of cell.entry) (values_in self.now) }
    {
        if self.values.is_empty() {
            Truth::False
        } else if cell.is_null() {
            Truth::Unknown
        } else if self.values.contains(&cell) {
            Truth::True
        } else if self.values.contains(&Cell::Null) {
            Truth::Unknown
        } else {
            Truth::False
        }
    }
}
