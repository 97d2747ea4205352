//! A row that is lent.

ghost use Rattle.std.specs.Prelude.{◌≡◌, ◌∷◌, [], length};
ghost use Rattle.values.specs.Cells.{value_of};
ghost use Rattle.query.specs.Rows.{value_at};

use relations::{Place, Rows};
use std::marker::Model;
use store::RowSource;
use values::Cell;

/// A row of a cursor. It lends its cells from the tables.
#[derive(Drop)]
pub struct LentRow<'r, 't> {
    pub(crate) rows: &'r Rows<'t>,
    pub(crate) places: &'r [Option<Place>],
    pub(crate) number: usize,
}

impl<'r, 't> Model for LentRow<'r, 't> {
    ghost use Rattle.schema.specs.Databases.{Row};
    ghost use Rattle.cursors.specs.Shown.{shown_row};

    ghost Value = { Row };

    ghost view = { λ r. shown_row r.rows.now r.places.now r.number };
}

impl<'t> LentRow<'_, 't> {
    /// How many columns it has.
    pub fn len(&self) -> usize
        ensures { result ≡ length self.now }
    {
        self.places.len()
    }

    /// The cell in a column by its place; Null past the end.
    pub fn cell(&self, place: usize) -> Cell<'t>
        ensures { value_of result ≡ value_at place self.now }
    {
        match self.places.get(place) {
            Some(Some(place)) => self.rows.cell(self.number, *place),
            Some(None) => Cell::Null,
            None => Cell::Null,
        }
    }
}

/// A list of this row alone, for those who read rows.
impl RowSource for LentRow<'_, '_> {
    ghost rows = { λ r. r ∷ [] };

    fn len(&self) -> usize {
        1
    }

    fn width(&self) -> usize {
        LentRow::len(self)
    }

    fn cell(&self, _row: usize, column: usize) -> Cell<'_> {
        LentRow::cell(self, column)
    }
}
