//! The rows that a condition sees.

ghost use Rattle.std.specs.Prelude.{◌≡◌, ℕ, Some};
ghost use Rattle.values.specs.Cells.{value_of};
ghost use Rattle.relations.specs.Parts.{value_in};
ghost use Rattle.relations.specs.Relations.{env_of, numbered_env};
ghost use Rattle.relations.specs.Resolved.{inner_row};
ghost use Rattle.relations.specs.RowColumns.{column_value};

use crate::headings::Place;
use crate::relation::Relation;
use crate::row_columns::RowColumn;
use query::ColumnId;
use values::Cell;

/// The innermost row, by its number in a relation, and the environment around it.
#[derive(Clone, Copy)]
pub enum Env<'e, 't> {
    Empty,
    Inner(&'e Relation<'t>, usize, &'e Env<'e, 't>),
}

impl<'t> Env<'_, 't> {
    /// A column as the innermost row with it has it; Null where none has it.
    pub fn column(&self, column: ColumnId) -> Cell<'t>
        ensures { value_of result ≡ env_of self.now column }
    {
        match self {
            Env::Empty => Cell::Null,
            Env::Inner(relation, number, outer) => match relation.heading.place_of(column) {
                Some(place) => relation.rows.cell(*number, place),
                None => outer.column(column),
            },
        }
    }

    /// The cell at a place of the innermost row; Null where there is none.
    pub fn inner_cell(&self, place: Place) -> Cell<'t>
        ensures { value_of result ≡ value_in (Some place) (inner_row self.now) }
    {
        match self {
            Env::Empty => Cell::Null,
            Env::Inner(relation, number, _) => relation.rows.cell(*number, place),
        }
    }
}

/// A column of the row with a number, or of the environment around it.
pub fn row_cell<'t>(
    relation: &Relation<'t>,
    number: usize,
    env: &Env<'_, 't>,
    column: ColumnId,
) -> Cell<'t>
    ensures { value_of result ≡ numbered_env relation.now (env_of env.now) number column }
{
    Env::Inner(&*relation, number, &*env).column(column)
}

/// A column of all rows of a relation, or of the environment around them, looked up once.
pub fn row_column<'p, 't>(
    relation: &'p Relation<'t>,
    env: &Env<'_, 't>,
    column: ColumnId,
) -> RowColumn<'p, 't>
    ensures { (n : ℕ) → column_value result n ≡ numbered_env relation.entry.now (env_of env.now) n column }
{
    match relation.heading.place_of(column) {
        Some(place) => relation.rows.column(place),
        None => RowColumn::Known(env.column(column)),
    }
}
