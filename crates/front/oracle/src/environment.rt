//! The rows that a condition sees.

ghost use Rattle.std.specs.Prelude.{◌≡◌, [], slice_index_or};
ghost use Rattle.values.specs.Cells.{value_of};
ghost use Rattle.query.specs.Rows as spec;
ghost use Rattle.oracle.specs.Given.{env_of};

use query::{Column, Term};
use values::{Cell, Value};

/// The innermost row, and the environment around it.
#[derive(Clone, Copy)]
pub enum Env<'a> {
    Empty,
    Inner(&'a [Value], &'a Env<'a>),
}

/// A row's value at a place; Null where it has none.
pub fn value_at(row: &[Value], place: usize) -> Cell<'_>
    ensures { value_of result ≡ spec.value_at place row.now }
{
    match row.get(place) {
        Some(value) => value.as_cell(),
        None => Cell::Null,
    }
}

impl<'a> Env<'a> {
    /// The row at a level; no values where there is none.
    pub fn row(&self, level: usize) -> &'a [Value]
        ensures { result.now ≡ slice_index_or (env_of self.now) level [] }
    {
        match self {
            Env::Empty => &[],
            Env::Inner(row, outer) => if level == 0 {
                row
            } else {
                outer.row(level - 1)
            },
        }
    }

    pub fn column(&self, column: Column) -> Cell<'a>
        ensures { value_of result ≡ spec.column column (env_of self.now) }
    {
        value_at(self.row(column.level), column.place)
    }

    pub fn term(&self, term: &'a Term) -> Cell<'a>
        ensures { value_of result ≡ spec.term_value term.entry.now (env_of self.now) }
    {
        match term {
            Term::Column(column) => self.column(*column),
            Term::Literal(value) => value.as_cell(),
        }
    }
}
