//! Columns that are looked up once for many rows.

ghost use Rattle.std.specs.Prelude.{◌≡◌, length};
ghost use Rattle.values.specs.Cells.{value_of};
ghost use Rattle.store.specs.NumberColumns.{number_at};
ghost use Rattle.relations.specs.RowColumns.{column_value, int_or_null, number_value};

use crate::number_column::NumberColumn;
use crate::parts::Part;
use store::Numbers;
use values::Cell;

/// The number in a row of a table, if it is there and not Null.
#[inline(always)]
fn known_number(numbers: Numbers<'_>, row: usize) -> Option<i64>
    requires { length numbers.numbers.now ≡ length numbers.known.now }
    ensures { int_or_null result ≡ number_at numbers.entry row }
{
    if row < numbers.known.len() && numbers.known[row] {
        Some(numbers.numbers[row])
    } else {
        None
    }
}

impl NumberColumn<'_> {
    /// The number at a row; None where Null stands there, and past the end.
    #[inline(always)]
    pub fn number(self, row: usize) -> Option<i64>
        ensures { int_or_null result ≡ number_value self.entry row }
    {
        match self.rows {
            None => known_number(self.numbers, row),
            Some(rows) => match rows.get(row) {
                Some(row) => known_number(self.numbers, *row),
                None => None,
            },
        }
    }
}

/// A column at the rows of a relation.
#[derive(Clone, Copy)]
pub enum RowColumn<'p, 't> {
    /// The same at all rows.
    Known(Cell<'t>),
    Numbers(NumberColumn<'p>),
    /// At this place of a part's rows.
    Placed(&'p Part<'t>, usize),
}

impl<'t> RowColumn<'_, 't> {
    #[inline(always)]
    pub fn cell(self, row: usize) -> Cell<'t>
        ensures { value_of result ≡ column_value self.entry row }
    {
        match self {
            RowColumn::Known(cell) => cell,
            RowColumn::Numbers(column) => number_cell(column.number(row)),
            RowColumn::Placed(part, place) => part.cell(row, place),
        }
    }
}

#[inline(always)]
fn number_cell<'t>(number: Option<i64>) -> Cell<'t>
    ensures { value_of result ≡ int_or_null number }
{
    match number {
        Some(number) => Cell::Int(i128::from(number)),
        None => Cell::Null,
    }
}
