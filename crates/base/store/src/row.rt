//! A row as its cells.

ghost use Rattle.std.specs.Prelude.{◌≡◌, [], slice_index_or};
ghost use Rattle.values.specs.Cells.{value_of};
ghost use Rattle.values.specs.declared.value.Value.TheVariants as value;
ghost use Rattle.store.specs.RowCells.{row_of};

use crate::source::RowSource;
use crate::table::Table;
use values::Cell;

/// The cells of a row that stays where it is: in a table, or in a list of them.
#[derive(Clone, Copy)]
pub enum RowCells<'a, 't> {
    Stored(&'t Table, usize),
    Made(&'a [Cell<'t>]),
}

/// A table's cell; Null where it has none.
fn table_cell<'t>(table: &'t Table, row: usize, place: usize) -> Cell<'t>
    ensures { value_of result ≡ slice_index_or (slice_index_or table.entry.now row []) place value.Null }
{
    if row < table.len() && place < table.width() {
        table.cell(row, place)
    } else {
        Cell::Null
    }
}

impl<'t> RowCells<'_, 't> {
    /// The cell at a place; Null where there is none.
    pub fn cell(self, place: usize) -> Cell<'t>
        ensures { value_of result ≡ slice_index_or (row_of self.entry) place value.Null }
    {
        match self {
            RowCells::Stored(table, row) => table_cell(table, row, place),
            RowCells::Made(cells) => match cells.get(place) {
                Some(cell) => *cell,
                None => Cell::Null,
            },
        }
    }
}
