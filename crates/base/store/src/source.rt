//! A table as a list of rows.

ghost use Rattle.std.specs.Prelude.{◌≡◌, ◌<◌, List, [], length, slice_index_or};
ghost use Rattle.values.specs.Cells.{value_of};
ghost use Rattle.values.specs.declared.value.Value.TheVariants as value;
ghost use Rattle.schema.specs.Databases.{Row};
ghost use Rattle.schema.specs.Databases.{HaveWidth};

use values::Cell;

/// A table as a list of rows, whichever way it is kept. Cells lend their texts from it.
pub trait RowSource {
    ghost rows: { Self → List Row };

    fn len(&self) -> usize
        ensures { result ≡ length (rows self.now) };

    fn width(&self) -> usize
        ensures { HaveWidth result (rows self.now) };

    fn cell(&self, row: usize, column: usize) -> Cell<'_>
        requires row { row < length (rows self.now) }
        requires column { column < length (slice_index_or (rows self.now) row []) }
        ensures { value_of result ≡ slice_index_or (slice_index_or (rows self.now) row []) column value.Null };
}
