//! A table of a database.

ghost use Rattle.std.specs.Prelude.{◌≡◌, IfSome};
ghost use Rattle.store.specs.NumberColumns.{AreNumbersOf};
ghost use Rattle.store.specs.TextColumns.{AreTextsOf};

use crate::columns::ColumnStore;
use crate::numbers::Numbers;
use crate::source::RowSource;
use crate::text_column::TextColumn;
use std::marker::Model;
use values::Cell;

/// A table, kept by columns and seen as its list of rows.
#[derive(Drop)]
pub struct Table {
    columns: ColumnStore,
}

impl Model for Table {
    ghost use Rattle.std.specs.Prelude.{List};
    ghost use Rattle.schema.specs.Databases.{Row};

    ghost Value = { List Row };

    ghost view = { λ t. t.columns.rows };
}

impl Table {
    pub(crate) fn new(columns: ColumnStore) -> Table
        ensures { result ≡ columns.rows }
    {
        Table { columns }
    }

    /// The numbers of a column, as they are kept; None where it has texts, or there is none.
    pub fn numbers(&self, column: usize) -> Option<Numbers<'_>>
        ensures { IfSome result (AreNumbersOf self.now column) }
    {
        self.columns.numbers(column)
    }

    /// The texts of a column, as they are kept; None where it has numbers, or there is none.
    pub fn texts(&self, column: usize) -> Option<TextColumn<'_>>
        ensures { IfSome result (AreTextsOf self.now column) }
    {
        self.columns.texts(column)
    }
}

impl RowSource for Table {
    ghost rows = { λ t. t };

    fn len(&self) -> usize {
        self.columns.len()
    }

    fn width(&self) -> usize {
        self.columns.width()
    }

    fn cell(&self, row: usize, column: usize) -> Cell<'_> {
        self.columns.cell(row, column)
    }
}
