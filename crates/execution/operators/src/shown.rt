//! The rows of an answer.

ghost use Rattle.std.specs.Prelude.{◌≡◌, ◌<◌, length, map, slice_index_or, [], None, IfOk};
ghost use Rattle.algebra.specs.Bags.{nulls};
ghost use Rattle.relations.specs.Relations.{rows_of};

use query::ColumnId;
use relations::{Place, Relation, Rows};
use std::alloc::{AllocError, Global};
use std::marker::Model;
use store::RowSource;
use values::{Cell, Items, Value};

/// A row with values of its own.
pub type Row = Items<Value>;

/// The rows that a plan produced, in the columns that were asked. They lend their cells.
#[derive(Drop)]
pub struct FoundRows<'t> {
    rows: Rows<'t>,
    /// The place of each column; none where the rows lack it, and it is Null.
    places: Items<Option<Place>>,
}

impl<'t> Model for FoundRows<'t> {
    ghost use Rattle.std.specs.Prelude.{List};
    ghost use Rattle.schema.specs.Databases.{Row};
    ghost use Rattle.operators.specs.Shown.{shown_rows};

    ghost Value = { List Row };

    ghost view = { λ f. shown_rows f.rows f.places };
}

impl<'t> FoundRows<'t> {
    /// The columns of each row.
    pub(crate) fn new(
        alloc: Global,
        columns: &[ColumnId],
        found: Relation<'t>,
    ) -> Result<FoundRows<'t>, AllocError>
        ensures { IfOk result (λ shown. shown ≡ map (λ r. map r columns.now) (rows_of found.entry nulls)) }
    {
        let Relation { heading, rows } = found;
        let mut places = Vec::with_capacity(alloc, columns.len())?;
        for column in columns {
            places.push(heading.place_of(*column))?;
        }
        Ok(FoundRows {
            rows,
            places: Items::from_vec(places),
        })
    }
}

fn place_at(places: &[Option<Place>], column: usize) -> Option<Place>
    requires { column < length places.now }
    ensures { result ≡ slice_index_or places.now column None }
{
    places[column]
}

impl RowSource for FoundRows<'_> {
    ghost rows = { λ f. f };

    fn len(&self) -> usize {
        self.rows.count
    }

    fn width(&self) -> usize {
        self.places.len()
    }

    fn cell(&self, row: usize, column: usize) -> Cell<'_> {
        match place_at(self.places.as_slice(), column) {
            Some(place) => self.rows.cell(row, place),
            None => Cell::Null,
        }
    }
}

/// A row with values of its own.
fn owned_row(alloc: Global, found: &FoundRows<'_>, number: usize) -> Result<Row, AllocError>
    requires { number < length found.now }
    ensures { IfOk result (λ row. row ≡ slice_index_or found.now number []) }
{
    let mut values = Vec::with_capacity(alloc, found.width())?;
    for item in 0..found.width() {
        values.push(found.cell(number, item).to_value(alloc)?)?;
    }
    Ok(Items::from_vec(values))
}

/// The rows with values of their own.
pub fn owned_rows(alloc: Global, found: &FoundRows<'_>) -> Result<Vec<Row>, AllocError>
    ensures { IfOk result (λ rows. rows.items ≡ found.now) }
{
    let mut rows = Vec::with_capacity(alloc, found.len())?;
    for number in 0..found.len() {
        rows.push(owned_row(alloc, found, number)?)?;
    }
    Ok(rows)
}
