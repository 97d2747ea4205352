//! Parts of rows: rows of one source, by their numbers.

ghost use Rattle.std.specs.Prelude.{◌≡◌, ℕ, List, ◌∷◌, [], length, map, slice_index_or, IfOk, IfSome};
ghost use Rattle.values.specs.Cells.{value_of};
ghost use Rattle.schema.specs.Databases.{Row};
ghost use Rattle.query.specs.Rows.{value_at};
ghost use Rattle.relations.specs.MadeColumns.{made_rows};
ghost use Rattle.relations.specs.Parts.{cell_rows, numbered_rows, source_rows};
ghost use Rattle.relations.specs.RowColumns.{column_value, number_value};

use crate::made_columns::MadeColumn;
use crate::number_column::NumberColumn;
use crate::row_columns::RowColumn;
use std::alloc::{AllocError, Global};
use std::marker::Model;
use store::{RowCells, RowSource, Table};
use values::{Cell, Items};

/// Where the rows of a part come from.
#[derive(Drop)]
pub enum Source<'t> {
    Stored(&'t Table),
    /// Values that an operator made, each of them a row.
    Made(MadeColumn<'t>),
}

impl<'t> Source<'t> {
    fn len(&self) -> usize
        ensures { result ≡ length (source_rows self.now) }
    {
        match self {
            Source::Stored(table) => table.len(),
            Source::Made(column) => column.len(),
        }
    }

    /// The cell at a place of a row; Null where there is none.
    fn cell(&self, row: usize, at: usize) -> Cell<'t>
        ensures { value_of result ≡ value_at at (slice_index_or (source_rows self.now) row []) }
    {
        match self {
            Source::Stored(table) => RowCells::Stored(table, row).cell(at),
            Source::Made(column) => made_cell(column.cell(row), at),
        }
    }
}

impl<'t> Source<'t> {
    /// The rows with these numbers.
    fn part_of(&self, alloc: Global, numbers: Items<usize>) -> Result<Part<'t>, AllocError>
        ensures { IfOk result (λ part. part ≡ map (λ n. slice_index_or (source_rows self.now) n []) numbers) }
    {
        match self {
            Source::Stored(table) => Ok(Part {
                source: Source::Stored(*table),
                numbers: Some(numbers),
            }),
            Source::Made(column) => {
                let (copies, places) = copied(alloc, column, numbers.as_slice())?;
                Ok(Part {
                    source: Source::Made(copies),
                    numbers: Some(Items::from_vec(places)),
                })
            }
        }
    }
}

/// The cell of a row that has it alone.
fn made_cell<'t>(cell: Cell<'t>, at: usize) -> Cell<'t>
    ensures { value_of result ≡ value_at at (value_of cell.entry ∷ []) }
{
    if at == 0 { cell } else { Cell::Null }
}

/// Of some values those with these numbers, and the place of each among them; past the end there is none.
fn copied<'t>(
    alloc: Global,
    column: &MadeColumn<'t>,
    numbers: &[usize],
) -> Result<(MadeColumn<'t>, Vec<usize>), AllocError>
    ensures { IfOk result (λ p. map (λ n. slice_index_or (made_rows p.0) n []) p.1.items ≡ map (λ n. slice_index_or (made_rows column.now) n []) numbers.now) }
{
    let mut copies = MadeColumn::with_capacity(alloc, numbers.len())?;
    let mut places = Vec::with_capacity(alloc, numbers.len())?;
    for number in numbers {
        if *number < column.len() {
            places.push(copies.len())?;
            copies.push(alloc, column.cell(*number))?;
        } else {
            places.push(numbers.len())?;
        }
    }
    Ok((copies, places))
}

/// Rows of one source: all of them in their order, or those with some numbers.
#[derive(Drop)]
pub struct Part<'t> {
    source: Source<'t>,
    numbers: Option<Items<usize>>,
}

impl<'t> Model for Part<'t> {
    ghost use Rattle.std.specs.Prelude.{List};
    ghost use Rattle.schema.specs.Databases.{Row};
    ghost use Rattle.relations.specs.Parts.{numbered_rows, source_rows};

    ghost Value = { List Row };

    ghost view = { λ p. numbered_rows (source_rows p.source) p.numbers };
}

/// The rows that some numbers among earlier ones name; `none` past these.
fn composed(
    alloc: Global,
    earlier: &[usize],
    numbers: &[usize],
    none: usize,
) -> Result<Vec<usize>, AllocError>
    ensures { IfOk result (λ all. all.items ≡ map (λ n. slice_index_or earlier.now n none) numbers.now) }
{
    let mut all = Vec::with_capacity(alloc, numbers.len())?;
    for number in numbers {
        all.push(number_at(earlier, *number, none))?;
    }
    Ok(all)
}

/// The numbers in the source of the rows with these numbers in a part; `none` past its end.
fn renumbered(
    alloc: Global,
    earlier: &Option<Items<usize>>,
    numbers: &[usize],
    none: usize,
) -> Result<Items<usize>, AllocError>
    ensures { (rows : List Row) → length rows ≡ none → IfOk result (λ all. map (λ n. slice_index_or rows n []) all ≡ map (λ n. slice_index_or (numbered_rows rows earlier.now) n []) numbers.now) }
{
    match earlier {
        None => Items::from_slice(alloc, numbers),
        Some(earlier) => {
            let all = composed(alloc, earlier.as_slice(), numbers, none)?;
            Ok(Items::from_vec(all))
        }
    }
}

fn number_at(numbers: &[usize], at: usize, none: usize) -> usize
    ensures { result ≡ slice_index_or numbers.now at none }
{
    match numbers.get(at) {
        Some(number) => *number,
        None => none,
    }
}

impl<'t> Part<'t> {
    /// All rows of a table.
    pub fn of_table(table: &'t Table) -> Part<'t>
        ensures { result ≡ table.entry.now }
    {
        Part {
            source: Source::Stored(table),
            numbers: None,
        }
    }

    /// A row of each cell.
    pub fn made(cells: Vec<Cell<'t>>) -> Part<'t>
        ensures { result ≡ cell_rows cells.entry.items }
    {
        Part::of_column(MadeColumn::Cells(cells))
    }

    /// A row of each value.
    pub fn of_column(column: MadeColumn<'t>) -> Part<'t>
        ensures { result ≡ made_rows column.entry }
    {
        Part {
            source: Source::Made(column),
            numbers: None,
        }
    }

    pub fn len(&self) -> usize
        ensures { result ≡ length self.now }
    {
        match &self.numbers {
            None => self.source.len(),
            Some(numbers) => numbers.len(),
        }
    }

    /// The cell at a place of the row with a number; Null where there is none.
    pub fn cell(&self, number: usize, at: usize) -> Cell<'t>
        ensures { value_of result ≡ value_at at (slice_index_or self.now number []) }
    {
        match &self.numbers {
            None => self.source.cell(number, at),
            Some(numbers) => match numbers.as_slice().get(number) {
                Some(row) => self.source.cell(*row, at),
                None => Cell::Null,
            },
        }
    }

    /// The numbers of a place of the rows, where a table lends them.
    fn number_column(&self, at: usize) -> Option<NumberColumn<'_>>
        ensures { IfSome result (λ c. (n : ℕ) → number_value c n ≡ value_at at (slice_index_or self.now n [])) }
    {
        let Source::Stored(table) = &self.source else {
            return None;
        };
        let numbers = table.numbers(at)?;
        let rows = match &self.numbers {
            None => None,
            Some(rows) => Some(rows.as_slice()),
        };
        Some(NumberColumn { numbers, rows })
    }

    /// A place of the rows, looked up once.
    pub fn column(&self, at: usize) -> RowColumn<'_, 't>
        ensures { (n : ℕ) → column_value result n ≡ value_at at (slice_index_or self.now n []) }
    {
        match self.number_column(at) {
            Some(column) => RowColumn::Numbers(column),
            None => RowColumn::Placed(&*self, at),
        }
    }

    /// The rows with these numbers; past the end of this part they have no value.
    pub fn chosen(self, alloc: Global, numbers: &[usize]) -> Result<Part<'t>, AllocError>
        ensures { IfOk result (λ part. part ≡ map (λ n. slice_index_or self.entry n []) numbers.now) }
    {
        let Part {
            source,
            numbers: earlier,
        } = self;
        let numbers = renumbered(alloc, &earlier, numbers, source.len())?;
        Ok(Part {
            source,
            numbers: Some(numbers),
        })
    }

    /// The same, and this part stays. Of cells that were made it has copies.
    pub fn picked(&self, alloc: Global, numbers: &[usize]) -> Result<Part<'t>, AllocError>
        ensures { IfOk result (λ part. part ≡ map (λ n. slice_index_or self.now n []) numbers.now) }
    {
        let numbers = renumbered(alloc, &self.numbers, numbers, self.source.len())?;
        self.source.part_of(alloc, numbers)
    }
}
