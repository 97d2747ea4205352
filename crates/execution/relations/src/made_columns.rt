//! Columns of values that an operator made.

ghost use Rattle.std.specs.Prelude.{◌≡◌, ◌<◌, ◌++◌, ◌∷◌, [], length, map, set, slice_index_or, IfOk, IfSome, OnOk};
ghost use Rattle.values.specs.Cells.{value_of};
ghost use Rattle.values.specs.declared.value.Value.TheVariants as value;
ghost use Rattle.relations.specs.MadeColumns.{made_values, marked_value};

use std::alloc::{AllocError, Global};
use values::Cell;

/// What stands for Null among numbers.
const NULL_MARK: i64 = -9_223_372_036_854_775_808;

/// Values one after the other. While they are numbers of 64 bits and Nulls they take 8 bytes each, the least of these numbers standing for
/// Null; where another one comes, all are kept as cells.
#[derive(Drop)]
pub enum MadeColumn<'t> {
    Marked(Vec<i64>),
    Cells(Vec<Cell<'t>>),
}

/// The cell that a number stands for.
fn marked_cell<'t>(number: i64) -> Cell<'t>
    ensures { value_of result ≡ marked_value number }
{
    if number == NULL_MARK {
        Cell::Null
    } else {
        Cell::Int(i128::from(number))
    }
}

/// The number that stands for a cell; none for a text or a number that is no mark.
fn mark_of(cell: Cell<'_>) -> Option<i64>
    ensures { IfSome result (λ number. marked_value number ≡ value_of cell.entry) }
{
    match cell {
        Cell::Null => Some(NULL_MARK),
        Cell::Int(number) => match i64::try_from(number) {
            Ok(short) => if short == NULL_MARK {
                None
            } else {
                Some(short)
            },
            Err(_) => None,
        },
        Cell::Text(_) => None,
    }
}

/// The cells that numbers stand for, with room for one more.
fn cells_of<'t>(alloc: Global, numbers: &[i64]) -> Result<Vec<Cell<'t>>, AllocError>
    ensures { IfOk result (λ cells. map value_of cells.items ≡ map marked_value numbers.now) }
{
    let mut cells = Vec::with_capacity(alloc, numbers.len())?;
    for number in numbers {
        cells.push(marked_cell(*number))?;
    }
    Ok(cells)
}

impl<'t> MadeColumn<'t> {
    /// Of no values.
    pub fn new(alloc: Global) -> MadeColumn<'t>
        ensures { made_values result ≡ [] }
    {
        MadeColumn::Marked(Vec::new(alloc))
    }

    /// Of no values, with room for so many numbers.
    pub fn with_capacity(alloc: Global, capacity: usize) -> Result<MadeColumn<'t>, AllocError>
        ensures { IfOk result (λ column. made_values column ≡ []) }
    {
        Ok(MadeColumn::Marked(Vec::with_capacity(alloc, capacity)?))
    }

    pub fn len(&self) -> usize
        ensures { result ≡ length (made_values self.now) }
    {
        match self {
            MadeColumn::Marked(numbers) => numbers.len(),
            MadeColumn::Cells(cells) => cells.len(),
        }
    }

    /// The cell at a place; Null past the end.
    pub fn cell(&self, at: usize) -> Cell<'t>
        ensures { value_of result ≡ slice_index_or (made_values self.now) at value.Null }
    {
        match self {
            MadeColumn::Marked(numbers) => match numbers.get(at) {
                Some(number) => marked_cell(*number),
                None => Cell::Null,
            },
            MadeColumn::Cells(cells) => match cells.get(at) {
                Some(cell) => *cell,
                None => Cell::Null,
            },
        }
    }

    /// Puts a value behind the others.
    pub fn push(&mut self, alloc: Global, cell: Cell<'t>) -> Result<(), AllocError>
        ensures { OnOk result (made_values self.new ≡ made_values self.old ++ value_of cell.entry ∷ []) }
    {
        match self {
            MadeColumn::Marked(numbers) => match mark_of(cell) {
                Some(number) => Ok(numbers.push(number)?),
                None => {
                    let mut cells = cells_of(alloc, numbers.as_slice())?;
                    cells.push(cell)?;
                    *self = MadeColumn::Cells(cells);
                    Ok(())
                }
            },
            MadeColumn::Cells(cells) => Ok(cells.push(cell)?),
        }
    }

    /// Puts a value in the place of another.
    pub fn set(&mut self, alloc: Global, at: usize, cell: Cell<'t>) -> Result<(), AllocError>
        requires { at < length (made_values self.old) }
        ensures { OnOk result (made_values self.new ≡ set (made_values self.old) at (value_of cell.entry)) }
    {
        match self {
            MadeColumn::Marked(numbers) => match mark_of(cell) {
                Some(number) => numbers[at] = number,
                None => {
                    let mut cells = cells_of(alloc, numbers.as_slice())?;
                    cells[at] = cell;
                    *self = MadeColumn::Cells(cells);
                }
            },
            MadeColumn::Cells(cells) => cells[at] = cell,
        }
        Ok(())
    }

    pub fn copy(&self, alloc: Global) -> Result<MadeColumn<'t>, AllocError>
        ensures { IfOk result (λ copy. made_values copy ≡ made_values self.now) }
    {
        match self {
            MadeColumn::Marked(numbers) => {
                let mut copy = Vec::with_capacity(alloc, numbers.len())?;
                copy.extend_from_slice(numbers.as_slice())?;
                Ok(MadeColumn::Marked(copy))
            }
            MadeColumn::Cells(cells) => {
                let mut copy = Vec::with_capacity(alloc, cells.len())?;
                copy.extend_from_slice(cells.as_slice())?;
                Ok(MadeColumn::Cells(copy))
            }
        }
    }
}
