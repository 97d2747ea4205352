//! The numbers of the columns that a condition sees.

ghost use Rattle.std.specs.Prelude.{◌≡◌, [], slice_index_or, IfOk};
ghost use Rattle.query.specs.Bound as bound;
ghost use Rattle.frame.specs.Lent.{scope_of};

use query::ids::id_behind;
use query::{Column, ColumnId, TableInstance, TableReference};
use std::alloc::{AllocError, Global};

/// The numbers of the innermost row's columns, and the scope around them.
#[derive(Clone, Copy)]
pub enum Scope<'a> {
    Outermost,
    Inner(&'a [ColumnId], &'a Scope<'a>),
}

/// The number of the column at a place.
pub fn number_at(numbers: &[ColumnId], place: usize) -> ColumnId
    ensures { result ≡ bound.number_at numbers.now place }
{
    match numbers.get(place) {
        Some(number) => *number,
        None => 0,
    }
}

/// The numbers of a table instance's columns.
pub fn instance_numbers(
    alloc: Global,
    instances: &[TableInstance],
    reference: TableReference,
) -> Result<Vec<ColumnId>, AllocError>
    ensures { IfOk result (λ numbers. numbers.items ≡ bound.instance_numbers instances.now reference) }
{
    let mut numbers = Vec::new(alloc);
    let Some(table) = instances.get(reference.number as usize) else {
        return Ok(numbers);
    };
    for place in 0..table.entry.columns.len() {
        numbers.push(id_behind(table.first_column, place)?)?;
    }
    Ok(numbers)
}

impl<'a> Scope<'a> {
    /// The column numbers of the row at a level; none where there is no row.
    pub fn row(&self, level: usize) -> &'a [ColumnId]
        ensures { result.now ≡ slice_index_or (scope_of self.now) level [] }
    {
        match self {
            Scope::Outermost => &[],
            Scope::Inner(numbers, outer) => if level == 0 {
                numbers
            } else {
                outer.row(level - 1)
            },
        }
    }

    pub fn number(&self, column: Column) -> ColumnId
        ensures { result ≡ bound.number (scope_of self.now) column }
    {
        number_at(self.row(column.level), column.place)
    }
}
