//! Rows by their values in columns.

ghost use Rattle.std.specs.Prelude.{◌≡◌, ◌++◌, ◌∷◌, ℕ, [], IfOk, OnOk};
ghost use Rattle.grouping.specs.Groups as spec;
ghost use Rattle.grouping.specs.KeyBuckets.{column_key, key_hash, same_in};
ghost use Rattle.grouping.specs.RowNumbers.{numbers_in};
ghost use Rattle.relations.specs.Parts.{row_at};

use crate::row_numbers::RowNumbers;
use joins::hash_behind;
use relations::{Place, RowColumn, Rows};
use std::alloc::{AllocError, Global};

/// The columns at some places of rows.
pub fn placed_columns<'p, 't>(
    alloc: Global,
    rows: &'p Rows<'t>,
    places: &[Place],
) -> Result<Vec<RowColumn<'p, 't>>, AllocError>
    ensures { (n : ℕ) → IfOk result (λ columns. column_key columns.items n ≡ spec.key_at places.now (row_at rows.entry.now.parts.items n)) }
{
    let mut columns = Vec::with_capacity(alloc, places.len())?;
    for place in places {
        columns.push(rows.column(*place))?;
    }
    Ok(columns)
}

/// Whether two rows have the same values in the columns.
pub fn are_same(columns: &[RowColumn<'_, '_>], one: usize, other: usize) -> bool
    ensures { result ≡ same_in columns.now one other }
{
    for column in columns {
        if column.cell(one) != column.cell(other) {
            return false;
        }
    }
    true
}

/// What the values of a row in the columns hash to.
pub fn row_hash(columns: &[RowColumn<'_, '_>], row: usize) -> u32
    ensures { result ≡ key_hash (column_key columns.now row) }
{
    let mut hash = 0;
    for column in columns {
        hash = match hash_behind(hash, column.cell(row)) {
            Some(more) => more,
            None => hash,
        };
    }
    (hash / 4294967296) as u32
}

/// The number of the row that was seen first in each group, and the number of each row's group.
#[derive(Drop)]
pub struct GroupNumbers {
    pub firsts: RowNumbers,
    pub numbers: RowNumbers,
}

impl GroupNumbers {
    /// Adds the row that comes next: to the group with this number, or as the first of a new one.
    pub fn add(&mut self, alloc: Global, row: usize, group: usize) -> Result<(), AllocError>
        ensures firsts { OnOk result (numbers_in self.new.firsts ≡ spec.with_founder (numbers_in self.old.firsts) group row) }
        ensures numbers { OnOk result (numbers_in self.new.numbers ≡ numbers_in self.old.numbers ++ group ∷ []) }
    {
        if self.firsts.len() <= group {
            self.firsts.push(alloc, row)?;
        }
        self.numbers.push(alloc, group)?;
        Ok(())
    }
}
