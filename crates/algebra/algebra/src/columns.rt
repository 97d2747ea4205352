//! Sets of columns.

ghost use Rattle.std.specs.Prelude.{◌≡◌, ◌↔◌, ◌++◌, IsTrue, IfOk};
ghost use Rattle.std.specs.List.{range_with_len};
ghost use Rattle.algebra.specs.Equality.{same_columns};
ghost use Rattle.algebra.specs.Columns.{has, is_subset, are_disjoint, rising};
ghost use Rattle.std.specs.List.Sorted.{IsStrictlyIncreasing};

use query::ColumnId;
use query::ids::id_behind;
use std::alloc::{AllocError, Global};
use std::marker::Model;
use values::Items;

/// A set of column numbers, which contracts see as their strictly rising list.
#[derive(Drop)]
pub struct Columns {
    columns: Items<ColumnId>,
}

impl Model for Columns {
    ghost use Rattle.std.specs.Prelude.{ℕ, List};
    ghost use Rattle.std.specs.List.Sorted.{IsStrictlyIncreasing};

    ghost Value = { List ℕ };

    ghost view = { λ c. c.columns };

    ghost invariant = { λ c. IsStrictlyIncreasing c.columns };
}

impl Columns {
    /// The set of the columns of a list, in any order and with repeats.
    pub fn from_vec(columns: Vec<ColumnId>) -> Columns
        ensures { result ≡ rising columns.items }
    {
        Columns {
            columns: Items::from_vec(in_rising_order(columns)),
        }
    }

    /// So many columns from the first on. No query has columns past 32 bits; they are reported as out of
    /// memory.
    pub fn run(alloc: Global, first: ColumnId, count: usize) -> Result<Columns, AllocError>
        ensures { IfOk result (λ c. c ≡ range_with_len first count) }
    {
        let mut columns = Items::new(alloc);
        for place in 0..count {
            columns.push(id_behind(first, place)?)?;
        }
        Ok(Columns { columns })
    }

    /// The columns of two sets.
    pub fn union(&self, alloc: Global, other: &Columns) -> Result<Columns, AllocError>
        ensures { IfOk result (λ c. c ≡ rising (self.now ++ other.now)) }
    {
        let mut columns = Vec::new(alloc);
        columns.extend_from_slice(self.as_slice())?;
        columns.extend_from_slice(other.as_slice())?;
        // Two runs that rise, which this sort merges.
        columns.sort()?;
        Ok(Columns::from_vec(columns))
    }

    /// The column numbers, strictly rising.
    pub fn as_slice(&self) -> &[ColumnId]
        ensures columns { result.now ≡ self.now }
        ensures rising { IsStrictlyIncreasing self.now }
    {
        self.columns.as_slice()
    }

    pub fn contains(&self, column: ColumnId) -> bool
        ensures { result ≡ has self.now column }
    {
        self.as_slice().binary_search(&column).is_ok()
    }

    pub fn same(&self, other: &Columns) -> bool
        ensures equal { IsTrue result ↔ (self.now ≡ other.now) }
        ensures test { result ≡ same_columns self.now other.now }
    {
        self.as_slice() == other.as_slice()
    }

    pub fn copy(&self, alloc: Global) -> Result<Columns, AllocError>
        ensures { IfOk result (λ c. c ≡ self.now) }
    {
        Ok(Columns {
            columns: Items::from_slice(alloc, self.as_slice())?,
        })
    }
}

/// The numbers in rising order, each once.
pub(crate) fn in_rising_order(mut numbers: Vec<u32>) -> Vec<u32>
    ensures rising { result.items ≡ rising numbers.items }
    ensures increasing { IsStrictlyIncreasing result.items }
{
    numbers.sort_unstable();
    numbers.dedup();
    numbers
}

/// Whether each column of a list is in the set.
pub(crate) fn is_subset_of(columns: &[ColumnId], set: &Columns) -> bool
    ensures { result ≡ is_subset columns.now set.now }
{
    columns.iter().all(|c| set.contains(*c))
}

/// Whether no column of a list is in the set.
pub(crate) fn are_disjoint_from(columns: &[ColumnId], set: &Columns) -> bool
    ensures { result ≡ are_disjoint columns.now set.now }
{
    columns.iter().all(|c| !set.contains(*c))
}
