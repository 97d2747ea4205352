//! What is known of the rows of a plan.

ghost use Rattle.std.specs.Prelude.{◌≡◌, slice_get, IfOk};
ghost use Rattle.query.specs.Rows.{Tables};
ghost use Rattle.algebra.specs.Expressions.{get_columns, get_rows};
ghost use Rattle.physical.specs.Indexes.{accessed_columns, accessed_rows};
ghost use Rattle.plan_reads.specs.Readings.{IsReading, also_reading, beside, input_at, no_reading};

use algebra::Columns;
use query::{ColumnId, InstanceId, TableInstance};
use std::alloc::{AllocError, Global};

/// Rows have these columns, and depend on the environment in the free columns alone.
#[derive(Drop)]
pub(crate) struct Reading {
    pub columns: Columns,
    pub free: Columns,
}

impl Reading {
    /// No rows.
    pub fn none(alloc: Global) -> Reading
        ensures { result ≡ no_reading }
    {
        Reading {
            columns: Columns::from_vec(Vec::new(alloc)),
            free: Columns::from_vec(Vec::new(alloc)),
        }
    }

    /// The rows of a table instance.
    pub fn of_instance(
        alloc: Global,
        instances: &[TableInstance],
        instance: InstanceId,
    ) -> Result<Reading, AllocError>
        ensures { (D : Tables) → IfOk result (IsReading (get_columns (slice_get instances.now instance)) (get_rows (slice_get instances.now instance) D)) }
    {
        Ok(Reading {
            columns: Columns::of_instance(alloc, instances, instance)?,
            free: Columns::from_vec(Vec::new(alloc)),
        })
    }

    pub fn copy(&self, alloc: Global) -> Result<Reading, AllocError>
        ensures { IfOk result (λ r. r ≡ self.now) }
    {
        Ok(Reading {
            columns: self.columns.copy(alloc)?,
            free: self.free.copy(alloc)?,
        })
    }

    /// The same rows, of which these columns are read: those that they lack are free too.
    pub fn also_reading(self, alloc: Global, read: &[ColumnId]) -> Result<Reading, AllocError>
        ensures { IfOk result (λ r. r ≡ also_reading self read.now) }
    {
        let mut free = Vec::new(alloc);
        free.extend_from_slice(self.free.as_slice())?;
        for column in read {
            if !self.columns.contains(*column) {
                free.push(*column)?;
            }
        }
        Ok(Reading {
            columns: self.columns,
            free: Columns::from_vec(free),
        })
    }

    /// The columns of both, and what either reads.
    pub fn beside(&self, alloc: Global, other: &Reading) -> Result<Reading, AllocError>
        ensures { IfOk result (λ r. r ≡ beside self.now other.now) }
    {
        Ok(Reading {
            columns: self.columns.union(alloc, &other.columns)?,
            free: self.free.union(alloc, &other.free)?,
        })
    }
}

/// What is known of an input's rows; an input that isn't there has none.
pub(crate) fn input_reading(
    alloc: Global,
    inputs: &[Reading],
    number: usize,
) -> Result<Reading, AllocError>
    ensures { IfOk result (λ r. r ≡ input_at inputs.now number) }
{
    match inputs.get(number) {
        Some(reading) => reading.copy(alloc),
        None => Ok(Reading::none(alloc)),
    }
}
