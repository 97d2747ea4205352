//! The columns of table instances and of groups.

ghost use Rattle.std.specs.Prelude.{◌≡◌, ◌++◌, slice_get, IfOk};
ghost use Rattle.algebra.specs.Columns.{rising};
ghost use Rattle.algebra.specs.Expressions as spec;

use crate::columns::Columns;
use crate::expr::Aggregation;
use query::{InstanceId, TableInstance};
use std::alloc::{AllocError, Global};

impl Columns {
    /// The columns of a table instance of the list; none where the list has no instance of this number.
    pub fn of_instance(
        alloc: Global,
        instances: &[TableInstance],
        instance: InstanceId,
    ) -> Result<Columns, AllocError>
        ensures { IfOk result (λ columns. columns ≡ spec.get_columns (slice_get instances.now instance)) }
    {
        match instances.get(instance as usize) {
            Some(table) => Columns::run(alloc, table.first_column, table.entry.columns.len()),
            None => Columns::run(alloc, 0, 0),
        }
    }

    /// The columns of a group's rows: those of its keys and of its aggregates.
    pub fn of_groups(
        alloc: Global,
        keys: &Columns,
        added: &[Aggregation],
    ) -> Result<Columns, AllocError>
        ensures { IfOk result (λ columns. columns ≡ rising (keys.now ++ spec.aggregate_columns added.now)) }
    {
        let mut columns = Vec::new(alloc);
        columns.extend_from_slice(keys.as_slice())?;
        for aggregation in added {
            columns.push(aggregation.column)?;
        }
        Ok(Columns::from_vec(columns))
    }
}
