//! The aggregates of a group's rows.

ghost use Rattle.std.specs.Prelude.{◌≡◌, IfOk};
ghost use Rattle.query.specs.Aggregates as spec;
ghost use Rattle.oracle.specs.Given.{rows_at};

use crate::environment::value_at;
use crate::rows::Row;
use query::Aggregate;
use query::aggregates::{Running, column_of};
use std::alloc::{AllocError, Global};
use values::Value;

/// An aggregate of a group's rows.
pub fn aggregate(alloc: Global, of: Aggregate, rows: &[&Row]) -> Result<Value, AllocError>
    requires { spec.AreShort (rows_at rows.now) }
    ensures { IfOk result (λ v. v ≡ spec.aggregate of (rows_at rows.now)) }
{
    let mut running = Running::new(of);
    for row in rows {
        running.add(value_at(row.as_slice(), column_of(of) as usize));
    }
    running.value().to_value(alloc)
}
