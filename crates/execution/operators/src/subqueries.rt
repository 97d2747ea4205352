//! What the inputs of a filter by subqueries read of a row, and in which order the rows are best asked.

ghost use Rattle.std.specs.Prelude.{◌≡◌, map, IfOk, IsPermutation};
ghost use Rattle.query.specs.Rows.{Tables};
ghost use Rattle.algebra.specs.Bags as bags;
ghost use Rattle.operators.specs.RowReadings.{AreReadings};
ghost use Rattle.physical.specs.Outputs as outputs;
ghost use Rattle.relations.specs.Relations.{env_of, numbers_of};

use crate::sorting::numbers_in_order;
use algebra::Columns;
use physical::{OrderKey, Plan};
use plan_reads::free_columns;
use query::TableInstance;
use relations::{Env, Relation};
use std::alloc::{AllocError, Global};
use values::same;

/// For each plan the columns of its environment that its rows depend on.
pub(crate) fn read_columns(
    alloc: Global,
    instances: &[TableInstance],
    plans: &[Plan],
) -> Result<Vec<Columns>, AllocError>
    ensures { (D : Tables) → IfOk result (λ reads. AreReadings (map (outputs.plan_output instances.now D) plans.now) reads.items) }
{
    let mut reads = Vec::with_capacity(alloc, plans.len())?;
    for plan in plans {
        reads.push(free_columns(alloc, instances, plan)?)?;
    }
    Ok(reads)
}

/// Whether two environments have the same values in some columns.
pub(crate) fn reads_same(columns: &Columns, a: &Env<'_, '_>, b: &Env<'_, '_>) -> bool
    ensures { result ≡ bags.same_on columns.now (env_of a.now) (env_of b.now) }
{
    for column in columns.as_slice() {
        if !same(a.column(*column), b.column(*column)) {
            return false;
        }
    }
    true
}

/// The columns of the rows among those that are read. The others are the same at all rows.
fn reading_keys(
    alloc: Global,
    reads: &[Columns],
    input: &Relation<'_>,
) -> Result<Vec<OrderKey>, AllocError> {
    let mut keys = Vec::new(alloc);
    for columns in reads {
        for column in columns.as_slice() {
            if input.heading.columns.contains(*column) {
                keys.push(OrderKey {
                    column: *column,
                    descending: false,
                })?;
            }
        }
    }
    Ok(keys)
}

/// The numbers of all rows. Those that are the same in what the first plan reads stand together, and among them those that are in what
/// the second reads, and so on.
pub(crate) fn numbers_by_readings<'t>(
    alloc: Global,
    reads: &[Columns],
    input: &Relation<'t>,
    env: &Env<'_, 't>,
) -> Result<Vec<usize>, AllocError>
    ensures { IfOk result (λ numbers. IsPermutation (numbers_of input.now) numbers.items) }
{
    let keys = reading_keys(alloc, reads, input)?;
    numbers_in_order(alloc, keys.as_slice(), input, env)
}
