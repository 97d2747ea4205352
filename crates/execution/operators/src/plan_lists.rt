//! The rows of a plan, as a list of those that are shown.

ghost use Rattle.std.specs.Prelude.{◌≡◌, map, IfOk};
ghost use Rattle.schema.specs.declared.schema.Schema.{Schema};
ghost use Rattle.query.specs.Aggregates.{AreShortTables};
ghost use Rattle.query.specs.Rows.{tables_of};
ghost use Rattle.algebra.specs.Bags as bags;
ghost use Rattle.physical.specs.Outputs as outputs;
ghost use Rattle.operators.specs.Runnable.{IsRunnable};

use crate::running::run_plan;
use crate::shown::{FoundRows, Row, owned_rows};
use crate::sources::Sources;
use physical::Plan;
use query::ColumnId;
use relations::Env;
use std::alloc::{AllocError, Global};

/// The rows that a plan produces where no column has a value, in these columns; whatever else the schema of its tables says. Its
/// groups aggregate stored values alone, whose numbers have 64 bits, so that no SUM passes 128. Its rows lend their cells.
pub fn plan_found<'t>(
    alloc: Global,
    plan: &Plan,
    sources: Sources<'_, 't>,
    columns: &[ColumnId],
) -> Result<FoundRows<'t>, AllocError>
    requires runnable { IsRunnable sources.instances.now plan.now }
    requires short { (S : Schema) → AreShortTables (tables_of S sources.tables.now) }
    ensures { (S : Schema) → IfOk result (λ found. found ≡ map (λ r. map r columns.now) (outputs.output_rows sources.entry.instances.now (tables_of S sources.entry.tables.now) plan.now bags.nulls)) }
{
    let found = run_plan(alloc, plan, sources, &Env::Empty)?;
    FoundRows::new(alloc, columns, found)
}

/// The same with values of their own.
pub fn plan_rows(
    alloc: Global,
    plan: &Plan,
    sources: Sources<'_, '_>,
    columns: &[ColumnId],
) -> Result<Vec<Row>, AllocError>
    requires runnable { IsRunnable sources.instances.now plan.now }
    requires short { (S : Schema) → AreShortTables (tables_of S sources.tables.now) }
    ensures { (S : Schema) → IfOk result (λ rows. rows.items ≡ map (λ r. map r columns.now) (outputs.output_rows sources.entry.instances.now (tables_of S sources.entry.tables.now) plan.now bags.nulls)) }
{
    let found = plan_found(alloc, plan, sources, columns)?;
    owned_rows(alloc, &found)
}
