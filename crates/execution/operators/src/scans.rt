//! Scans.

ghost use Rattle.std.specs.Prelude.{◌≡◌, [], slice_get, slice_index_or, IfOk};
ghost use Rattle.schema.specs.declared.schema.Schema.{Schema};
ghost use Rattle.query.specs.Rows.{tables_of};
ghost use Rattle.algebra.specs.Bags as bags;
ghost use Rattle.algebra.specs.Expressions.{get_columns, get_rows};
ghost use Rattle.relations.specs.Relations.{IsOutput, numbered_env};
ghost use Rattle.operators.specs.Sources.{AreTableRows};

use algebra::Columns;
use query::{InstanceId, TableInstance};
use relations::{Heading, Part, Relation, Rows};
use std::alloc::{AllocError, Global};
use store::Table;

/// The rows of the table with this number; none where there is no such table.
fn table_part<'t>(alloc: Global, tables: &'t [Table], number: usize) -> Part<'t>
    ensures { result ≡ slice_index_or tables.entry.now number [] }
{
    match tables.get(number) {
        Some(table) => Part::of_table(table),
        None => Part::made(Vec::new(alloc)),
    }
}

/// All rows of a table instance.
pub fn scanned<'t>(
    alloc: Global,
    instances: &[TableInstance],
    tables: &'t [Table],
    instance: InstanceId,
) -> Result<Relation<'t>, AllocError>
    ensures rows { (S : Schema) (e : bags.Env) → IfOk result (IsOutput (get_columns (slice_get instances.now instance)) (get_rows (slice_get instances.now instance) (tables_of S tables.entry.now) e) e) }
    ensures numbered { (e : bags.Env) → IfOk result (λ r. AreTableRows (slice_get instances.now instance) tables.entry.now e r.rows.count (numbered_env r e)) }
{
    let Some(table_instance) = instances.get(instance as usize) else {
        return Relation::none(alloc);
    };
    let columns = Columns::of_instance(alloc, instances, instance)?;
    let heading = Heading::of_table(alloc, columns)?;
    let rows = Rows::of_part(alloc, table_part(alloc, tables, table_instance.table))?;
    Ok(Relation { heading, rows })
}
