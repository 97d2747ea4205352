//! The tree of a statement becomes a query.

ghost use Rattle.std.specs.Prelude.{◌≡◌, map, IfOk};
ghost use Rattle.values.specs.Faults.{Gives};
ghost use Rattle.query.specs.Bound.{TablesAreOver};
ghost use Rattle.binder.specs.Queries as spec;

use crate::extent::of_select;
use crate::fault::{BindFault, BindReason, refused};
use crate::ordering::order_by;
use crate::output::Output;
use crate::scope::Scopes;
use crate::selects::select;
use crate::tables::Numbered;
use query::{BoundQuery, Query};
use schema::Schema;
use sql_parse::ParsedStatement;
use sql_parse::statement::Statement;
use std::alloc::{AllocError, Global};
use values::{Items, Text};

/// The most columns that the table instances and aggregates of a query may have together.
pub const MAX_COLUMNS: usize = 512;

fn names(alloc: Global, outputs: &[Output]) -> Result<Items<Text>, AllocError>
    ensures { IfOk result (λ names. names ≡ map (λ o. o.name) outputs.now) }
{
    let mut names = Items::new(alloc);
    for output in outputs {
        names.push(output.name.copy(alloc)?)?;
    }
    Ok(names)
}

/// The query that a tree is over a schema, or its first fault.
#[tactic(auto, unfolding(crate::specs::Queries::bound_statement))]
fn query_of(alloc: Global, schema: &Schema, statement: &Statement) -> Result<Query, BindFault>
    ensures { Gives (λ query. query) result (spec.bound_statement schema.now statement.now) }
{
    let extent = of_select(schema, &statement.select)?;
    if !extent.is_within() {
        return Err(refused(BindReason::TooLarge, 0));
    }
    let mut numbered = Numbered {
        tables: Items::new(alloc),
        next_column: 0,
        next_aggregate: extent.columns,
    };
    let outermost = Scopes::Outermost;
    let bound = select(alloc, schema, &statement.select, &outermost, &mut numbered)?;
    let keys = statement.order.as_slice();
    let order = order_by(alloc, keys, &bound.scope, bound.outputs.as_slice())?;
    if numbered.next_aggregate > MAX_COLUMNS {
        return Err(refused(BindReason::TooLarge, 0));
    }
    let names = names(alloc, bound.outputs.as_slice())?;
    Ok(Query {
        tables: numbered.tables,
        block: bound.block.into_inner(),
        names,
        order,
    })
}

/// The query that a statement is over a schema, or its first fault. First of all are counted its table instances, the
/// SELECTs in one another and its tests, and last of all its columns.
pub fn bind(
    alloc: Global,
    schema: &Schema,
    statement: &ParsedStatement,
) -> Result<BoundQuery, BindFault>
    ensures exact { Gives (λ query. query) result (spec.bound_statement schema.now statement.now) }
    ensures over { IfOk result (TablesAreOver schema.now) }
{
    let query = query_of(alloc, schema, statement.tree())?;
    Ok(BoundQuery::new(query))
}
