//! What is measured of each node of a plan, alone.

ghost use Rattle.std.specs.Prelude.{◌≡◌, false, IfOk};
ghost use Rattle.schema.specs.declared.schema.Schema.{Schema};
ghost use Rattle.query.specs.Aggregates.{AreShortTables};
ghost use Rattle.query.specs.Rows.{tables_of};
ghost use Rattle.operators.specs.Runnable.{IsRunnable};
ghost use Rattle.measures.specs.Measures.{AreMeasured, IsMeasured, has_subqueries, plans_run, plan_if};

use crate::counting::counted;
use crate::stopwatch::Stopwatch;
use operators::Sources;
use physical::{Node, Operator, Plan};
use std::alloc::{AllocError, Global};

/// What is measured of a node: the rows that it hands over, and how long it takes with its inputs to make them.
#[derive(Clone, Copy, Debug, PartialEq, Eq)]
pub struct Measure {
    pub rows: u64,
    pub microseconds: u64,
}

/// Whether the inputs of a node behind the first are run at each row of it.
fn has_subqueries(node: &Node) -> bool
    ensures { result ≡ has_subqueries node.now }
{
    match node {
        Node::Implements { operator, .. } => matches!(operator, Operator::FilterSubqueries { .. }),
        Node::Sort { .. } => false,
    }
}

/// What is measured of the root of a plan. None of one that is run again and again, nor of one with more than 2^62 rows.
fn root_measure<'p, 't: 'p, W: Stopwatch>(
    alloc: Global,
    plan: &'p Plan,
    sources: Sources<'_, 't>,
    is_repeated: bool,
    watch: &mut W,
) -> Result<Option<Measure>, AllocError>
    requires runnable { IsRunnable sources.instances.now plan.now }
    requires short { (S : Schema) → AreShortTables (tables_of S sources.tables.now) }
    ensures { (S : Schema) → IfOk result (IsMeasured sources.entry.instances.now (tables_of S sources.entry.tables.now) (plan_if is_repeated plan.now)) }
{
    if is_repeated {
        return Ok(None);
    }
    let begun = watch.microseconds();
    let Some(rows) = counted(alloc, plan, sources)? else {
        return Ok(None);
    };
    Ok(Some(Measure {
        rows,
        microseconds: watch.microseconds().saturating_sub(begun),
    }))
}

/// What is measured of the nodes of a plan, each before its inputs.
fn measures_of<'p, 't: 'p, W: Stopwatch>(
    alloc: Global,
    plan: &'p Plan,
    sources: Sources<'_, 't>,
    is_repeated: bool,
    watch: &mut W,
) -> Result<Vec<Option<Measure>>, AllocError>
    requires runnable { IsRunnable sources.instances.now plan.now }
    requires short { (S : Schema) → AreShortTables (tables_of S sources.tables.now) }
    ensures { (S : Schema) → IfOk result (λ all. AreMeasured sources.entry.instances.now (tables_of S sources.entry.tables.now) (plans_run is_repeated plan.now) all.items) }
{
    let mut all = Vec::new(alloc);
    all.push(root_measure(alloc, plan, sources, is_repeated, watch)?)?;
    let are_repeated = is_repeated || has_subqueries(&plan.node);
    for (place, input) in plan.inputs.as_slice().iter().enumerate() {
        let is_repeated = if place == 0 {
            is_repeated
        } else {
            are_repeated
        };
        let mut below = measures_of(alloc, input, sources, is_repeated, watch)?;
        all.append(&mut below)?;
    }
    Ok(all)
}

/// What is measured of the nodes of a plan, each before its inputs, when each is run by itself, with its inputs, to its last row. So this takes as
/// much longer than the plan as its nodes stand deep. None of the nodes of subqueries that are run at each row of another node, nor of one with
/// more than 2^62 rows.
pub fn measures<'p, 't: 'p, W: Stopwatch>(
    alloc: Global,
    plan: &'p Plan,
    sources: Sources<'_, 't>,
    watch: &mut W,
) -> Result<Vec<Option<Measure>>, AllocError>
    requires runnable { IsRunnable sources.instances.now plan.now }
    requires short { (S : Schema) → AreShortTables (tables_of S sources.tables.now) }
    ensures { (S : Schema) → IfOk result (λ all. AreMeasured sources.entry.instances.now (tables_of S sources.entry.tables.now) (plans_run false plan.now) all.items) }
{
    measures_of(alloc, plan, sources, false, watch)
}
