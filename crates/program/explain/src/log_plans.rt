//! Plans over the lines of a log, with what is estimated of them.

ghost use Rattle.std.specs.Prelude.{◌≡◌, IfOk};
ghost use Rattle.costs.specs.Costs.{plan_estimates};
ghost use Rattle.explain.specs.LogPlans as spec;

use crate::dot_text::dot;
use crate::naming::Naming;
use crate::plan_text::{explain, json};
use algebra::Aggregation;
use costs::{Cardinalities, Estimate, estimates};
use logs::Log;
use measures::Measure;
use physical::Plan;
use statistics::Statistics;
use std::alloc::{AllocError, Global};

fn log_estimates(
    alloc: Global,
    statistics: &Statistics,
    log: &Log<'_>,
    plan: &Plan,
) -> Result<Vec<Estimate>, AllocError>
    ensures { IfOk result (λ all. all.items ≡ plan_estimates statistics.now log.now.instances log.now.log plan.now) }
{
    let cardinalities = Cardinalities::of(alloc, statistics, log)?;
    estimates(alloc, statistics, log, &cardinalities, plan)
}

/// The text of a plan over the log's lines, with the rows and the cost of each node by the statistics, and what was measured of it. The names are
/// those of the log's table instances and of these aggregates: the query's own.
pub fn explain_plan(
    alloc: Global,
    statistics: &Statistics,
    log: &Log<'_>,
    own: &[Aggregation],
    measures: &[Option<Measure>],
    plan: &Plan,
) -> Result<Vec<u8>, AllocError>
    ensures { IfOk result (λ text. text.items ≡ spec.explained statistics.now log.now.instances own.now log.now.log measures.now plan.now) }
{
    let all = log_estimates(alloc, statistics, log, plan)?;
    let names = Naming::new(log.instances(), own);
    explain(alloc, &names, all.as_slice(), measures, plan)
}

/// The same as JSON.
pub fn json_plan(
    alloc: Global,
    statistics: &Statistics,
    log: &Log<'_>,
    own: &[Aggregation],
    measures: &[Option<Measure>],
    plan: &Plan,
) -> Result<Vec<u8>, AllocError>
    ensures { IfOk result (λ text. text.items ≡ spec.json statistics.now log.now.instances own.now log.now.log measures.now plan.now) }
{
    let all = log_estimates(alloc, statistics, log, plan)?;
    let names = Naming::new(log.instances(), own);
    json(alloc, &names, all.as_slice(), measures, plan)
}

/// A plan as a graph for Graphviz, with the rows and the cost of each node.
pub fn dot_plan(
    alloc: Global,
    statistics: &Statistics,
    log: &Log<'_>,
    own: &[Aggregation],
    plan: &Plan,
) -> Result<Vec<u8>, AllocError>
    ensures { IfOk result (λ text. text.items ≡ spec.graph statistics.now log.now.instances own.now log.now.log plan.now) }
{
    let all = log_estimates(alloc, statistics, log, plan)?;
    let names = Naming::new(log.instances(), own);
    dot(alloc, &names, all.as_slice(), plan)
}
