//! Plans of queries, explained.

ghost use Rattle.std.specs.Prelude.{◌≡◌, Ok, IfOk, IfErr};
ghost use Rattle.query.specs.Bound.{IsBoundOver};
ghost use Rattle.certificate.specs.Replay.{replayed};
ghost use Rattle.pipeline.specs.Explained.{IsExplained, IsNotExplained, plan_in, shown};
ghost use Rattle.pipeline.specs.Planned.{WithChecked};
ghost use Rattle.pipeline.specs.declared.refusal.Refusal.TheVariants.{Memory};

use crate::preparation::bound_query;
use crate::refusal::Refusal;
use algebra::Aggregation;
use certificate::Certificate;
use explain::{dot_plan, explain_plan, json_plan};
use logs::Log;
use physical::Plan;
use planner;
use planner::Exploration;
use prepared_query::PreparedQuery;
use schema::Schema;
use statistics::Statistics;
use std::alloc::{AllocError, Global};

/// How a plan is shown.
#[derive(Clone, Copy, PartialEq, Eq)]
pub enum PlanForm {
    /// A line for each node, those of its inputs below it.
    Text,
    /// A graph for Graphviz.
    Graph,
    /// A JSON array with an object for each node, in the same order.
    Json,
}

/// A plan over the lines of a log.
fn shown(
    alloc: Global,
    form: PlanForm,
    statistics: &Statistics,
    log: &Log<'_>,
    own: &[Aggregation],
    plan: &Plan,
) -> Result<Vec<u8>, AllocError>
    ensures { IfOk result (λ text. text.items ≡ shown form statistics.now log.now.instances own.now log.now.log plan.now) }
{
    match form {
        PlanForm::Text => explain_plan(alloc, statistics, log, own, &[], plan),
        PlanForm::Graph => dot_plan(alloc, statistics, log, own, plan),
        PlanForm::Json => json_plan(alloc, statistics, log, own, &[], plan),
    }
}

/// The plan of a certificate that replays, with what the statistics say of it.
pub(crate) fn plan_in(
    alloc: Global,
    form: PlanForm,
    query: &PreparedQuery<'_>,
    statistics: &Statistics,
    certificate: &Certificate,
) -> Result<Vec<u8>, Refusal>
    requires replays { replayed query.now certificate.now ≡ Ok certificate.now }
    ensures text { IfOk result (λ text. text.items ≡ plan_in form statistics.now query.now certificate.now) }
    ensures memory { IfErr result (λ r. r ≡ Memory) }
{
    let log = query.judged(alloc, certificate)?;
    let text = shown(
        alloc,
        form,
        statistics,
        &log,
        query.own(),
        &certificate.plan,
    )?;
    Ok(text)
}

/// The plan of a query, with what the statistics say of it.
fn explained_query(
    alloc: Global,
    form: PlanForm,
    schema: &Schema,
    query: &PreparedQuery<'_>,
    statistics: &Statistics,
    limit: usize,
    exploration: Exploration,
) -> Result<Vec<u8>, Refusal>
    requires { IsBoundOver schema.now query.now }
    ensures text { IfOk result (λ text. WithChecked schema.now query.now (λ c. text.items ≡ plan_in form statistics.now query.now c)) }
    ensures memory { IfErr result (λ r. r ≡ Memory) }
{
    let planned = planner::plan(alloc, query, statistics, limit, exploration)?;
    plan_in(alloc, form, query, statistics, &planned.certificate)
}

/// Plans a query and explains the plan: reads the schema, the text and the statistics, and shows the plan that `plan` finds by these, with the
/// rows and the cost that are estimated of each node, over a log of at most `limit` lines, explored so far.
///
/// The first fault is reported, in the order schema, text, scope, statistics.
pub fn explain(
    alloc: Global,
    form: PlanForm,
    schema: &[u8],
    text: &[u8],
    statistics: &[u8],
    limit: usize,
    exploration: Exploration,
) -> Result<Vec<u8>, Refusal>
    ensures explained { IfOk result (λ written. IsExplained form schema.now text.now statistics.now written.items) }
    ensures refused { IfErr result (IsNotExplained schema.now text.now statistics.now) }
{
    let schema = Schema::read(alloc, schema)?;
    let asked = bound_query(alloc, &schema, text)?;
    let statistics = Statistics::read(alloc, &schema, statistics)?;
    let query = PreparedQuery::of(alloc, &asked)?;
    explained_query(
        alloc,
        form,
        &schema,
        &query,
        &statistics,
        limit,
        exploration,
    )
}
