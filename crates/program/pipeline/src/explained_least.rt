//! Plans of queries, explained, with what shows that they are the cheapest.

ghost use Rattle.std.specs.Prelude.{◌≡◌, string_bytes, IfOk, IfErr};
ghost use Rattle.query.specs.Bound.{IsBoundOver};
ghost use Rattle.pipeline.specs.Explained.{IsNotExplained};
ghost use Rattle.pipeline.specs.ExplainedLeast as spec;
ghost use Rattle.pipeline.specs.declared.refusal.Refusal.TheVariants.{Memory};

use crate::explained::{PlanForm, plan_in};
use crate::preparation::bound_query;
use crate::refusal::Refusal;
use planner;
use planner::Exploration;
use prepared_query::PreparedQuery;
use schema::Schema;
use statistics::Statistics;
use std::alloc::{AllocError, Global};

/// What a line that is no part of the plan begins with.
fn mark_before(form: PlanForm) -> &'static str
    ensures { result.now ≡ spec.mark_before form }
{
    match form {
        PlanForm::Text => "",
        PlanForm::Graph => "// ",
        PlanForm::Json => "\"",
    }
}

/// And what it ends with.
fn mark_behind(form: PlanForm) -> &'static str
    ensures { result.now ≡ spec.mark_behind form }
{
    match form {
        PlanForm::Text | PlanForm::Graph => "",
        PlanForm::Json => "\"",
    }
}

/// Over how many goals and lines a plan is the cheapest; it says that the lines are closed, or how many there are.
fn least_words(
    alloc: Global,
    goals: usize,
    lines: usize,
    is_closed: bool,
) -> Result<String, AllocError>
    ensures { IfOk result (λ words. string_bytes words ≡ spec.least_words goals lines is_closed) }
{
    if is_closed {
        format!(in alloc; "least of {goals} goals over {lines} lines, closed")
    } else {
        format!(in alloc; "least of {goals} goals, not closed at {lines} lines")
    }
}

/// The same as a line of its own.
fn least_line(
    alloc: Global,
    form: PlanForm,
    goals: usize,
    lines: usize,
    is_closed: bool,
) -> Result<String, AllocError>
    ensures { IfOk result (λ line. string_bytes line ≡ spec.least_line form goals lines is_closed) }
{
    let words = least_words(alloc, goals, lines, is_closed)?;
    let (before, behind) = (mark_before(form), mark_behind(form));
    format!(in alloc; "{before}{words}{behind}\n")
}

/// The plan of a query, with what the statistics say of it, and the line behind it.
fn explained_query(
    alloc: Global,
    form: PlanForm,
    schema: &Schema,
    query: &PreparedQuery<'_>,
    statistics: &Statistics,
    limit: usize,
    exploration: Exploration,
) -> Result<Vec<u8>, Refusal>
    requires { IsBoundOver schema.now query.now }
    ensures text { IfOk result (λ text. spec.IsLeastShown form schema.now query.now statistics.now limit exploration text.items) }
    ensures memory { IfErr result (λ r. r ≡ Memory) }
{
    let planned = planner::plan(alloc, query, statistics, limit, exploration)?;
    let mut text = plan_in(alloc, form, query, statistics, &planned.certificate)?;
    let line = least_line(
        alloc,
        form,
        planned.labels.len(),
        planned.log.len(),
        planned.is_complete,
    )?;
    text.extend_from_slice(line.as_bytes())?;
    Ok(text)
}

/// Explains a plan as `explain` does, and says on a line behind it by how many goals it is shown to be the cheapest, and over how many lines; in a graph the
/// line is a comment, and behind JSON a string.
///
/// The first fault is reported, in the order schema, text, scope, statistics.
pub fn explain_least(
    alloc: Global,
    form: PlanForm,
    schema: &[u8],
    text: &[u8],
    statistics: &[u8],
    limit: usize,
    exploration: Exploration,
) -> Result<Vec<u8>, Refusal>
    ensures explained { IfOk result (λ written. spec.IsExplainedLeast form schema.now text.now statistics.now limit exploration written.items) }
    ensures refused { IfErr result (IsNotExplained schema.now text.now statistics.now) }
{
    let schema = Schema::read(alloc, schema)?;
    let asked = bound_query(alloc, &schema, text)?;
    let statistics = Statistics::read(alloc, &schema, statistics)?;
    let query = PreparedQuery::of(alloc, &asked)?;
    explained_query(
        alloc,
        form,
        &schema,
        &query,
        &statistics,
        limit,
        exploration,
    )
}
