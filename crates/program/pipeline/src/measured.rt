//! Plans that are measured when they have answered.

ghost use Rattle.std.specs.Prelude.{◌≡◌, Ok, false, IfOk, IfErr};
ghost use Rattle.query.specs.Rows.{tables_in};
ghost use Rattle.certificate.specs.Replay.{replayed};
ghost use Rattle.measures.specs.Measures.{AreMeasured, plans_run};
ghost use Rattle.pipeline.specs.Measured.{report_in, reported};
ghost use Rattle.pipeline.specs.declared.refusal.Refusal.TheVariants.{Memory};

use crate::refusal::Refusal;
use algebra::Aggregation;
use certificate::Certificate;
use checker::Checked;
use explain::{explain_plan, json_plan};
use logs::Log;
use measures::{Measure, Stopwatch, measures};
use operators::{IndexedTables, Sources};
use physical::Plan;
use prepared_query::PreparedQuery;
use statistics::Statistics;
use std::alloc::{AllocError, Global};
use store::Database;

/// How a plan that was measured is reported.
#[derive(Clone, Copy, PartialEq, Eq)]
pub enum ReportForm {
    /// The text of `explain`, with the rows and the time of each node.
    Text,
    /// The nodes in JSON.
    Json,
}

/// A clock that stands still, for a plan of which nothing is reported.
#[derive(Drop)]
pub(crate) struct NoStopwatch;

impl Stopwatch for NoStopwatch {
    fn microseconds(&mut self) -> u64 {
        0
    }
}

/// What is measured of the nodes of a checked plan.
pub(crate) fn measured_nodes<C: Stopwatch>(
    alloc: Global,
    checked: &Checked<'_>,
    database: &Database<'_>,
    watch: &mut C,
) -> Result<Vec<Option<Measure>>, AllocError>
    ensures { IfOk result (λ all. AreMeasured checked.now.query.tables (tables_in database.now) (plans_run false checked.now.certificate.plan) all.items) }
{
    let query = checked.query();
    let plan = &checked.certificate().plan;
    let instances = query.tables.as_slice();
    let tables = IndexedTables::for_plan(alloc, database.tables(), instances, plan)?;
    let sources = Sources {
        instances,
        tables: &tables,
    };
    measures(alloc, plan, sources, watch)
}

/// A plan over the lines of a log, with what was measured of its nodes.
fn reported(
    alloc: Global,
    form: ReportForm,
    statistics: &Statistics,
    log: &Log<'_>,
    own: &[Aggregation],
    measures: &[Option<Measure>],
    plan: &Plan,
) -> Result<Vec<u8>, AllocError>
    ensures { IfOk result (λ text. text.items ≡ reported form statistics.now log.now.instances own.now log.now.log measures.now plan.now) }
{
    match form {
        ReportForm::Text => explain_plan(alloc, statistics, log, own, measures, plan),
        ReportForm::Json => json_plan(alloc, statistics, log, own, measures, plan),
    }
}

/// The plan of a certificate that replays, with what the statistics say of it and what was measured.
pub(crate) fn report_in(
    alloc: Global,
    form: ReportForm,
    query: &PreparedQuery<'_>,
    statistics: &Statistics,
    measures: &[Option<Measure>],
    certificate: &Certificate,
) -> Result<Vec<u8>, Refusal>
    requires replays { replayed query.now certificate.now ≡ Ok certificate.now }
    ensures text { IfOk result (λ text. text.items ≡ report_in form statistics.now query.now measures.now certificate.now) }
    ensures memory { IfErr result (λ r. r ≡ Memory) }
{
    let log = query.judged(alloc, certificate)?;
    let text = reported(
        alloc,
        form,
        statistics,
        &log,
        query.own(),
        measures,
        &certificate.plan,
    )?;
    Ok(text)
}
