//! The answer of a query that is bound, over its loaded tables.

ghost use Rattle.std.specs.Prelude.{◌≡◌, ◌⊎◌, [], IfOk, OnOk, OnErr, IfErr};
ghost use Rattle.std.specs.Io.KnownBytes.{Appends};
ghost use Rattle.query.specs.Bound.{IsBoundOver};
ghost use Rattle.answer_text.specs.AnswerText.{HasFront};
ghost use Rattle.pipeline.specs.EndToEnd.{ByCertificate, ByPlan, ByMeaning, HasLongAnswer, IsAnswerFault, IsLongAnswer, IsWriteFault};
ghost use Rattle.pipeline.specs.Measured.{ByMeasured};

use crate::counted_columns::counted_columns;
use crate::execution::write_answer;
use crate::measured::{ReportForm, measured_nodes, report_in};
use crate::refusal::Refusal;
use answer_text::{AnswerOutput, write_rows};
use checker::{Checked, check};
use measures::Stopwatch;
use oracle::meaning;
use planner::{Exploration, plan};
use prepared_query::PreparedQuery;
use query::BoundQuery;
use schema::Schema;
use statistics::Statistics;
use std::alloc::Global;
use store::Database;

/// Writes what a checked plan gives.
pub(crate) fn answer_by<W: AnswerOutput>(
    alloc: Global,
    checked: &Checked<'_>,
    database: &Database<'_>,
    out: &mut W,
) -> Result<(), Refusal>
    requires { database.now.schema ≡ checked.now.schema }
    ensures answered { OnOk result (ByCertificate checked.now.certificate checked.now.schema checked.now.query database.now.tables (Appends (W.contents out.old) (W.contents out.new))) }
    ensures handed { OnOk result (W.held out.new ≡ []) }
    ensures front { OnErr result ((out.new ≡ out.old) ⊎ ByCertificate checked.now.certificate checked.now.schema checked.now.query database.now.tables (HasFront (W.contents out.old) (W.contents out.new))) }
    ensures fails { IfErr result (IsWriteFault (IsLongAnswer checked.now.certificate checked.now.schema checked.now.query database.now.tables) (W.failures out.old) (W.failures out.new)) }
    ensures quiet { OnOk result (W.failures out.new ≡ W.failures out.old) }
{
    // That it was checked says that what its plan gives is an answer.
    let _certificate = checked.certificate();
    write_answer(alloc, checked, database, out)?;
    Ok(())
}

/// Writes what the plan gives that is chosen for the query by the statistics of the database, over a log of at most `limit` lines, explored so
/// far. The check accepts its certificate. Behind the answer the plan is measured, if a report is asked for.
pub(crate) fn answer_by_plan<'a, C: Stopwatch, W: AnswerOutput>(
    alloc: Global,
    schema: &'a Schema,
    query: &'a BoundQuery,
    database: &Database<'_>,
    limit: usize,
    exploration: Exploration,
    report: Option<ReportForm>,
    watch: &mut C,
    out: &mut W,
) -> Result<Vec<u8>, Refusal>
    requires bound { IsBoundOver schema.now query.now }
    requires schema { database.now.schema ≡ schema.now }
    ensures answered { IfOk result (λ text. ByMeasured report schema.now query.now database.now.tables (Appends (W.contents out.old) (W.contents out.new)) text.items) }
    ensures handed { OnOk result (W.held out.new ≡ []) }
    ensures front { OnErr result ((out.new ≡ out.old) ⊎ ByPlan schema.now query.now database.now.tables (HasFront (W.contents out.old) (W.contents out.new))) }
    ensures fails { IfErr result (IsWriteFault (HasLongAnswer schema.now query.now database.now.tables) (W.failures out.old) (W.failures out.new)) }
    ensures quiet { OnOk result (W.failures out.new ≡ W.failures out.old) }
{
    let prepared = PreparedQuery::of(alloc, query)?;
    let counted = counted_columns(alloc, &prepared)?;
    let statistics = Statistics::of(alloc, database, counted.as_slice())?;
    let planned = plan(alloc, &prepared, &statistics, limit, exploration)?;
    let checked = check(alloc, schema, &prepared, &planned.certificate)?;
    answer_by(alloc, &checked, database, out)?;
    let Some(form) = report else {
        return Ok(Vec::new(alloc));
    };
    let nodes = measured_nodes(alloc, &checked, database, watch)?;
    let certificate = &planned.certificate;
    report_in(
        alloc,
        form,
        &prepared,
        &statistics,
        nodes.as_slice(),
        certificate,
    )
}

/// Writes what the query means, by the slow evaluator.
pub(crate) fn answer_by_meaning<W: AnswerOutput>(
    alloc: Global,
    query: &BoundQuery,
    database: &Database<'_>,
    out: &mut W,
) -> Result<(), Refusal>
    ensures answered { OnOk result (ByMeaning database.now.schema query.now database.now.tables (Appends (W.contents out.old) (W.contents out.new))) }
    ensures handed { OnOk result (W.held out.new ≡ []) }
    ensures front { OnErr result ((out.new ≡ out.old) ⊎ ByMeaning database.now.schema query.now database.now.tables (HasFront (W.contents out.old) (W.contents out.new))) }
    ensures fails { IfErr result (IsAnswerFault (W.failures out.old) (W.failures out.new)) }
    ensures quiet { OnOk result (W.failures out.new ≡ W.failures out.old) }
{
    let query = query.query();
    let rows = meaning(alloc, query, database)?;
    write_rows(alloc, query, rows.as_slice(), out)?;
    Ok(())
}
