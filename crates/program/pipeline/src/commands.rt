//! From the bytes of files to the bytes of an answer.

ghost use Rattle.std.specs.Prelude.{◌≡◌, ◌⊎◌, [], Some, length, map, IfOk, IfErr, OnOk, OnErr};
ghost use Rattle.std.specs.Io.KnownBytes.{Appends};
ghost use Rattle.answer_text.specs.AnswerText.{HasFront};
ghost use Rattle.pipeline.specs.EndToEnd.{HasTables, WithAnswer, WithPlanned, IsNotQueried, IsRefusedBy, IsBefore, IsDeviceFault, IsQuiet};
ghost use Rattle.pipeline.specs.Measured.{WithMeasured};

use crate::answer::{answer_by_meaning, answer_by_plan};
use crate::measured::{NoStopwatch, ReportForm};
use crate::preparation::prepare;
use crate::refusal::Refusal;
use answer_text::AnswerOutput;
use measures::Stopwatch;
use planner::Exploration;
use schema::Schema;
use std::alloc::Global;
use store::TableInput;

/// Answers a query by a checked plan, and measures the plan if a report is asked for.
fn answered<R: TableInput, C: Stopwatch, W: AnswerOutput>(
    alloc: Global,
    schema: &[u8],
    text: &[u8],
    tables: &mut [R],
    limit: usize,
    exploration: Exploration,
    report: Option<ReportForm>,
    watch: &mut C,
    out: &mut W,
) -> Result<Vec<u8>, Refusal>
    requires { HasTables schema.now (length tables.old) }
    ensures answered { IfOk result (λ told. WithMeasured report schema.now text.now (map R.remaining tables.old) (Appends (W.contents out.old) (W.contents out.new)) told.items) }
    ensures handed { OnOk result (W.held out.new ≡ []) }
    ensures refused { IfErr result (IsNotQueried schema.now text.now (map R.remaining tables.old)) }
    ensures untouched { IfErr result (λ r. IsBefore r → out.new ≡ out.old) }
    ensures front { OnErr result ((out.new ≡ out.old) ⊎ WithPlanned schema.now text.now (map R.remaining tables.old) (HasFront (W.contents out.old) (W.contents out.new))) }
    ensures device { IfErr result (IsDeviceFault (map R.failures tables.old) (map R.failures tables.new) (W.failures out.old) (W.failures out.new)) }
    ensures quiet { OnOk result (IsQuiet (map R.failures tables.old) (map R.failures tables.new) (W.failures out.old) (W.failures out.new)) }
{
    let schema = Schema::read(alloc, schema)?;
    let ready = prepare(alloc, &schema, text, tables)?;
    answer_by_plan(
        alloc,
        &schema,
        &ready.query,
        &ready.database,
        limit,
        exploration,
        report,
        watch,
        out,
    )
}

/// Answers a query: reads the schema, the text and the tables' files, checks a plan and writes what it gives. The tables are
/// one input each, in the order of the schema. The plan is searched for over a log of at most `limit` lines,
/// which is explored so far.
///
/// The first fault is reported, in the order schema, text, scope, tables, and `out` is then as it was. During the answer
/// memory or the output may fail, or there may be too many rows, and then a beginning of the answer has been written.
pub fn query<R: TableInput, W: AnswerOutput>(
    alloc: Global,
    schema: &[u8],
    text: &[u8],
    tables: &mut [R],
    limit: usize,
    exploration: Exploration,
    out: &mut W,
) -> Result<(), Refusal>
    requires { HasTables schema.now (length tables.old) }
    // What is added to the output is the text of an answer.
    ensures answered { OnOk result (WithPlanned schema.now text.now (map R.remaining tables.old) (Appends (W.contents out.old) (W.contents out.new))) }
    // Nothing of it is held back.
    ensures handed { OnOk result (W.held out.new ≡ []) }
    ensures refused { IfErr result (IsNotQueried schema.now text.now (map R.remaining tables.old)) }
    ensures untouched { IfErr result (λ r. IsBefore r → out.new ≡ out.old) }
    // A fault that comes later leaves a beginning of such a text.
    ensures front { OnErr result ((out.new ≡ out.old) ⊎ WithPlanned schema.now text.now (map R.remaining tables.old) (HasFront (W.contents out.old) (W.contents out.new))) }
    ensures device { IfErr result (IsDeviceFault (map R.failures tables.old) (map R.failures tables.new) (W.failures out.old) (W.failures out.new)) }
    // No other call of a device failed, and none where there is an answer.
    ensures quiet { OnOk result (IsQuiet (map R.failures tables.old) (map R.failures tables.new) (W.failures out.old) (W.failures out.new)) }
{
    let watch = &mut NoStopwatch;
    match answered(
        alloc,
        schema,
        text,
        tables,
        limit,
        exploration,
        None,
        watch,
        out,
    ) {
        Ok(_) => Ok(()),
        Err(refusal) => Err(refusal),
    }
}

/// The same, and returns the plan that gave the answer as text in this form: each node with the rows and the cost that were estimated of it by the
/// counts of the tables, the rows that it handed over, and how long it took with its inputs by this clock. It is measured behind the answer, each
/// node by itself. There is no measure of the nodes of subqueries that are run at each row of another node.
pub fn query_measured<R: TableInput, C: Stopwatch, W: AnswerOutput>(
    alloc: Global,
    schema: &[u8],
    text: &[u8],
    tables: &mut [R],
    limit: usize,
    exploration: Exploration,
    form: ReportForm,
    watch: &mut C,
    out: &mut W,
) -> Result<Vec<u8>, Refusal>
    requires { HasTables schema.now (length tables.old) }
    // What is added to the output is the text of an answer, and of the plan that gives it this is reported.
    ensures answered { IfOk result (λ told. WithMeasured (Some form) schema.now text.now (map R.remaining tables.old) (Appends (W.contents out.old) (W.contents out.new)) told.items) }
    // Nothing of it is held back.
    ensures handed { OnOk result (W.held out.new ≡ []) }
    ensures refused { IfErr result (IsNotQueried schema.now text.now (map R.remaining tables.old)) }
    ensures untouched { IfErr result (λ r. IsBefore r → out.new ≡ out.old) }
    // A fault that comes later leaves a beginning of such a text, or all of it.
    ensures front { OnErr result ((out.new ≡ out.old) ⊎ WithPlanned schema.now text.now (map R.remaining tables.old) (HasFront (W.contents out.old) (W.contents out.new))) }
    ensures device { IfErr result (IsDeviceFault (map R.failures tables.old) (map R.failures tables.new) (W.failures out.old) (W.failures out.new)) }
    // No other call of a device failed, and none where there is an answer.
    ensures quiet { OnOk result (IsQuiet (map R.failures tables.old) (map R.failures tables.new) (W.failures out.old) (W.failures out.new)) }
{
    let report = Some(form);
    answered(
        alloc,
        schema,
        text,
        tables,
        limit,
        exploration,
        report,
        watch,
        out,
    )
}

/// Answers a query by the slow evaluator, with no plan: reads the schema, the text and the tables'
/// files, and writes what the query means. The tables are one input each, in the order of the schema.
///
/// The first fault is reported, in the order schema, text, scope, tables, and `out` is then as it was. Memory or the output may
/// fail later, and then a beginning of the answer may have been written.
pub fn evaluate<R: TableInput, W: AnswerOutput>(
    alloc: Global,
    schema: &[u8],
    text: &[u8],
    tables: &mut [R],
    out: &mut W,
) -> Result<(), Refusal>
    requires { HasTables schema.now (length tables.old) }
    // What is added to the output is the text of an answer.
    ensures answered { OnOk result (WithAnswer schema.now text.now (map R.remaining tables.old) (Appends (W.contents out.old) (W.contents out.new))) }
    // Nothing of it is held back.
    ensures handed { OnOk result (W.held out.new ≡ []) }
    ensures refused { IfErr result (IsRefusedBy schema.now text.now (map R.remaining tables.old)) }
    ensures untouched { IfErr result (λ r. IsBefore r → out.new ≡ out.old) }
    // A fault that comes later leaves a beginning of such a text.
    ensures front { OnErr result ((out.new ≡ out.old) ⊎ WithAnswer schema.now text.now (map R.remaining tables.old) (HasFront (W.contents out.old) (W.contents out.new))) }
    ensures device { IfErr result (IsDeviceFault (map R.failures tables.old) (map R.failures tables.new) (W.failures out.old) (W.failures out.new)) }
    // No other call of a device failed, and none where there is an answer.
    ensures quiet { OnOk result (IsQuiet (map R.failures tables.old) (map R.failures tables.new) (W.failures out.old) (W.failures out.new)) }
{
    let schema = Schema::read(alloc, schema)?;
    let ready = prepare(alloc, &schema, text, tables)?;
    answer_by_meaning(alloc, &ready.query, &ready.database, out)
}
