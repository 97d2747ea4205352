//! The rows that a checked plan gives, and their text.

ghost use Rattle.std.specs.Prelude.{◌≡◌, ◌≢◌, ◌<◌, ◌^◌, [], None, length, IfOk, IsErrAnd, OnOk, OnErr};
ghost use Rattle.std.specs.Io.KnownBytes.{Appends};
ghost use Rattle.query.specs.Answer.{IsAnswer};
ghost use Rattle.certificate.specs.QueryOrders.{answer};
ghost use Rattle.query.specs.Rows.{tables_in};
ghost use Rattle.store.specs.Devices.{Rose};
ghost use Rattle.answer_text.specs.AnswerText.{answer_text, HasFront};
ghost use Rattle.cursors.specs.Cursors.{opened};
ghost use Rattle.pipeline.specs.Execution.{accepted_rows, accepted_text};
ghost use Rattle.pipeline.specs.declared.written.WriteFault.TheVariants as fault;

use crate::written::WriteFault;
use answer_text::{AnswerOutput, AnswerWriter};
use checker::Checked;
use cursors::Cursor;
use frame::query_numbers;
use operators::{FoundRows, IndexedTables, Row, Sources, owned_rows, plan_found};
use query::Query;
use std::alloc::{AllocError, Global};
use store::Database;

/// The rows that a checked plan gives, item by item, which lend their cells from the database. They answer its query, where the
/// database is one of the schema that the plan was checked with.
fn find<'t>(
    alloc: Global,
    checked: &Checked<'_>,
    database: &'t Database<'_>,
) -> Result<FoundRows<'t>, AllocError>
    ensures rows { IfOk result (λ found. found ≡ answer checked.now.query (tables_in database.entry.now) checked.now.certificate.plan) }
    ensures answers { checked.now.schema ≡ database.entry.now.schema → IfOk result (λ found. IsAnswer checked.now.query (tables_in database.entry.now) found) }
{
    let query = checked.query();
    let plan = &checked.certificate().plan;
    let columns = query_numbers(alloc, query)?;
    let instances = query.tables.as_slice();
    let tables = IndexedTables::for_plan(alloc, database.tables(), instances, plan)?;
    let sources = Sources {
        instances,
        tables: &tables,
    };
    plan_found(alloc, plan, sources, columns.as_slice())
}

/// The same with values of their own.
pub fn run(
    alloc: Global,
    checked: &Checked<'_>,
    database: &Database<'_>,
) -> Result<Vec<Row>, AllocError>
    ensures rows { IfOk result (λ rows. rows.items ≡ answer checked.now.query (tables_in database.now) checked.now.certificate.plan) }
    ensures answers { checked.now.schema ≡ database.now.schema → IfOk result (λ rows. IsAnswer checked.now.query (tables_in database.now) rows.items) }
{
    let found = find(alloc, checked, database)?;
    owned_rows(alloc, &found)
}

/// A cursor before the first of these rows.
fn opened_cursor<'p, 't: 'p>(
    alloc: Global,
    checked: &'p Checked<'_>,
    database: &'t Database<'_>,
) -> Result<Cursor<'p, 't>, AllocError>
    ensures rows { IfOk result (λ cursor. cursor ≡ opened (answer checked.entry.now.query (tables_in database.entry.now) checked.entry.now.certificate.plan)) }
    ensures answers { checked.entry.now.schema ≡ database.entry.now.schema → IfOk result (λ cursor. IsAnswer checked.entry.now.query (tables_in database.entry.now) cursor.to_come) }
{
    let query = checked.query();
    let plan = &checked.certificate().plan;
    let columns = query_numbers(alloc, query)?;
    let instances = query.tables.as_slice();
    let tables = IndexedTables::for_plan(alloc, database.tables(), instances, plan)?;
    let sources = Sources {
        instances,
        tables: &tables,
    };
    Cursor::open(alloc, plan, sources, columns.as_slice())
}

/// Writes the rows that are to come of a cursor that has handed over none, each as soon as it is lent.
fn write_lent<'p, 't: 'p, W: AnswerOutput>(
    alloc: Global,
    query: &Query,
    cursor: &mut Cursor<'p, 't>,
    out: &mut W,
) -> Result<(), WriteFault>
    requires handed { cursor.old.handed ≡ 0 }
    requires fault { cursor.old.fault ≡ None }
    ensures ok { OnOk result (Appends (W.contents out.old) (W.contents out.new) (answer_text query.now.names cursor.old.to_come)) }
    ensures handed { OnOk result (W.held out.new ≡ []) }
    ensures front { OnErr result (HasFront (W.contents out.old) (W.contents out.new) (answer_text query.now.names cursor.old.to_come)) }
    ensures many { IsErrAnd result (λ e. e ≡ fault.TooManyRows) → 2 ^ 62 < length cursor.old.to_come }
    ensures device { IsErrAnd result (λ e. e ≡ fault.Output) → Rose (W.failures out.old) (W.failures out.new) }
    ensures quiet { OnOk result (W.failures out.new ≡ W.failures out.old) }
    ensures others { IsErrAnd result (λ e. e ≢ fault.Output) → W.failures out.new ≡ W.failures out.old }
{
    let mut writer = AnswerWriter::begin(alloc, query)?;
    while cursor.advance()? {
        if let Some(row) = cursor.row() {
            writer = writer.push(alloc, &row, 0, out)?;
        }
    }
    Ok(writer.finish(out)?)
}

/// Writes the answer that a checked plan gives, each row as soon as it is looked up.
pub fn write_answer<W: AnswerOutput>(
    alloc: Global,
    checked: &Checked<'_>,
    database: &Database<'_>,
    out: &mut W,
) -> Result<(), WriteFault>
    requires { database.now.schema ≡ checked.now.schema }
    ensures ok { OnOk result (Appends (W.contents out.old) (W.contents out.new) (accepted_text checked.now database.now)) }
    // Nothing of it is held back.
    ensures handed { OnOk result (W.held out.new ≡ []) }
    // After a fault a beginning of the text has been written.
    ensures front { OnErr result (HasFront (W.contents out.old) (W.contents out.new) (accepted_text checked.now database.now)) }
    // These rows are an answer of the query.
    ensures answer { OnOk result (IsAnswer checked.now.query (tables_in database.now) (accepted_rows checked.now database.now)) }
    // It has too many rows only where they are more than a cursor hands over.
    ensures many { IsErrAnd result (λ e. e ≡ fault.TooManyRows) → 2 ^ 62 < length (accepted_rows checked.now database.now) }
    ensures device { IsErrAnd result (λ e. e ≡ fault.Output) → Rose (W.failures out.old) (W.failures out.new) }
    // No other call failed.
    ensures quiet { OnOk result (W.failures out.new ≡ W.failures out.old) }
    ensures others { IsErrAnd result (λ e. e ≢ fault.Output) → W.failures out.new ≡ W.failures out.old }
{
    let mut cursor = opened_cursor(alloc, checked, database)?;
    write_lent(alloc, checked.query(), &mut cursor, out)
}
