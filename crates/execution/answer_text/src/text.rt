//! The text of an answer: a header record with the output names, and a record a row, as `csv` writes them.

ghost use Rattle.std.specs.Prelude.{◌≡◌, ◌≢◌, [], IsErrAnd, OnOk, OnErr};
ghost use Rattle.std.specs.Io.KnownBytes.{Appends};
ghost use Rattle.store.specs.Devices.{Rose};
ghost use Rattle.answer_text.specs.AnswerText.{answer_text, HasFront};

use crate::output::AnswerOutput;
use crate::writer::{AnswerFault, AnswerWriter};
use query::Query;
use std::alloc::Global;
use store::RowSource;
use values::{Fault, Items, Value};

/// Writes rows that were found, which are as wide as the query's items.
pub fn write_found<R: RowSource, W: AnswerOutput>(
    alloc: Global,
    query: &Query,
    found: &R,
    out: &mut W,
) -> Result<(), AnswerFault>
    ensures ok { OnOk result (Appends (W.contents out.old) (W.contents out.new) (answer_text query.now.names (R.rows found.now))) }
    // Nothing of it is held back.
    ensures handed { OnOk result (W.held out.new ≡ []) }
    // After a fault a beginning of the text has been written.
    ensures front { OnErr result (HasFront (W.contents out.old) (W.contents out.new) (answer_text query.now.names (R.rows found.now))) }
    ensures device { IsErrAnd result (λ e. e ≢ Fault.Memory) → Rose (W.failures out.old) (W.failures out.new) }
    // No other call failed.
    ensures quiet { OnOk result (W.failures out.new ≡ W.failures out.old) }
    ensures memory { IsErrAnd result (λ e. e ≡ Fault.Memory) → W.failures out.new ≡ W.failures out.old }
{
    let mut writer = AnswerWriter::begin(alloc, query)?;
    for row in 0..found.len() {
        writer = writer.push(alloc, found, row, out)?;
    }
    writer.finish(out)
}

/// Writes rows, which are as wide as the query's items.
pub fn write_rows<W: AnswerOutput>(
    alloc: Global,
    query: &Query,
    rows: &[Items<Value>],
    out: &mut W,
) -> Result<(), AnswerFault>
    ensures ok { OnOk result (Appends (W.contents out.old) (W.contents out.new) (answer_text query.now.names rows.now)) }
    // Nothing of it is held back.
    ensures handed { OnOk result (W.held out.new ≡ []) }
    // After a fault a beginning of the text has been written.
    ensures front { OnErr result (HasFront (W.contents out.old) (W.contents out.new) (answer_text query.now.names rows.now)) }
    ensures device { IsErrAnd result (λ e. e ≢ Fault.Memory) → Rose (W.failures out.old) (W.failures out.new) }
    // No other call failed.
    ensures quiet { OnOk result (W.failures out.new ≡ W.failures out.old) }
    ensures memory { IsErrAnd result (λ e. e ≡ Fault.Memory) → W.failures out.new ≡ W.failures out.old }
{
    let mut writer = AnswerWriter::begin(alloc, query)?;
    for row in rows {
        writer = writer.push_values(alloc, row.as_slice(), out)?;
    }
    writer.finish(out)
}
