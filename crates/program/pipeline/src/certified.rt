//! Certificates that are handed in: checked against a query, and run.

ghost use Rattle.std.specs.Prelude.{◌≡◌, ◌⊎◌, [], length, map, IfErr, OnOk, OnErr};
ghost use Rattle.std.specs.Io.KnownBytes.{Appends};
ghost use Rattle.answer_text.specs.AnswerText.{HasFront};
ghost use Rattle.query.specs.Bound.{TablesAreOver};
ghost use Rattle.certificate.specs.Replay.{IsChecked};
ghost use Rattle.pipeline.specs.declared.refusal.Refusal.TheVariants.{Memory};
ghost use Rattle.pipeline.specs.Certified.{Accepts, AcceptsReadable, ByFiles, IsCheckFault, IsNotAccepted, IsNotAnswered, IsNotRun, WithCertified};
ghost use Rattle.pipeline.specs.EndToEnd.{HasTables, IsBefore, IsDeviceFault, IsQuiet};

use crate::answer::answer_by;
use crate::preparation::{bound_query, loaded};
use crate::refusal::Refusal;
use answer_text::AnswerOutput;
use certificate::Certificate;
use certificate_read::read;
use checker;
use prepared_query::PreparedQuery;
use schema::Schema;
use std::alloc::Global;
use store::TableInput;

/// The check of a certificate against a query.
fn accept(
    alloc: Global,
    schema: &Schema,
    query: &PreparedQuery<'_>,
    certificate: &Certificate,
) -> Result<(), Refusal>
    requires { TablesAreOver schema.now query.now }
    ensures accepted { OnOk result (IsChecked schema.now query.now certificate.now) }
    ensures refused { IfErr result (IsCheckFault query.now certificate.now) }
{
    let checked = checker::check(alloc, schema, query, certificate)?;
    // That it was checked says that its plan gives an answer.
    let _certificate = checked.certificate();
    Ok(())
}

/// Checks a certificate against a query: reads the schema, the text and the certificate, and replays it. Ok means that it is accepted.
///
/// The first fault is reported, in the order schema, text, scope, certificate, check.
pub fn check(alloc: Global, schema: &[u8], text: &[u8], certificate: &[u8]) -> Result<(), Refusal>
    ensures accepted { OnOk result (Accepts schema.now text.now certificate.now) }
    ensures refused { IfErr result (IsNotAccepted schema.now text.now certificate.now) }
    // Each certificate that can be read and is checked against the query is accepted, unless memory runs out.
    ensures complete { AcceptsReadable schema.now text.now certificate.now → IfErr result (λ r. r ≡ Memory) }
{
    let schema = Schema::read(alloc, schema)?;
    let asked = bound_query(alloc, &schema, text)?;
    let certificate = read(alloc, certificate)?;
    let query = PreparedQuery::of(alloc, &asked)?;
    accept(alloc, &schema, &query, &certificate)
}

/// Checks a certificate, loads the tables, one input each in the order of the schema, and writes what the certificate's plan gives.
fn answer_by_certificate<R: TableInput, W: AnswerOutput>(
    alloc: Global,
    schema: &Schema,
    query: &PreparedQuery<'_>,
    certificate: &Certificate,
    tables: &mut [R],
    out: &mut W,
) -> Result<(), Refusal>
    requires over { TablesAreOver schema.now query.now }
    requires tables { length tables.old ≡ length schema.now.tables }
    ensures answered { OnOk result (ByFiles schema.now query.now certificate.now (map R.remaining tables.old) (Appends (W.contents out.old) (W.contents out.new))) }
    ensures handed { OnOk result (W.held out.new ≡ []) }
    ensures refused { IfErr result (IsNotAnswered schema.now query.now certificate.now (map R.remaining tables.old)) }
    ensures untouched { IfErr result (λ r. IsBefore r → out.new ≡ out.old) }
    ensures front { OnErr result ((out.new ≡ out.old) ⊎ ByFiles schema.now query.now certificate.now (map R.remaining tables.old) (HasFront (W.contents out.old) (W.contents out.new))) }
    ensures device { IfErr result (IsDeviceFault (map R.failures tables.old) (map R.failures tables.new) (W.failures out.old) (W.failures out.new)) }
    ensures quiet { OnOk result (IsQuiet (map R.failures tables.old) (map R.failures tables.new) (W.failures out.old) (W.failures out.new)) }
{
    let checked = checker::check(alloc, schema, query, certificate)?;
    let _certificate = checked.certificate();
    let database = loaded(alloc, schema, tables)?;
    answer_by(alloc, &checked, &database, out)
}

/// Answers a query by the plan of a certificate: reads the schema, the text and the certificate, checks it, reads the tables' files, and
/// writes what its plan gives. The tables are one input each, in the order of the schema.
///
/// The first fault is reported, in the order schema, text, scope, certificate, check, tables, and `out` is then as it was. During the
/// answer memory or the output may fail, or there may be too many rows, and then a beginning of the answer has been written.
pub fn run<R: TableInput, W: AnswerOutput>(
    alloc: Global,
    schema: &[u8],
    text: &[u8],
    certificate: &[u8],
    tables: &mut [R],
    out: &mut W,
) -> Result<(), Refusal>
    requires { HasTables schema.now (length tables.old) }
    // What is added to the output is the text of an answer, whose rows the certificate's plan gives.
    ensures answered { OnOk result (WithCertified schema.now text.now certificate.now (map R.remaining tables.old) (Appends (W.contents out.old) (W.contents out.new))) }
    // Nothing of it is held back.
    ensures handed { OnOk result (W.held out.new ≡ []) }
    ensures refused { IfErr result (IsNotRun schema.now text.now certificate.now (map R.remaining tables.old)) }
    ensures untouched { IfErr result (λ r. IsBefore r → out.new ≡ out.old) }
    // A fault that comes later leaves a beginning of such a text.
    ensures front { OnErr result ((out.new ≡ out.old) ⊎ WithCertified schema.now text.now certificate.now (map R.remaining tables.old) (HasFront (W.contents out.old) (W.contents out.new))) }
    ensures device { IfErr result (IsDeviceFault (map R.failures tables.old) (map R.failures tables.new) (W.failures out.old) (W.failures out.new)) }
    // No other call of a device failed, and none where there is an answer.
    ensures quiet { OnOk result (IsQuiet (map R.failures tables.old) (map R.failures tables.new) (W.failures out.old) (W.failures out.new)) }
{
    let schema = Schema::read(alloc, schema)?;
    let asked = bound_query(alloc, &schema, text)?;
    let certificate = read(alloc, certificate)?;
    let query = PreparedQuery::of(alloc, &asked)?;
    answer_by_certificate(alloc, &schema, &query, &certificate, tables, out)
}
