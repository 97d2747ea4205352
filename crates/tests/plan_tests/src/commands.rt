//! Whole queries by both commands, from bytes to bytes.

ghost use Rattle.pipeline.specs.EndToEnd.{HasTables};

use answer_text::CountedOutput;
use fixtures::push_lines;
use pipeline::{
    Exploration, Refusal, ReportForm, Stopwatch, check, evaluate, fault_line, query,
    query_measured, run,
};
use schema::Schema;
use std::alloc::{AllocError, Global};
use std::io::BufWriter;
use std::str;
use store::CountedInput;
use values::Fault;

/// By what a query is answered.
#[derive(Clone, Copy)]
pub enum Way<'a> {
    Plan,
    /// The same, and a report of the plan, which stands behind the answer.
    MeasuredPlan(ReportForm),
    Meaning,
    /// The plan of the certificate with this text.
    Certificate(&'a [u8]),
}

/// A clock that each look at it puts forward, so that each node takes a microsecond.
#[derive(Drop)]
struct Ticks {
    microseconds: u64,
}

impl Stopwatch for Ticks {
    fn microseconds(&mut self) -> u64 {
        self.microseconds = self.microseconds.saturating_add(1);
        self.microseconds
    }
}

/// What a command reads.
#[derive(Clone, Copy)]
pub struct Files<'a> {
    pub schema: &'a [u8],
    pub text: &'a [u8],
    pub dept: &'a [u8],
    pub emp: &'a [u8],
}

/// Runs a command over the two tables. Gives what is reported of the plan.
fn answer(
    alloc: Global,
    way: Way<'_>,
    files: Files<'_>,
    out: &mut CountedOutput<BufWriter<Vec<u8>>>,
) -> Result<Vec<u8>, Refusal>
    requires { HasTables files.schema.now 2 }
{
    let mut tables = [CountedInput::new(files.dept), CountedInput::new(files.emp)];
    match way {
        Way::Plan => query(
            alloc,
            files.schema,
            files.text,
            &mut tables,
            2_000,
            Exploration::ToLimit,
            out,
        )?,
        Way::MeasuredPlan(form) => {
            return query_measured(
                alloc,
                files.schema,
                files.text,
                &mut tables,
                2_000,
                Exploration::ToLimit,
                form,
                &mut Ticks { microseconds: 0 },
                out,
            );
        }
        Way::Meaning => evaluate(alloc, files.schema, files.text, &mut tables, out)?,
        Way::Certificate(certificate) => run(
            alloc,
            files.schema,
            files.text,
            certificate,
            &mut tables,
            out,
        )?,
    }
    Ok(Vec::new(alloc))
}

/// The lines of what was written, with `;` between them, and those of the report, or the line that reports a refusal.
fn push_outcome(
    alloc: Global,
    reported: &mut String,
    written: &[u8],
    outcome: &Result<Vec<u8>, Refusal>,
    schema: Option<&Schema>,
) -> Result<(), AllocError> {
    let written = str::from_utf8(written).unwrap_or("no text");
    push_lines(reported, written.strip_suffix("\n").unwrap_or(written), ";")?;
    match outcome {
        Ok(report) if report.is_empty() => Ok(()),
        Ok(report) => {
            reported.push_str(";")?;
            let report = str::from_utf8(report.as_slice()).unwrap_or("no text");
            push_lines(reported, report.strip_suffix("\n").unwrap_or(report), ";")
        }
        Err(refusal) => reported.push_str(fault_line(alloc, refusal, schema)?.as_str()),
    }
}

/// What a command writes and reports. What is still in the buffer was not handed on.
fn push_written(
    alloc: Global,
    reported: &mut String,
    way: Way<'_>,
    files: Files<'_>,
    schema: Option<&Schema>,
) -> Result<(), AllocError>
    requires { HasTables files.schema.now 2 }
{
    let Ok(buffer) = BufWriter::new(alloc, Vec::new(alloc)) else {
        return Err(AllocError);
    };
    let mut out = CountedOutput::new(buffer);
    let outcome = answer(alloc, way, files, &mut out);
    let (written, _) = out.into_inner().into_parts();
    push_outcome(alloc, reported, written.as_slice(), &outcome, schema)
}

/// Adds what a command writes, or the line that reports its refusal, before which nothing is written.
pub fn push_answer(
    alloc: Global,
    reported: &mut String,
    way: Way<'_>,
    files: Files<'_>,
) -> Result<(), AllocError> {
    match &Schema::read(alloc, files.schema) {
        Ok(schema) if schema.tables.len() == 2 => {
            push_written(alloc, reported, way, files, Some(schema))
        }
        Ok(_) => reported.push_str("not two tables"),
        Err(Fault::Refused(_)) => push_written(alloc, reported, way, files, None),
        Err(Fault::Memory) => Err(AllocError),
    }
}

/// Adds that a certificate is accepted, or the line that reports its refusal.
pub fn push_acceptance(
    alloc: Global,
    reported: &mut String,
    files: Files<'_>,
    certificate: &[u8],
) -> Result<(), AllocError> {
    match check(alloc, files.schema, files.text, certificate) {
        Ok(()) => reported.push_str("accepted"),
        Err(refusal) => reported.push_str(fault_line(alloc, &refusal, None)?.as_str()),
    }
}
