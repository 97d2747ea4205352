//! Why a query has no answer, and the line that reports it.

ghost use Rattle.std.specs.Prelude.{◌≡◌, ◌++◌, codes, decimal, string_bytes, IfOk};
ghost use Rattle.std.specs.Option.{option_copied};
ghost use Rattle.pipeline.specs.Refusals as spec;
ghost use Rattle.certificate.specs.Codes as check;
ghost use Rattle.certificate_text.specs.Codes as certificate;
ghost use Rattle.pipeline.specs.Lines as lines;
ghost use Rattle.store.specs.Faults.{code_of, earlier_of};

use crate::written::WriteFault;
use answer_text::AnswerFault;
use binder::{BindFault, BindRefusal};
use certificate::{CheckFault, CheckRefusal};
use certificate_text::{TextFault, TextRefusal};
use schema::{Schema, SchemaFault, SchemaRefusal};
use sql_parse::{ParseFault, ParseRefusal};
use statistics::{StatisticsFault, StatisticsRefusal};
use std::alloc::{AllocError, AllocFailed, Global};
use store::{TableFault, TableRefusal};
use thiserror::Error;
use values::Fault;

/// Why a query has no answer.
#[derive(Debug, Drop, Error)]
pub enum Refusal {
    #[error("out of memory")]
    Memory,
    #[error("schema: {0}")]
    Schema(SchemaRefusal),
    #[error("text: {0}")]
    Text(ParseRefusal),
    #[error("scope: {0}")]
    Scope(BindRefusal),
    #[error("statistics: {0}")]
    Statistics(StatisticsRefusal),
    #[error("certificate: {0}")]
    Certificate(TextRefusal),
    #[error("check: {0}")]
    Check(CheckRefusal),
    /// Labels don't show that the plan is the cheapest of its certificate's lines.
    #[error("labels don't show the plan to be the cheapest")]
    NotLeast,
    /// The table by its place in the schema.
    #[error("table {0}: {1}")]
    Table(usize, TableRefusal),
    #[error("table {0}: the device failed")]
    TableDevice(usize),
    #[error("the output failed")]
    Output,
    /// The answer has more than 2^62 rows.
    #[error("too many rows")]
    TooManyRows,
}

impl From<AllocError> for Refusal {
    ghost use Rattle.pipeline.specs.declared.refusal.Refusal.TheVariants.{Memory};

    ghost from_gives = { λ _ e. e ≡ Memory };

    fn from(_error: AllocError) -> Refusal {
        Refusal::Memory
    }
}

impl<T: Drop> From<AllocFailed<T>> for Refusal {
    ghost use Rattle.pipeline.specs.declared.refusal.Refusal.TheVariants.{Memory};

    ghost from_gives = { λ _ e. e ≡ Memory };

    fn from(_error: AllocFailed<T>) -> Refusal {
        Refusal::Memory
    }
}

impl From<SchemaFault> for Refusal {
    ghost use Rattle.pipeline.specs.Refusals.{of_schema};

    ghost from_gives = { λ fault e. e ≡ of_schema fault };

    fn from(fault: SchemaFault) -> Refusal {
        match fault {
            Fault::Memory => Refusal::Memory,
            Fault::Refused(refusal) => Refusal::Schema(refusal),
        }
    }
}

impl From<ParseFault> for Refusal {
    ghost use Rattle.pipeline.specs.Refusals.{of_text};

    ghost from_gives = { λ fault e. e ≡ of_text fault };

    fn from(fault: ParseFault) -> Refusal {
        match fault {
            Fault::Memory => Refusal::Memory,
            Fault::Refused(refusal) => Refusal::Text(refusal),
        }
    }
}

impl From<BindFault> for Refusal {
    ghost use Rattle.pipeline.specs.Refusals.{of_scope};

    ghost from_gives = { λ fault e. e ≡ of_scope fault };

    fn from(fault: BindFault) -> Refusal {
        match fault {
            Fault::Memory => Refusal::Memory,
            Fault::Refused(refusal) => Refusal::Scope(refusal),
        }
    }
}

impl From<StatisticsFault> for Refusal {
    ghost use Rattle.pipeline.specs.Refusals.{of_statistics};

    ghost from_gives = { λ fault e. e ≡ of_statistics fault };

    fn from(fault: StatisticsFault) -> Refusal {
        match fault {
            Fault::Memory => Refusal::Memory,
            Fault::Refused(refusal) => Refusal::Statistics(refusal),
        }
    }
}

impl From<TextFault> for Refusal {
    ghost use Rattle.pipeline.specs.Refusals.{of_certificate};

    ghost from_gives = { λ fault e. e ≡ of_certificate fault };

    fn from(fault: TextFault) -> Refusal {
        match fault {
            Fault::Memory => Refusal::Memory,
            Fault::Refused(refusal) => Refusal::Certificate(refusal),
        }
    }
}

impl From<CheckFault> for Refusal {
    ghost use Rattle.pipeline.specs.Refusals.{of_check};

    ghost from_gives = { λ fault e. e ≡ of_check fault };

    fn from(fault: CheckFault) -> Refusal {
        match fault {
            Fault::Memory => Refusal::Memory,
            Fault::Refused(refusal) => Refusal::Check(refusal),
        }
    }
}

impl From<AnswerFault> for Refusal {
    ghost use Rattle.pipeline.specs.Refusals.{of_answer};

    ghost from_gives = { λ fault e. e ≡ of_answer fault };

    fn from(fault: AnswerFault) -> Refusal {
        match fault {
            Fault::Memory => Refusal::Memory,
            Fault::Refused(_) => Refusal::Output,
        }
    }
}

impl From<WriteFault> for Refusal {
    ghost use Rattle.pipeline.specs.Refusals.{of_write};

    ghost from_gives = { λ fault e. e ≡ of_write fault };

    fn from(fault: WriteFault) -> Refusal {
        match fault {
            WriteFault::Memory => Refusal::Memory,
            WriteFault::Output => Refusal::Output,
            WriteFault::TooManyRows => Refusal::TooManyRows,
        }
    }
}

impl Refusal {
    /// The fault of a table, by its place in the schema.
    pub fn of_table(table: usize, fault: TableFault) -> Refusal
        ensures { result ≡ spec.of_table table fault }
    {
        match fault {
            TableFault::Memory => Refusal::Memory,
            TableFault::Device => Refusal::TableDevice(table),
            TableFault::Refused(refusal) => Refusal::Table(table, refusal),
        }
    }

    /// The exit status of the program: 2 where what was handed in is refused, 3 where the machine failed.
    pub fn status(&self) -> u8
        ensures { result ≡ spec.status_of self.now }
    {
        match self {
            Refusal::Memory | Refusal::TableDevice(_) | Refusal::Output => 3,
            _ => 2,
        }
    }
}

fn name_of(schema: Option<&Schema>, table: usize) -> &str
    ensures { result.now ≡ lines.table_name (option_copied schema.entry) table }
{
    match schema {
        Some(schema) => match schema.tables.get(table) {
            Some(entry) => entry.name.as_str(),
            None => "",
        },
        None => "",
    }
}

fn table_line(alloc: Global, name: &str, refusal: TableRefusal) -> Result<String, AllocError>
    ensures { IfOk result (λ line. string_bytes line ≡ codes "refused " ++ (code_of refusal.cause ++ (codes " " ++ (name.now ++ (codes " row " ++ (decimal refusal.row ++ lines.earlier_text (earlier_of refusal.cause))))))) }
{
    let code = refusal.code();
    let row = refusal.row;
    match refusal.earlier() {
        Some(earlier) => format!(in alloc; "refused {code} {name} row {row} and {earlier}"),
        None => format!(in alloc; "refused {code} {name} row {row}"),
    }
}

/// The line of a refusal that has no place.
fn code_line(alloc: Global, code: &str) -> Result<String, AllocError>
    ensures { IfOk result (λ line. string_bytes line ≡ codes "refused " ++ code.now) }
{
    format!(in alloc; "refused {code}")
}

/// The line of a refusal at a place of the text.
fn place_line(alloc: Global, code: &str, at: usize) -> Result<String, AllocError>
    ensures { IfOk result (λ line. string_bytes line ≡ codes "refused " ++ (code.now ++ (codes " at " ++ decimal at))) }
{
    format!(in alloc; "refused {code} at {at}")
}

/// The line of a refusal at a line of a certificate's text.
fn certificate_line(alloc: Global, refusal: TextRefusal) -> Result<String, AllocError>
    ensures { IfOk result (λ line. string_bytes line ≡ codes "refused " ++ (certificate.code_of refusal.reason ++ (codes " line " ++ decimal refusal.line))) }
{
    let code = refusal.reason.code();
    let line = refusal.line;
    format!(in alloc; "refused {code} line {line}")
}

/// The line of a refusal at a line or node of a certificate.
fn check_line(alloc: Global, refusal: CheckRefusal) -> Result<String, AllocError>
    ensures { IfOk result (λ line. string_bytes line ≡ codes "refused " ++ (check.code_of refusal.reason ++ (lines.rule_text (check.rule_of refusal.reason) ++ (codes " line " ++ decimal refusal.line)))) }
{
    let code = refusal.reason.code();
    let line = refusal.line;
    match refusal.reason.rule() {
        Some(rule) => format!(in alloc; "refused {code} {rule} line {line}"),
        None => format!(in alloc; "refused {code} line {line}"),
    }
}

/// The line that reports a refusal, without its line end. The schema names the table of a table's fault.
pub fn fault_line(
    alloc: Global,
    refusal: &Refusal,
    schema: Option<&Schema>,
) -> Result<String, AllocError>
    ensures { IfOk result (λ line. string_bytes line ≡ lines.line_of (option_copied schema.entry) refusal.now) }
{
    match refusal {
        Refusal::Memory => String::from_str(alloc, "memory"),
        Refusal::Schema(refusal) => code_line(alloc, refusal.code()),
        Refusal::Text(refusal) => place_line(alloc, refusal.reason.code(), refusal.at),
        Refusal::Scope(refusal) => place_line(alloc, refusal.reason.code(), refusal.at),
        Refusal::Statistics(refusal) => code_line(alloc, refusal.code()),
        Refusal::Certificate(refusal) => certificate_line(alloc, *refusal),
        Refusal::Check(refusal) => check_line(alloc, *refusal),
        Refusal::NotLeast => code_line(alloc, "L01"),
        Refusal::Table(table, refusal) => table_line(alloc, name_of(schema, *table), *refusal),
        Refusal::TableDevice(table) => {
            let name = name_of(schema, *table);
            format!(in alloc; "device T08 {name}")
        }
        Refusal::Output => String::from_str(alloc, "device X02"),
        Refusal::TooManyRows => code_line(alloc, "X01"),
    }
}
