//! All codes of refusals, and their list for people.

ghost use Rattle.std.specs.Prelude.{◌≡◌};
ghost use Rattle.std.specs.List.{Any};
ghost use Rattle.schema.specs.declared.fault.SchemaRefusal.{SchemaRefusal};
ghost use Rattle.schema.specs.Refusals.{code_of as schema_code};
ghost use Rattle.sql_parse.specs.declared.fault.ParseReason.{ParseReason};
ghost use Rattle.sql_parse.specs.Codes.{code_of as text_code};
ghost use Rattle.binder.specs.declared.fault.BindReason.{BindReason};
ghost use Rattle.binder.specs.Codes.{code_of as scope_code};
ghost use Rattle.statistics.specs.declared.fault.StatisticsRefusal.{StatisticsRefusal};
ghost use Rattle.statistics.specs.Refusals.{code_of as statistics_code};
ghost use Rattle.store.specs.declared.fault.TableCause.{TableCause};
ghost use Rattle.store.specs.Faults.{code_of as table_code};
ghost use Rattle.certificate_text.specs.declared.fault.TextReason.{TextReason};
ghost use Rattle.certificate_text.specs.Codes.{code_of as certificate_code};
ghost use Rattle.certificate.specs.declared.certificate.CheckReason.{CheckReason};
ghost use Rattle.certificate.specs.Codes.{code_of as check_code};

use crate::certificates::{of_certificate, of_check};
use crate::meanings::{
    Meaning, NOT_LEAST, OUTPUT_FAILED, TABLE_UNREAD, TOO_MANY_ROWS, of_schema, of_scope,
    of_statistics, of_table, of_text,
};
use binder::BindReason;
use certificate::CheckReason;
use certificate_text::TextReason;
use schema::SchemaRefusal;
use sql_parse::ParseReason;
use statistics::StatisticsRefusal;
use std::alloc::{AllocError, Global};
use store::{FieldFault, TableCause, TableRefusal};

const SCHEMA_REFUSALS: &[SchemaRefusal] = &[
    SchemaRefusal::NotJson,
    SchemaRefusal::Shape,
    SchemaRefusal::Repeated,
    SchemaRefusal::UnknownColumn,
    SchemaRefusal::TooMany,
];

const PARSE_REASONS: &[ParseReason] = &[
    ParseReason::NoToken,
    ParseReason::OpenText,
    ParseReason::NumberRange,
    ParseReason::Unexpected,
    ParseReason::TooDeep,
    ParseReason::TooLong,
];

const BIND_REASONS: &[BindReason] = &[
    BindReason::UnknownTable,
    BindReason::UnknownColumn,
    BindReason::AmbiguousName,
    BindReason::RepeatedName,
    BindReason::MixedKinds,
    BindReason::UngroupedColumn,
    BindReason::SumOfText,
    BindReason::NotOneColumn,
    BindReason::NoOutputColumn,
    BindReason::TooLarge,
    BindReason::OuterAggregate,
];

const STATISTICS_REFUSALS: &[StatisticsRefusal] = &[
    StatisticsRefusal::NotJson,
    StatisticsRefusal::Shape,
];

const TABLE_CAUSES: &[TableCause] = &[
    TableCause::OtherLength,
    TableCause::Field(0, FieldFault::NotText),
    TableCause::OtherHeader,
    TableCause::Field(0, FieldFault::NotNumber),
    TableCause::Field(0, FieldFault::BadEscape),
    TableCause::Field(0, FieldFault::NullValue),
    TableCause::Repeated(0),
    TableCause::TooMany,
];

const TEXT_REASONS: &[TextReason] = &[
    TextReason::OtherVersion,
    TextReason::OtherForm,
    TextReason::OutOfRange,
    TextReason::BrokenOff,
    TextReason::OverLimit,
];

/// With K05 once, which a condition of a rule shares with a fact.
const CHECK_REASONS: &[CheckReason] = &[
    CheckReason::UnknownLine,
    CheckReason::OtherForm,
    CheckReason::OtherLine,
    CheckReason::IllFormed,
    CheckReason::FailedFact,
    CheckReason::OtherOperator,
    CheckReason::UnsortedInput,
    CheckReason::UnsortedAnswer,
];

pub fn schema_refusals() -> &'static [SchemaRefusal]
    ensures { (r : SchemaRefusal) → Any (λ s. schema_code s ≡ schema_code r) result.now }
{
    SCHEMA_REFUSALS
}

pub fn parse_reasons() -> &'static [ParseReason]
    ensures { (r : ParseReason) → Any (λ s. text_code s ≡ text_code r) result.now }
{
    PARSE_REASONS
}

pub fn bind_reasons() -> &'static [BindReason]
    ensures { (r : BindReason) → Any (λ s. scope_code s ≡ scope_code r) result.now }
{
    BIND_REASONS
}

pub fn statistics_refusals() -> &'static [StatisticsRefusal]
    ensures { (r : StatisticsRefusal) → Any (λ s. statistics_code s ≡ statistics_code r) result.now }
{
    STATISTICS_REFUSALS
}

pub fn table_causes() -> &'static [TableCause]
    ensures { (r : TableCause) → Any (λ s. table_code s ≡ table_code r) result.now }
{
    TABLE_CAUSES
}

pub fn text_reasons() -> &'static [TextReason]
    ensures { (r : TextReason) → Any (λ s. certificate_code s ≡ certificate_code r) result.now }
{
    TEXT_REASONS
}

pub fn check_reasons() -> &'static [CheckReason]
    ensures { (r : CheckReason) → Any (λ s. check_code s ≡ check_code r) result.now }
{
    CHECK_REASONS
}

/// Adds a code, what it means, and below it an example.
fn push_code(list: &mut String, code: &str, meaning: Meaning) -> Result<(), AllocError> {
    let text = meaning.text;
    let example = meaning.example;
    write!(list, "{code}  {text}\n     for example {example}\n")
}

/// The codes of what is handed in before any table, in the order in which they are reported.
fn push_early(list: &mut String) -> Result<(), AllocError> {
    for refusal in schema_refusals() {
        push_code(list, refusal.code(), of_schema(*refusal))?;
    }
    for reason in parse_reasons() {
        push_code(list, reason.code(), of_text(*reason))?;
    }
    for reason in bind_reasons() {
        push_code(list, reason.code(), of_scope(*reason))?;
    }
    for refusal in statistics_refusals() {
        push_code(list, refusal.code(), of_statistics(*refusal))?;
    }
    Ok(())
}

/// The codes of tables.
fn push_tables(list: &mut String) -> Result<(), AllocError> {
    for cause in table_causes() {
        let refusal = TableRefusal {
            row: 0,
            cause: *cause,
        };
        push_code(list, refusal.code(), of_table(*cause))?;
    }
    push_code(list, "T08", TABLE_UNREAD)
}

/// The codes of certificates.
fn push_certificates(list: &mut String) -> Result<(), AllocError> {
    for reason in check_reasons() {
        push_code(list, reason.code(), of_check(*reason))?;
    }
    for reason in text_reasons() {
        push_code(list, reason.code(), of_certificate(*reason))?;
    }
    Ok(())
}

/// All codes, each with what it means and an example.
pub fn list_of_codes(alloc: Global) -> Result<String, AllocError> {
    let mut list = String::new(alloc);
    push_early(&mut list)?;
    push_tables(&mut list)?;
    push_certificates(&mut list)?;
    push_code(&mut list, "L01", NOT_LEAST)?;
    push_code(&mut list, "X01", TOO_MANY_ROWS)?;
    push_code(&mut list, "X02", OUTPUT_FAILED)?;
    Ok(list)
}
