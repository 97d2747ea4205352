//! Refusals in words.

ghost use Rattle.std.specs.Prelude.{ℕ, List};
ghost use Rattle.sqlplan.specs.Stops.{Says};

use crate::path_of;
use crate::said::{Said, Words, said_of};
use crate::stop::Stop;
use devices::ReadFailure;
use input_hints::{
    FoundRow, Numbered, certificate_there, file_explanation, json_fault, line_explanation,
    row_there, schema_there, size_explanation, statistics_there, table_there,
};
use pipeline::Refusal;
use query_hints::{example_there, habits_there, names_there, tokens_there};
use schema::{Schema, SchemaRefusal};
use std::alloc::{AllocError, Global};
use words::Meaning;
use words::certificates::{of_certificate, of_check};
use words::meanings::{
    NOT_LEAST, OUTPUT_FAILED, TABLE_UNREAD, TOO_MANY_ROWS, of_schema, of_scope, of_statistics,
    of_table, of_text,
};

/// What a refusal means. Out of memory needs no words.
fn meaning(refusal: &Refusal) -> Option<Meaning> {
    match refusal {
        Refusal::Memory => None,
        Refusal::Schema(refusal) => Some(of_schema(*refusal)),
        Refusal::Text(refusal) => Some(of_text(refusal.reason)),
        Refusal::Scope(refusal) => Some(of_scope(refusal.reason)),
        Refusal::Statistics(refusal) => Some(of_statistics(*refusal)),
        Refusal::Certificate(refusal) => Some(of_certificate(refusal.reason)),
        Refusal::Check(refusal) => Some(of_check(refusal.reason)),
        Refusal::NotLeast => Some(NOT_LEAST),
        Refusal::Table(_, refusal) => Some(of_table(refusal.cause)),
        Refusal::TableDevice(_) => Some(TABLE_UNREAD),
        Refusal::Output => Some(OUTPUT_FAILED),
        Refusal::TooManyRows => Some(TOO_MANY_ROWS),
    }
}

/// What a command was given, by which a refusal is explained.
#[derive(Clone, Copy)]
pub struct Inputs<'a> {
    pub schema: &'a Schema,
    pub text: &'a [u8],
    /// The statistics; nothing where a command reads none.
    pub statistics: &'a [u8],
    /// The folder of the tables; nothing where a command reads none.
    pub folder: &'a str,
    /// The text of a certificate; nothing where a command reads none.
    pub certificate: &'a [u8],
    /// Why a table's file was not read to its end, if one was not.
    pub failure: Option<&'a ReadFailure>,
    /// The row of a table's file that is refused, if it was found again.
    pub row: Option<&'a FoundRow>,
}

/// The text in which a refusal is reported at a byte, and that byte.
fn place_of<'a>(alloc: Global, refusal: &Refusal, inputs: Inputs<'a>) -> Option<(&'a [u8], usize)> {
    match refusal {
        Refusal::Text(refusal) => Some((inputs.text, refusal.at)),
        Refusal::Scope(refusal) => Some((inputs.text, refusal.at)),
        Refusal::Statistics(_) => {
            let at = json_fault(alloc, inputs.statistics)?;
            Some((inputs.statistics, at))
        }
        _ => None,
    }
}

/// Why a file was not read to its end: a line of its own.
fn failure_explanation(alloc: Global, failure: &ReadFailure) -> Result<String, AllocError> {
    match failure {
        ReadFailure::System(error) => file_explanation(alloc, error),
        ReadFailure::TooLong(most) => size_explanation(alloc, *most),
        ReadFailure::LongLine(most) => line_explanation(alloc, *most),
    }
}

/// Which file of a table was not read to its end, and why: a line for each.
fn unread_table(
    alloc: Global,
    path: &str,
    failure: Option<&ReadFailure>,
) -> Result<String, AllocError> {
    let mut said = table_there(alloc, path)?;
    if let Some(failure) = failure {
        said.push_str(failure_explanation(alloc, failure)?.as_str())?;
    }
    Ok(said)
}

/// What the refusal of a certificate numbers. A line that is another than the query's is one of the derivation.
fn numbered(refusal: &Refusal) -> Option<Numbered> {
    match refusal {
        Refusal::Certificate(refusal) => Some(Numbered::Text(refusal.line)),
        Refusal::Check(refusal) if refusal.reason.code() == "K03" => {
            Some(Numbered::Derivation(refusal.line))
        }
        Refusal::Check(refusal) => Some(Numbered::LineOrNode(refusal.line)),
        _ => None,
    }
}

/// The refused line of a certificate, if one was given.
fn certificate_line(
    alloc: Global,
    refusal: &Refusal,
    certificate: &[u8],
) -> Result<String, AllocError> {
    match numbered(refusal) {
        Some(numbered) if !certificate.is_empty() => {
            certificate_there(alloc, certificate, numbered)
        }
        _ => Ok(String::new(alloc)),
    }
}

/// What can be said of a refusal besides its code's meaning, in lines of its own.
fn more(alloc: Global, refusal: &Refusal, inputs: Inputs<'_>) -> Result<String, AllocError> {
    let tables = inputs.schema.tables.as_slice();
    match refusal {
        Refusal::Text(refusal) => {
            let mut said = tokens_there(alloc, inputs.text, *refusal)?;
            said.push_str(habits_there(alloc, inputs.text, *refusal)?.as_str())?;
            Ok(said)
        }
        Refusal::Scope(refusal) => names_there(alloc, inputs.schema, inputs.text, *refusal),
        Refusal::Statistics(refusal) => {
            statistics_there(alloc, inputs.schema, inputs.statistics, *refusal)
        }
        Refusal::Table(place, refusal) => match tables.get(*place) {
            Some(table) => {
                let path = path_of(alloc, inputs.folder, table.name.as_str())?;
                row_there(alloc, path.as_str(), table, *refusal, inputs.row)
            }
            None => Ok(String::new(alloc)),
        },
        Refusal::TableDevice(place) => match tables.get(*place) {
            Some(table) => {
                let path = path_of(alloc, inputs.folder, table.name.as_str())?;
                unread_table(alloc, path.as_str(), inputs.failure)
            }
            None => Ok(String::new(alloc)),
        },
        _ => certificate_line(alloc, refusal, inputs.certificate),
    }
}

/// What a refusal means, with an example of what may stand at its place where there is one.
fn meaning_there(refusal: &Refusal, inputs: Inputs<'_>) -> Option<Meaning> {
    let meaning = meaning(refusal)?;
    let example = match refusal {
        Refusal::Text(refusal) => example_there(inputs.text, *refusal),
        _ => None,
    };
    Some(Meaning {
        text: meaning.text,
        example: example.unwrap_or(meaning.example),
    })
}

/// What there is to say of a refusal.
fn said_there<'a>(
    alloc: Global,
    refusal: &Refusal,
    inputs: Inputs<'a>,
) -> Result<Said<'a>, AllocError> {
    Ok(Said {
        meaning: meaning_there(refusal, inputs),
        place: place_of(alloc, refusal, inputs),
        more: more(alloc, refusal, inputs)?,
    })
}

/// What there is to say of the refusal of a schema, by its text.
fn said_of_schema<'a>(
    alloc: Global,
    refusal: SchemaRefusal,
    text: &'a [u8],
) -> Result<Said<'a>, AllocError> {
    let place = match json_fault(alloc, text) {
        Some(at) => Some((text, at)),
        None => None,
    };
    Ok(Said {
        meaning: Some(of_schema(refusal)),
        place,
        more: schema_there(alloc, text, refusal)?,
    })
}

/// Why a file can't be opened or read.
fn said_of_file(alloc: Global, failure: &ReadFailure) -> Result<Said<'static>, AllocError> {
    Ok(Said {
        meaning: None,
        place: None,
        more: failure_explanation(alloc, failure)?,
    })
}

/// The stop of a refusal, and what is said of it.
pub fn in_words(
    alloc: Global,
    stop: Stop,
    refusal: &Refusal,
    inputs: Inputs<'_>,
    words: Words,
) -> Stop
    ensures { (line : List ℕ) (status : ℕ) → Says line status stop → Says line status result }
{
    said_of(alloc, stop, said_there(alloc, refusal, inputs), words)
}

/// The stop of a schema that is refused, and what is said of it.
pub fn schema_in_words(
    alloc: Global,
    stop: Stop,
    refusal: SchemaRefusal,
    text: &[u8],
    words: Words,
) -> Stop
    ensures { (line : List ℕ) (status : ℕ) → Says line status stop → Says line status result }
{
    said_of(alloc, stop, said_of_schema(alloc, refusal, text), words)
}

/// The stop of a file that can't be opened or read, and why.
pub fn file_in_words(alloc: Global, stop: Stop, failure: &ReadFailure, words: Words) -> Stop
    ensures { (line : List ℕ) (status : ℕ) → Says line status stop → Says line status result }
{
    said_of(alloc, stop, said_of_file(alloc, failure), words)
}
