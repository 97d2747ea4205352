//! Files that are something else than what is read.

ghost use Rattle.std.specs.Prelude.{IfOk, string_bytes};
ghost use Rattle.input_hints.specs.Lines.{AreLines};

use crate::json::line_of;
use csv::ByteRecord;
use schema::Table;
use std::alloc::{AllocError, Global};

/// How files of other kinds begin, and what is to be done with one.
const KINDS: &[(&[u8], &str)] = &[
    (
        &[0x1F, 0x8B],
        "the file is compressed by gzip: gunzip gives the CSV file",
    ),
    (
        &[0x28, 0xB5, 0x2F, 0xFD],
        "the file is compressed by zstd: unzstd gives the CSV file",
    ),
    (
        b"PK\x03\x04",
        "the file is a ZIP archive, as those of spreadsheets are: a sheet has to be saved as CSV",
    ),
    (
        b"PAR1",
        "the file is a Parquet file: its rows have to be written as CSV",
    ),
    (
        b"SQLite format 3",
        "the file is an SQLite database: import/from_sqlite.py writes its tables as CSV",
    ),
    (
        &[0xFF, 0xFE],
        "the file is in UTF-16: it has to be saved in UTF-8",
    ),
    (
        &[0xFE, 0xFF],
        "the file is in UTF-16: it has to be saved in UTF-8",
    ),
];

/// What may stand between fields where commas are wanted, and its name.
const SEPARATORS: &[(u8, &str)] = &[(b';', "semicolons"), (b'\t', "tabs"), (b'|', "bars")];

const BYTE_ORDER_MARK: &str =
    "the text begins with a byte order mark, which is no part of JSON: the file has to be saved without it";

/// Adds what is to be done with a table's file, by its header: a line of its own, or nothing.
pub(crate) fn push_kind(
    table: &Table,
    header: &ByteRecord,
    said: &mut String,
) -> Result<(), AllocError> {
    let Some(first) = header.get(0) else {
        return Ok(());
    };
    if let Some((_, what)) = KINDS.iter().find(|(front, _)| first.starts_with(front)) {
        return write!(said, "{what}\n");
    }
    let columns = table.columns.as_slice().len();
    let found = SEPARATORS.iter().find(|(separator, _)| {
        let fields = first.split(|byte| byte == separator).count();
        header.len() == 1 && columns > 1 && fields == columns
    });
    match found {
        Some((_, between)) => write!(
            said,
            "its fields stand between {between}, and a comma is wanted there\n"
        ),
        None => Ok(()),
    }
}

/// What is said of a JSON text that begins with a byte order mark: a line of its own, or nothing.
#[tactic(auto, unfolding(crate::specs::Lines::AreLines))]
pub(crate) fn mark_there(alloc: Global, text: &[u8]) -> Result<String, AllocError>
    ensures { IfOk result (λ said. AreLines (string_bytes said)) }
{
    if text.starts_with(&[0xEF, 0xBB, 0xBF]) {
        return line_of(String::from_str(alloc, BYTE_ORDER_MARK)?);
    }
    Ok(String::new(alloc))
}
