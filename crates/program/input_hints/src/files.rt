//! Why a file fails, and what a row of a table's file is to be.

use crate::foreign::push_kind;
use crate::rows::FoundRow;
use csv::ByteRecord;
use schema::{Column, Kind, Table};
use std::alloc::{AllocError, Global};
use std::io;
use std::io::ErrorKind;
use store::{TableCause, TableRefusal};
use words::{quoted_front, spelled};

/// Why a file can't be opened or read, where that can be put in words.
fn reason(kind: ErrorKind) -> Option<&'static str> {
    match kind {
        ErrorKind::NotFound => Some("there is no such file, or no such folder on the way to it"),
        ErrorKind::PermissionDenied => Some(
            "it may not be opened: its permissions or those of a folder on the way to it forbid it",
        ),
        ErrorKind::IsADirectory => Some("it is a folder, and a file is wanted"),
        ErrorKind::NotADirectory => Some("what stands before a / of the path is no folder"),
        ErrorKind::InvalidFilename => Some("the path or a name in it is too long"),
        ErrorKind::FilesystemLoop => Some("the links on the way to it go in a circle"),
        _ => None,
    }
}

/// Why a file can't be opened or read: in words, or what the system says.
pub fn file_explanation(alloc: Global, error: &io::Error) -> Result<String, AllocError> {
    match reason(error.kind()) {
        Some(reason) => format!(in alloc; "{reason}\n"),
        None => format!(in alloc; "the system says: {error}\n"),
    }
}

/// Why a file is refused that has more bytes than are read of it.
pub fn size_explanation(alloc: Global, most: u64) -> Result<String, AllocError> {
    format!(in alloc;
        "it goes on for more than {most} bytes, and no more are read of such a file\n"
    )
}

/// Why a file is refused that has more bytes without a line break than are read of it.
pub fn line_explanation(alloc: Global, most: u64) -> Result<String, AllocError> {
    format!(in alloc;
        "it goes on for more than {most} bytes without a line break, and no more are read\n"
    )
}

/// What a value of a column looks like.
fn push_values(said: &mut String, column: &Column) -> Result<(), AllocError> {
    said.push_str(match column.kind {
        Kind::Int =>
            "INT, a whole number from -9223372036854775808 to 9223372036854775807, as 0, 12 or -7",
        Kind::Text => "TEXT, any text in UTF-8, with one more backslash before one at its front",
    })?;
    said.push_str(if column.not_null {
        ", and never Null"
    } else {
        "; or \\N for Null"
    })
}

/// Adds names with commas between them, as a header has them.
fn push_header(said: &mut String, names: &[&str]) -> Result<(), AllocError> {
    for (place, name) in names.iter().enumerate() {
        said.push_str(if place > 0 { "," } else { "" })?;
        said.push_str(name)?;
    }
    Ok(())
}

/// Adds the names of all columns.
fn push_names(alloc: Global, said: &mut String, columns: &[Column]) -> Result<(), AllocError> {
    let mut names = Vec::new(alloc);
    for column in columns {
        names.push(column.name.as_str())?;
    }
    push_header(said, names.as_slice())
}

/// Adds a unique list of a table.
fn push_unique_list(
    alloc: Global,
    said: &mut String,
    table: &Table,
    list: &[usize],
) -> Result<(), AllocError> {
    let columns = table.columns.as_slice();
    let mut names = Vec::new(alloc);
    for column in list {
        if let Some(column) = columns.get(*column) {
            names.push(column.name.as_str())?;
        }
    }
    said.push('(')?;
    push_header(said, names.as_slice())?;
    said.push(')')
}

/// Adds the unique lists of a table.
fn push_unique(alloc: Global, said: &mut String, table: &Table) -> Result<(), AllocError> {
    for (place, list) in table.unique.as_slice().iter().enumerate() {
        said.push_str(if place > 0 { ", " } else { "" })?;
        push_unique_list(alloc, said, table, list.as_slice())?;
    }
    Ok(())
}

/// Adds which row is repeated, and on which unique list, where that was found.
fn push_repeated(
    alloc: Global,
    said: &mut String,
    table: &Table,
    row: usize,
    found: Option<&FoundRow>,
) -> Result<(), AllocError> {
    if let Some(earlier) = found.and_then(|found| found.earlier) {
        if let Some(list) = table.unique.as_slice().get(earlier.list) {
            let line = earlier.line;
            write!(
                said,
                "row {row}, line {line} of the file, has the same values in the unique list "
            )?;
            return push_unique_list(alloc, said, table, list.as_slice());
        }
    }
    write!(
        said,
        "row {row} has the same values in one of the unique lists "
    )?;
    push_unique(alloc, said, table)
}

/// Adds what is wanted of a row in place of what stands there.
fn push_wanted(
    alloc: Global,
    said: &mut String,
    table: &Table,
    cause: TableCause,
    found: Option<&FoundRow>,
) -> Result<(), AllocError> {
    let columns = table.columns.as_slice();
    match cause {
        TableCause::OtherHeader => {
            push_names(alloc, said, columns)?;
            said.push_str(" is wanted")
        }
        TableCause::OtherLength => {
            said.push_str("the fields ")?;
            push_names(alloc, said, columns)?;
            said.push_str(" are wanted")
        }
        TableCause::Field(place, _) => match columns.get(place) {
            Some(column) => {
                let name = column.name.as_str();
                write!(said, "column {name} is ")?;
                push_values(said, column)
            }
            None => Ok(()),
        },
        TableCause::Repeated(row) => push_repeated(alloc, said, table, row, found),
        TableCause::TooMany => said.push_str("no further row is wanted"),
    }
}

/// How many fields of a row are shown at most.
const SHOWN_FIELDS: usize = 16;

/// Adds a field as it stands.
fn push_field(
    alloc: Global,
    said: &mut String,
    fields: &ByteRecord,
    place: usize,
) -> Result<(), AllocError> {
    match fields.get(place) {
        Some(field) => said.push_str(quoted_front(alloc, field)?.as_str()),
        None => Ok(()),
    }
}

/// Adds the fields of a list of columns as they stand, with commas between them.
fn push_list(
    alloc: Global,
    said: &mut String,
    fields: &ByteRecord,
    list: &[usize],
) -> Result<(), AllocError> {
    for (number, column) in list.iter().enumerate() {
        said.push_str(if number > 0 { "," } else { "" })?;
        push_field(alloc, said, fields, *column)?;
    }
    Ok(())
}

/// Adds a row as it stands: how many fields it has, and the first of them.
fn push_row(alloc: Global, said: &mut String, fields: &ByteRecord) -> Result<(), AllocError> {
    match fields.len() {
        1 => said.push_str("1 field stands there: ")?,
        count => write!(said, "{count} fields stand there: ")?,
    }
    for place in 0..fields.len().min(SHOWN_FIELDS) {
        said.push_str(if place > 0 { "," } else { "" })?;
        push_field(alloc, said, fields, place)?;
    }
    if fields.len() > SHOWN_FIELDS {
        let more = fields.len() - SHOWN_FIELDS;
        write!(said, " and {more} more")?;
    }
    Ok(())
}

/// Adds what stands in a refused row, a line of its own.
fn push_found(
    alloc: Global,
    said: &mut String,
    table: &Table,
    cause: TableCause,
    found: &FoundRow,
) -> Result<(), AllocError> {
    let fields = &found.fields;
    match cause {
        TableCause::OtherHeader => {
            push_row(alloc, said, fields)?;
            said.push('\n')?;
            return push_kind(table, fields, said);
        }
        TableCause::OtherLength => push_row(alloc, said, fields)?,
        TableCause::Field(place, _) => {
            said.push_str("there stands ")?;
            push_field(alloc, said, fields, place)?;
        }
        TableCause::Repeated(_) => {
            let list = found
                .earlier
                .and_then(|earlier| table.unique.as_slice().get(earlier.list));
            said.push_str("there stands ")?;
            if let Some(list) = list {
                push_list(alloc, said, fields, list.as_slice())?;
            }
        }
        TableCause::TooMany => return Ok(()),
    }
    said.push('\n')
}

/// Which row of a table's file is refused, and what is wanted of it: a line of its own. Of a row that was found also its line in the file, and
/// below what stands there.
pub fn row_there(
    alloc: Global,
    path: &str,
    table: &Table,
    refusal: TableRefusal,
    found: Option<&FoundRow>,
) -> Result<String, AllocError> {
    let path = spelled(alloc, path)?;
    let mut said = String::new(alloc);
    match refusal.row {
        0 => write!(&mut said, "{path}, its header")?,
        row => write!(
            &mut said,
            "{path}, row {row} (its header and empty lines are not counted)"
        )?,
    }
    if let Some(found) = found {
        let line = found.line;
        write!(&mut said, ", line {line} of the file")?;
    }
    said.push_str(": ")?;
    push_wanted(alloc, &mut said, table, refusal.cause, found)?;
    said.push('\n')?;
    if let Some(found) = found {
        push_found(alloc, &mut said, table, refusal.cause, found)?;
    }
    Ok(said)
}

/// Which file of a table could not be read to its end: a line of its own.
pub fn table_there(alloc: Global, path: &str) -> Result<String, AllocError> {
    let path = spelled(alloc, path)?;
    format!(in alloc; "the file is {path}\n")
}

/// What is said of a table's file that ends within quotes, by the line on which they open, if that is known: a line of its own.
pub fn quote_there(alloc: Global, table: &str, line: Option<u64>) -> Result<String, AllocError> {
    let mut said = String::new(alloc);
    write!(&mut said, "table {table}")?;
    if let Some(line) = line {
        write!(&mut said, " line {line}")?;
    }
    said.push_str(
        ": the quote that opens a field there is never closed, so the rest of the file stands in that field\n",
    )?;
    Ok(said)
}
