//! A refused row as its table's file has it, which is read again for that.

ghost use Rattle.std.specs.Prelude.{◌↔◌, IfSome, IsSome};
ghost use Rattle.store.specs.Faults.{earlier_of};

use csv::{ByteRecord, Reader, ReaderBuilder};
use schema::{Column, Table};
use std::alloc::Global;
use std::io::{Read, Seek};
use std::str;
use store::{FieldFault, TableCause, TableRefusal};

/// An earlier row that a refused one repeats.
#[derive(Clone, Copy, Debug)]
pub(crate) struct EarlierRow {
    /// The line of the file on which its record begins.
    pub line: u64,
    /// The unique list on which the two agree.
    pub list: usize,
}

/// A refused row as its file has it.
#[derive(Drop)]
pub struct FoundRow {
    /// The line of the file on which its record begins.
    pub(crate) line: u64,
    pub(crate) fields: ByteRecord,
    pub(crate) earlier: Option<EarlierRow>,
}

/// Reads so many records, the last of them into `fields`: the byte of the file at which the reader places it, or nothing where there are fewer.
fn read_on<R: Read>(reader: &mut Reader<R>, count: usize, fields: &mut ByteRecord) -> Option<u64> {
    for _ in 0..count {
        if !matches!(reader.read_byte_record(fields), Ok(true)) {
            return None;
        }
    }
    Some(fields.position()?.byte())
}

/// The line of a file on which the first byte stands, from this one on, that is no line break: a record begins there where a reader places it.
pub fn line_at<R: Read + Seek>(file: &mut R, at: u64) -> Option<u64> {
    file.rewind().ok()?;
    let mut buffer = [0u8; 65_536];
    let mut line = 1u64;
    let mut left = at;
    for _ in 0..u64::MAX {
        let count = file.read(&mut buffer).ok()?;
        if count == 0 {
            return None;
        }
        for byte in &buffer[..count] {
            if left == 0 && *byte != b'\n' && *byte != b'\r' {
                return Some(line);
            }
            if *byte == b'\n' {
                line = line.saturating_add(1);
            }
            left = left.saturating_sub(1);
        }
    }
    None
}

/// Whether a field is a whole number of 64 bits in plain decimal.
fn is_number(field: &[u8]) -> bool {
    let Ok(text) = str::from_utf8(field) else {
        return false;
    };
    let digits = text.strip_prefix('-').unwrap_or(text);
    let is_plain = text == "0" || digits.starts_with(|first: char| ('1'..='9').contains(&first));
    is_plain && text.parse::<i64>().is_ok()
}

/// Whether a field has this fault.
fn has_fault(field: &[u8], fault: FieldFault) -> bool {
    match fault {
        FieldFault::BadEscape => {
            field.starts_with(b"\\") && !field.starts_with(b"\\\\") && field != b"\\N".as_slice()
        }
        FieldFault::NotNumber => !is_number(field),
        FieldFault::NotText => str::from_utf8(field).is_err(),
        FieldFault::NullValue => field == b"\\N".as_slice(),
    }
}

/// Whether a record is the names of the columns.
fn is_header(columns: &[Column], fields: &ByteRecord) -> bool {
    fields.len() == columns.len()
        && columns.iter().enumerate().all(|(place, column)| {
            fields
                .get(place)
                .is_some_and(|field| field == column.name.as_str().as_bytes())
        })
}

/// Whether two rows agree on a list of columns, with no Null in it.
fn agree(list: &[usize], earlier: &ByteRecord, fields: &ByteRecord) -> bool {
    list.iter().all(|column| {
        let field = fields.get(*column);
        field.is_some_and(|field| field != b"\\N".as_slice()) && field == earlier.get(*column)
    })
}

/// The unique list on which two rows agree.
fn repeated_list(table: &Table, earlier: &ByteRecord, fields: &ByteRecord) -> Option<usize> {
    let lists = table.unique.as_slice();
    lists
        .iter()
        .position(|list| agree(list.as_slice(), earlier, fields))
}

/// Whether a record is refused for this cause. Else the file isn't what it was.
fn has_cause(table: &Table, cause: TableCause, fields: &ByteRecord) -> bool {
    let columns = table.columns.as_slice();
    match cause {
        TableCause::OtherHeader => !is_header(columns, fields),
        TableCause::OtherLength => fields.len() != columns.len(),
        TableCause::Field(place, fault) => fields
            .get(place)
            .is_some_and(|field| has_fault(field, fault)),
        TableCause::Repeated(_) | TableCause::TooMany => true,
    }
}

/// Where a reader places a refused row and the earlier one that it repeats, if it does.
#[derive(Clone, Copy)]
struct Bytes {
    row: u64,
    earlier: Option<u64>,
}

/// Reads a refused row, and the earlier one that it repeats, from the front of a file.
fn read_rows<R: Read + Drop>(
    alloc: Global,
    file: R,
    refusal: TableRefusal,
    fields: &mut ByteRecord,
    earlier_fields: &mut ByteRecord,
) -> Option<Bytes>
    ensures { IfSome result (λ bytes. IsSome bytes.earlier ↔ IsSome (earlier_of refusal.cause)) }
{
    let mut reader = ReaderBuilder::new()
        .has_headers(false)
        .flexible(true)
        .from_reader(alloc, file);
    let Some(row) = refusal.earlier() else {
        return Some(Bytes {
            row: read_on(&mut reader, refusal.row.saturating_add(1), fields)?,
            earlier: None,
        });
    };
    let at = read_on(&mut reader, row.saturating_add(1), earlier_fields)?;
    Some(Bytes {
        row: read_on(&mut reader, refusal.row.saturating_sub(row), fields)?,
        earlier: Some(at),
    })
}

/// A refused row, read again from the front of its file: nothing where that can't be done, or the row there isn't refused for the same.
pub fn found_row<R: Read + Seek>(
    alloc: Global,
    file: &mut R,
    table: &Table,
    refusal: TableRefusal,
) -> Option<FoundRow>
    ensures { IfSome result (λ row. IsSome row.earlier ↔ IsSome (earlier_of refusal.cause)) }
{
    let mut fields = ByteRecord::new(alloc);
    let mut earlier_fields = ByteRecord::new(alloc);
    file.rewind().ok()?;
    let bytes = read_rows(alloc, &mut *file, refusal, &mut fields, &mut earlier_fields)?;
    if !has_cause(table, refusal.cause, &fields) {
        return None;
    }
    let line = line_at(file, bytes.row)?;
    let Some(at) = bytes.earlier else {
        return Some(FoundRow {
            line,
            fields,
            earlier: None,
        });
    };
    let earlier = EarlierRow {
        line: line_at(file, at)?,
        list: repeated_list(table, &earlier_fields, &fields)?,
    };
    Some(FoundRow {
        line,
        fields,
        earlier: Some(earlier),
    })
}
