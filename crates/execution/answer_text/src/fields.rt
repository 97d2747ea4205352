//! The text of fields and records, as `csv` writes them by its defaults.

ghost use Rattle.std.specs.Prelude.{◌≡◌, ◌&&◌, ◌==◌, nat_lt, ℕ, List, [], ◌∷◌, ◌++◌, length, map, if◌then◌else◌, slice_index_or, OnOk, ◌<◌};
ghost use Rattle.values.specs.Cells.{value_of};
ghost use Rattle.csv.specs.Quoting.{needs_byte};
ghost use Rattle.csv.specs.Writing as spec;
ghost use Rattle.csv.specs.Writing.{default_writer};
ghost use Rattle.store.specs.Fields as store_fields;

use itoa::Buffer;
use std::alloc::{AllocError, Global};
use store::RowSource;
use values::{Cell, Text, Value};

/// Whether a byte of a field calls for quotes.
fn calls_for_quotes(byte: u8) -> bool
    ensures { result ≡ needs_byte default_writer byte }
{
    (byte == b',') | (byte == b'"') | (byte == b'\r') | (byte == b'\n')
}

fn needs_quotes(field: &[u8]) -> bool
    ensures { result ≡ spec.needs_quotes default_writer field.now }
{
    field.iter().any(|byte| calls_for_quotes(*byte))
}

/// Adds a byte between quotes: a quote is written twice.
fn push_escaped(text: &mut Vec<u8>, byte: u8) -> Result<(), AllocError>
    ensures { OnOk result (text.new.items ≡ text.old.items ++ spec.escaped default_writer (byte ∷ [])) }
{
    if byte == b'"' {
        text.extend_from_slice(b"\"\"")?;
        return Ok(());
    }
    text.push(byte)?;
    Ok(())
}

fn push_quoted(text: &mut Vec<u8>, field: &[u8]) -> Result<(), AllocError>
    ensures { OnOk result (text.new.items ≡ text.old.items ++ spec.quoted default_writer field.now) }
{
    text.push(b'"')?;
    for byte in field {
        push_escaped(text, *byte)?;
    }
    text.push(b'"')?;
    Ok(())
}

/// Adds a field, in quotes where it needs them.
fn push_field(text: &mut Vec<u8>, field: &[u8]) -> Result<(), AllocError>
    ensures { OnOk result (text.new.items ≡ text.old.items ++ spec.field_text default_writer field.now) }
{
    if needs_quotes(field) {
        return push_quoted(text, field);
    }
    text.extend_from_slice(field)
}

/// Adds a text, with one more `\` before one that begins with `\`.
fn push_text(alloc: Global, text: &mut Vec<u8>, field: &[u8]) -> Result<(), AllocError>
    ensures { OnOk result (text.new.items ≡ text.old.items ++ spec.field_text default_writer (store_fields.escaped field.now)) }
{
    match field {
        [b'\\', ..] => {
            let mut longer = Vec::new(alloc);
            longer.push(b'\\')?;
            longer.extend_from_slice(field)?;
            push_field(text, longer.as_slice())
        }
        _ => push_field(text, field),
    }
}

/// Adds a value's field: a number in decimal, Null as `\N`, and a text as itself, with one more `\` before one that begins
/// with `\`.
fn push_value(alloc: Global, text: &mut Vec<u8>, cell: Cell<'_>) -> Result<(), AllocError>
    ensures { OnOk result (text.new.items ≡ text.old.items ++ spec.field_text default_writer (store_fields.field_of (value_of cell.entry))) }
{
    match cell {
        Cell::Null => push_field(text, b"\\N"),
        Cell::Int(number) => push_field(text, Buffer::new().format(number).as_bytes()),
        Cell::Text(field) => push_text(alloc, text, field.as_bytes()),
    }
}

/// Adds what stands before the field with this number.
fn push_separator(text: &mut Vec<u8>, item: usize) -> Result<(), AllocError>
    ensures { OnOk result (text.new.items ≡ text.old.items ++ spec.next_sep default_writer item) }
{
    if item == 0 {
        return Ok(());
    }
    text.push(b',')?;
    Ok(())
}

/// Adds two quotes to a record that shows nothing.
fn push_blank(text: &mut Vec<u8>, blank: bool) -> Result<(), AllocError>
    ensures { OnOk result (text.new.items ≡ text.old.items ++ (if blank then spec.quote_mark ∷ spec.quote_mark ∷ [] else [])) }
{
    if !blank {
        return Ok(());
    }
    text.extend_from_slice(b"\"\"")
}

/// Adds the end of a record with so many fields, which was begun at a place of the text.
fn push_end(text: &mut Vec<u8>, start: usize, width: usize) -> Result<(), AllocError>
    ensures { (front : List ℕ) (fields : List (List ℕ)) → text.old.items ≡ front ++ spec.row_body default_writer fields → length front ≡ start → length fields ≡ width → OnOk result (text.new.items ≡ front ++ spec.row_text default_writer fields) }
{
    let blank = (width < 2) & (text.len() == start);
    push_blank(text, blank)?;
    text.push(b'\n')?;
    Ok(())
}

/// Adds the record of a row.
pub fn push_row<R: RowSource>(
    alloc: Global,
    text: &mut Vec<u8>,
    found: &R,
    row: usize,
) -> Result<(), AllocError>
    requires { row < length (R.rows found.now) }
    ensures { OnOk result (text.new.items ≡ text.old.items ++ spec.row_text default_writer (map store_fields.field_of (slice_index_or (R.rows found.now) row []))) }
{
    let start = text.len();
    let width = found.width();
    for item in 0..width {
        push_separator(text, item)?;
        push_value(alloc, text, found.cell(row, item))?;
    }
    push_end(text, start, width)
}

/// Adds the record of names.
pub fn push_names(text: &mut Vec<u8>, names: &[Text]) -> Result<(), AllocError>
    ensures { OnOk result (text.new.items ≡ text.old.items ++ spec.row_text default_writer names.now) }
{
    let start = text.len();
    for item in 0..names.len() {
        push_separator(text, item)?;
        push_field(text, names[item].as_str().as_bytes())?;
    }
    push_end(text, start, names.len())
}

/// Adds the record of a row of values.
pub fn push_record(alloc: Global, text: &mut Vec<u8>, values: &[Value]) -> Result<(), AllocError>
    ensures { OnOk result (text.new.items ≡ text.old.items ++ spec.row_text default_writer (map store_fields.field_of values.now)) }
{
    let start = text.len();
    for item in 0..values.len() {
        push_separator(text, item)?;
        push_value(alloc, text, values[item].as_cell())?;
    }
    push_end(text, start, values.len())
}
