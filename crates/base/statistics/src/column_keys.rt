//! How many different keys a column has: exactly where it is unique, else as an estimate by linear counting.

ghost use Rattle.std.specs.Prelude.{◌≡◌, ◌≤◌, ◌<◌, ◌^◌, ◌+◌, ◌*◌, ℕ, false, length, map, slice_index_or, nat_eq, max, IfOk};
ghost use Rattle.std.specs.Set.{is_member};
ghost use Rattle.values.specs.Cells.{value_of};
ghost use Rattle.values.specs.Short.{IsShort};
ghost use Rattle.schema.specs.Databases.{SatisfiesTable, most_rows};
ghost use Rattle.store.specs.NumberColumns.{AreNumbersOf};
ghost use Rattle.store.specs.TextColumns.{AreTextsOf};
ghost use Rattle.statistics.specs.ColumnKeys as spec;
ghost use Rattle.statistics.specs.ColumnKeys.{AreMarked, AreShort};

use crate::counts::TableColumn;
use crate::digits::count_marks;
use crate::unique_columns::{is_unique_column, null_rows};
use crate::unique_lists::is_not_null;
use std::alloc::{AllocError, Global};
use store::{Numbers, RowCells, RowSource, Table, TextColumn};
use values::{Cell, Items};

const FIRST_FACTOR: u64 = 0x9E37_79B9_7F4A_7C15;

const SECOND_FACTOR: u64 = 0xD6E8_FEB8_6659_FD93;

const TEXT_START: u64 = 14_695_981_039_346_656_037;

const TEXT_FACTOR: u64 = 1_099_511_628_211;

/// 32 bits that depend on all of the number's.
fn mix(number: u64) -> u64
    ensures mixed { result ≡ spec.mix number }
    ensures half { result < 2 ^ 32 }
{
    let upper = number.wrapping_mul(FIRST_FACTOR) >> 32;
    (upper * upper).wrapping_mul(SECOND_FACTOR) >> 32
}

/// The slot of a number, among so many.
pub fn slot_of(number: u64, slots: usize) -> usize
    requires some { 0 < slots }
    requires few { slots ≤ 2 * most_rows }
    ensures slot { result ≡ spec.slot_at slots number }
    ensures within { result < slots }
{
    (mix(number) * slots as u64 >> 32) as usize
}

/// A hash behind which a number comes.
#[inline(always)]
fn hash_behind(hash: u64, number: u64) -> u64
    ensures { result ≡ spec.hash_behind hash number }
{
    hash.wrapping_mul(TEXT_FACTOR).wrapping_add(number)
}

/// Four bytes at a time: most texts are short, and a multiplication for each byte would be most of what a column takes.
fn text_number(text: &str) -> u64
    ensures { result ≡ spec.text_number text.now }
{
    let mut hash = TEXT_START;
    let mut rest = text.as_bytes();
    while let [a, b, c, d, more @ ..] = rest {
        let four = u32::from_le_bytes([*a, *b, *c, *d]);
        hash = hash_behind(hash, u64::from(four));
        rest = more;
    }
    for byte in rest {
        hash = hash_behind(hash, u64::from(*byte));
    }
    hash
}

fn number_of(cell: Cell<'_>) -> u64
    requires { IsShort (value_of cell) }
    ensures { result ≡ spec.number_of (value_of cell.entry) }
{
    match cell {
        Cell::Null => 0,
        Cell::Int(number) => (number as i64).cast_unsigned(),
        Cell::Text(text) => text_number(text),
    }
}

/// Marks the slots of a column of numbers, and counts its values.
fn mark_numbers(rows: &Table, place: usize, column: Numbers<'_>, marks: &mut [bool]) -> usize
    requires numbers { AreNumbersOf rows.now place column }
    requires few { length rows.now ≤ most_rows }
    requires slots { length marks.old ≡ max (length rows.now) 1 }
    requires none { (s : ℕ) → slice_index_or marks.old s false ≡ false }
    ensures marks { AreMarked (length marks.old) (spec.values_in place rows.now) marks.new }
    ensures values { result ≡ length (spec.values_in place rows.now) }
{
    let mut values: usize = 0;
    for row in 0..rows.len() {
        if column.known[row] {
            marks[slot_of(column.numbers[row].cast_unsigned(), marks.len())] = true;
            values += 1;
        }
    }
    values
}

/// The same of a column of texts.
fn mark_texts(rows: &Table, place: usize, column: TextColumn<'_>, marks: &mut [bool]) -> usize
    requires texts { AreTextsOf rows.now place column }
    requires few { length rows.now ≤ most_rows }
    requires slots { length marks.old ≡ max (length rows.now) 1 }
    requires none { (s : ℕ) → slice_index_or marks.old s false ≡ false }
    ensures marks { AreMarked (length marks.old) (spec.values_in place rows.now) marks.new }
    ensures values { result ≡ length (spec.values_in place rows.now) }
{
    let mut values: usize = 0;
    for row in 0..rows.len() {
        if column.known[row] {
            marks[slot_of(text_number(column.texts.text(row)), marks.len())] = true;
            values += 1;
        }
    }
    values
}

/// The same of a column of any values.
fn mark_cells(rows: &Table, place: usize, marks: &mut [bool]) -> usize
    requires few { length rows.now ≤ most_rows }
    requires short { AreShort place rows.now }
    requires slots { length marks.old ≡ max (length rows.now) 1 }
    requires none { (s : ℕ) → slice_index_or marks.old s false ≡ false }
    ensures marks { AreMarked (length marks.old) (spec.values_in place rows.now) marks.new }
    ensures values { result ≡ length (spec.values_in place rows.now) }
{
    let mut values: usize = 0;
    for row in 0..rows.len() {
        let cell = RowCells::Stored(rows, row).cell(place);
        if !cell.is_null() {
            marks[slot_of(number_of(cell), marks.len())] = true;
            values += 1;
        }
    }
    values
}

fn mark_values(rows: &Table, place: usize, marks: &mut [bool]) -> usize
    requires few { length rows.now ≤ most_rows }
    requires short { AreShort place rows.now }
    requires slots { length marks.old ≡ max (length rows.now) 1 }
    requires none { (s : ℕ) → slice_index_or marks.old s false ≡ false }
    ensures marks { AreMarked (length marks.old) (spec.values_in place rows.now) marks.new }
    ensures values { result ≡ length (spec.values_in place rows.now) }
{
    if let Some(column) = rows.numbers(place) {
        return mark_numbers(rows, place, column, marks);
    }
    match rows.texts(place) {
        Some(column) => mark_texts(rows, place, column, marks),
        None => mark_cells(rows, place, marks),
    }
}

/// How many values are expected where so many slots are marked, of the values that there are at most.
fn estimate(slots: usize, marked: usize, values: usize) -> usize
    requires few { slots ≤ most_rows }
    requires marked { marked ≤ slots }
    ensures { result ≡ spec.estimate slots marked values }
{
    let whole = 1000 * slots;
    let mut thousandths: usize = 0;
    for taken in 0..marked {
        thousandths += whole / (slots - taken);
    }
    values.min((thousandths + 500) / 1000)
}

fn estimated_keys(alloc: Global, rows: &Table, place: usize) -> Result<usize, AllocError>
    requires few { length rows.now ≤ most_rows }
    requires short { AreShort place rows.now }
    ensures { IfOk result (λ keys. keys ≡ spec.estimated_keys place rows.now) }
{
    let slots = rows.len().max(1);
    let mut marks = vec![in alloc; false; slots]?;
    let values = mark_values(rows, place, marks.as_mut_slice());
    let marked = count_marks(marks.as_slice());
    Ok(estimate(slots, marked, values))
}

/// How many values the column has, of rows that satisfy their table's entry.
fn count_values(rows: &Table, entry: &schema::Table, place: usize) -> usize
    requires { SatisfiesTable entry.now rows.now }
    ensures { result ≡ length (spec.values_in place rows.now) }
{
    if is_not_null(entry.columns.as_slice(), place) {
        rows.len()
    } else {
        rows.len() - null_rows(rows, place)
    }
}

fn keys_of(
    alloc: Global,
    rows: &Table,
    entry: &schema::Table,
    place: usize,
) -> Result<u64, AllocError>
    requires { SatisfiesTable entry.now rows.now }
    ensures { IfOk result (λ keys. keys ≡ spec.keys_of entry.now rows.now place) }
{
    if is_unique_column(entry, place) {
        return Ok(count_values(rows, entry, place) as u64);
    }
    let keys = estimated_keys(alloc, rows, place)?;
    Ok(keys as u64)
}

fn is_counted(counted: &[TableColumn], table: usize, place: usize) -> bool
    ensures { result ≡ spec.is_counted counted.now table place }
{
    counted
        .iter()
        .any(|column| column.table == table && column.place == place)
}

fn known_keys(
    alloc: Global,
    rows: &Table,
    entry: &schema::Table,
    place: usize,
    is_counted: bool,
) -> Result<Option<u64>, AllocError>
    requires { SatisfiesTable entry.now rows.now }
    ensures { IfOk result (λ keys. keys ≡ spec.known_keys entry.now rows.now place is_counted) }
{
    if !is_counted {
        return Ok(None);
    }
    let keys = keys_of(alloc, rows, entry, place)?;
    Ok(Some(keys))
}

/// The keys of each column of the table with this number, where they are to be counted.
pub fn column_keys(
    alloc: Global,
    rows: &Table,
    entry: &schema::Table,
    counted: &[TableColumn],
    table: usize,
) -> Result<Items<Option<u64>>, AllocError>
    requires { SatisfiesTable entry.now rows.now }
    ensures { IfOk result (λ keys. keys ≡ spec.column_keys counted.now table entry.now rows.now) }
{
    let mut keys = Items::new(alloc);
    for place in 0..entry.columns.len() {
        let is_counted = is_counted(counted, table, place);
        keys.push(known_keys(alloc, rows, entry, place, is_counted)?)?;
    }
    Ok(keys)
}
