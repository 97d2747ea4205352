//! The different keys of an index over columns whose numbers lie close together: each key has a slot of its own, where it leaves a mark.

ghost use Rattle.std.specs.Prelude.{◌≡◌, ◌≤◌, ◌<◌, ◌≤ℤ◌, ◌^◌, ℕ, true, false, pos, length, slice_index_or, IfOk, IfSome};
ghost use Rattle.std.specs.List.{AllByRecursion, count_by};
ghost use Rattle.statistics.specs.Counting.{different_keys};
ghost use Rattle.statistics.specs.Digits as spec;
ghost use Rattle.statistics.specs.Digits.{HasDigitIn, HasDigits, AreMarked, ColumnsOf};

use std::alloc::{AllocError, Global};
use store::{Numbers, RowSource, Table};

/// No table of marks has more slots than so many for each row.
const SLOTS_A_ROW: usize = 4;

/// The bounds of a column's numbers; the least above the greatest where it has none.
#[derive(Clone, Copy)]
struct Bounds {
    least: i64,
    greatest: i64,
}

/// A column whose values are seen as digits: Null as 0, the least number as 1.
#[derive(Clone, Copy)]
pub struct DigitColumn<'t> {
    column: Numbers<'t>,
    least: i64,
    base: usize,
}

/// The columns of an index, and how many slots their digits can make up.
#[derive(Drop)]
struct Digits<'t> {
    columns: Vec<DigitColumn<'t>>,
    slots: usize,
}

fn bounds_of(column: Numbers<'_>) -> Bounds
    requires { length column.numbers.now ≡ length column.known.now }
    ensures { (row : ℕ) → row < length column.entry.known.now → slice_index_or column.entry.known.now row false ≡ true
        → (result.least ≤ℤ slice_index_or column.entry.numbers.now row (pos 0)) × (slice_index_or column.entry.numbers.now row (pos 0) ≤ℤ result.greatest) }
{
    let mut least = i64::MAX;
    let mut greatest = i64::MIN;
    // No row takes a branch of its own: which are Null is past foretelling.
    for row in 0..column.known.len() {
        let number = column.numbers[row];
        let known = column.known[row];
        least = least.min(if known { number } else { i64::MAX });
        greatest = greatest.max(if known { number } else { i64::MIN });
    }
    Bounds { least, greatest }
}

/// The column with its digits, if their number has 64 bits.
fn digit_column(column: Numbers<'_>) -> Option<DigitColumn<'_>>
    requires { length column.numbers.now ≡ length column.known.now }
    ensures { IfSome result (λ c. (c.column ≡ column.entry) × HasDigits (length column.entry.known.now) c) }
{
    let bounds = bounds_of(column);
    let span = if bounds.least <= bounds.greatest {
        bounds.greatest.abs_diff(bounds.least)
    } else {
        0
    };
    let base = (span as usize).checked_add(2)?;
    Some(DigitColumn {
        column,
        least: bounds.least,
        base,
    })
}

/// The columns at the places, if they are of numbers whose keys need no more slots than these.
fn digits_of<'t>(
    alloc: Global,
    rows: &'t Table,
    places: &[usize],
    most_slots: usize,
) -> Result<Option<Digits<'t>>, AllocError>
    ensures { IfOk result (λ found. IfSome found (λ d. ColumnsOf rows.entry.now places.now d.columns.items × (d.slots ≡ spec.slots_of d.columns.items))) }
{
    let mut columns = Vec::new(alloc);
    let mut slots: usize = 1;
    for place in places {
        let Some(numbers) = rows.numbers(*place) else {
            return Ok(None);
        };
        let Some(column) = digit_column(numbers) else {
            return Ok(None);
        };
        slots = match slots.checked_mul(column.base) {
            Some(product) if product <= most_slots => product,
            _ => return Ok(None),
        };
        columns.push(column)?;
    }
    Ok(Some(Digits { columns, slots }))
}

fn digit_in(column: &DigitColumn<'_>, row: usize) -> usize
    requires { HasDigitIn row column.now }
    ensures { result ≡ spec.digit_in row column.now }
{
    let above = column.column.numbers[row].abs_diff(column.least);
    if column.column.known[row] {
        above as usize + 1
    } else {
        0
    }
}

/// The slot of the row's key.
fn slot_in(columns: &[DigitColumn<'_>], row: usize) -> usize
    requires digits { AllByRecursion (HasDigitIn row) columns.now }
    requires slots { spec.slots_of columns.now < 2 ^ 64 }
    ensures { result ≡ spec.slot_in row columns.now }
{
    let mut slot: usize = 0;
    for column in columns {
        slot = slot * column.base + digit_in(column, row);
    }
    slot
}

/// A mark at the slot of each key.
fn marks_of(alloc: Global, digits: &Digits<'_>, rows: usize) -> Result<Vec<bool>, AllocError>
    requires digits { (row : ℕ) → row < rows → AllByRecursion (HasDigitIn row) digits.now.columns.items }
    requires slots { digits.now.slots ≡ spec.slots_of digits.now.columns.items }
    ensures { IfOk result (λ marks. AreMarked digits.now.columns.items rows marks.items) }
{
    let mut marks = vec![in alloc; false; digits.slots]?;
    let columns = digits.columns.as_slice();
    let slots = marks.as_mut_slice();
    for row in 0..rows {
        slots[slot_in(columns, row)] = true;
    }
    Ok(marks)
}

pub fn count_marks(marks: &[bool]) -> usize
    ensures { result ≡ count_by (λ mark. mark) marks.now }
{
    marks.iter().filter(|mark| **mark).count()
}

/// How many different keys the rows have, if their slots are few.
pub fn keys_by_slots(
    alloc: Global,
    rows: &Table,
    places: &[usize],
) -> Result<Option<u64>, AllocError>
    ensures { IfOk result (λ found. IfSome found (λ keys. keys ≡ different_keys rows.now places.now)) }
{
    let most_slots = rows.len().saturating_mul(SLOTS_A_ROW);
    let Some(digits) = digits_of(alloc, rows, places, most_slots)? else {
        return Ok(None);
    };
    let marks = marks_of(alloc, &digits, rows.len())?;
    Ok(Some(count_marks(marks.as_slice()) as u64))
}
