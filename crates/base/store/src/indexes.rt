//! An index of a table: its row numbers, sorted when they are asked for.

ghost use Rattle.std.specs.Prelude.{◌≡◌, ◌≤◌, ◌∷◌, length, map, IfOk, IsTrue};
ghost use Rattle.std.specs.List.{All, range_with_len};
ghost use Rattle.std.specs.List.Sorted.{IsSorted};
ghost use Rattle.schema.specs.Databases.{most_rows};
ghost use Rattle.store.specs.Indexes as spec;
ghost use Rattle.store.specs.Indexes.{IsIndex};
ghost use Rattle.store.specs.KeyedRows.{HasValueAt, keyed_order};

use crate::row::RowCells;
use crate::source::RowSource;
use crate::table::Table;
use std::alloc::{AllocError, Global};
use std::cmp::Ordering;
use values::{Cell, Items, first_decided, order};

/// A row's number, and its value at the index's first place: most rows are told apart by it, without a look at the table.
#[derive(Clone, Copy)]
struct Keyed<'t> {
    value: Cell<'t>,
    number: u32,
}

/// The order of two rows of an index: by the places in turn, and where all tie by their numbers.
fn index_order(rows: &Table, places: &[usize], a: u32, b: u32) -> Ordering
    ensures { result ≡ spec.index_order rows.now places.now a b }
{
    let first = RowCells::Stored(&*rows, a as usize);
    let second = RowCells::Stored(&*rows, b as usize);
    let decided = first_decided(
        places,
        |place| order(first.cell(*place), second.cell(*place)),
    );
    decided.then(a.cmp(&b))
}

/// Whether the rows stand in the index's order as they are.
fn is_sorted(rows: &Table, places: &[usize]) -> bool
    requires { length rows.now ≤ most_rows }
    ensures { IsTrue result → IsSorted (spec.index_order rows.now places.now) (range_with_len 0 (length rows.now)) }
{
    for row in 1..rows.len() {
        if index_order(rows, places, row as u32, row as u32 - 1) == Ordering::Less {
            return false;
        }
    }
    true
}

/// The numbers of so many rows.
fn numbers_to(alloc: Global, count: usize) -> Result<Vec<u32>, AllocError>
    requires { count ≤ most_rows }
    ensures { IfOk result (λ numbers. numbers.items ≡ range_with_len 0 count) }
{
    let mut numbers = Vec::with_capacity(alloc, count)?;
    for number in 0..count {
        numbers.push(number as u32)?;
    }
    Ok(numbers)
}

/// Each row's number, with its value at a place.
fn keyed_rows<'t>(
    alloc: Global,
    rows: &'t Table,
    place: usize,
) -> Result<Vec<Keyed<'t>>, AllocError>
    requires { length rows.now ≤ most_rows }
    ensures numbers { IfOk result (λ keyed. map (λ k. k.number) keyed.items ≡ range_with_len 0 (length rows.entry.now)) }
    ensures values { IfOk result (λ keyed. All (HasValueAt rows.entry.now place) keyed.items) }
{
    let mut keyed = Vec::with_capacity(alloc, rows.len())?;
    for number in 0..rows.len() {
        let value = RowCells::Stored(rows, number).cell(place);
        keyed.push(Keyed {
            value,
            number: number as u32,
        })?;
    }
    Ok(keyed)
}

/// The order of two rows: by their values at the first place, by the later places in turn, and where all tie by their numbers.
fn order_of_keyed(rows: &Table, later: &[usize], a: &Keyed<'_>, b: &Keyed<'_>) -> Ordering
    ensures { result ≡ keyed_order rows.now later.now a.now b.now }
{
    match order(a.value, b.value) {
        Ordering::Equal => index_order(rows, later, a.number, b.number),
        decided => decided,
    }
}

/// The numbers of all rows, sorted by the first place and the later ones.
fn sorted_numbers(
    alloc: Global,
    rows: &Table,
    first: usize,
    later: &[usize],
) -> Result<Vec<u32>, AllocError>
    requires { length rows.now ≤ most_rows }
    ensures { IfOk result (λ numbers. IsIndex rows.now (first ∷ later.now) numbers.items) }
{
    let mut keyed = keyed_rows(alloc, rows, first)?;
    keyed.sort_unstable_by(|a, b| order_of_keyed(rows, later, a, b));
    let mut numbers = Vec::with_capacity(alloc, keyed.len())?;
    for row in keyed.as_slice() {
        numbers.push(row.number)?;
    }
    Ok(numbers)
}

/// The numbers of all rows, sorted by the places.
pub fn index_of(alloc: Global, rows: &Table, places: &[usize]) -> Result<Items<u32>, AllocError>
    requires { length rows.now ≤ most_rows }
    ensures { IfOk result (IsIndex rows.now places.now) }
{
    if let Some((first, later)) = places.split_first() {
        if !is_sorted(rows, places) {
            let numbers = sorted_numbers(alloc, rows, *first, later)?;
            return Ok(Items::from_vec(numbers));
        }
    }
    let numbers = numbers_to(alloc, rows.len())?;
    Ok(Items::from_vec(numbers))
}
