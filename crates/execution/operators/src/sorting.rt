//! Stable sorts by columns.

ghost use Rattle.std.specs.Prelude.{◌≡◌, ◌∷◌, map, IfOk, IsPermutation};
ghost use Rattle.std.specs.List.{range_with_len};
ghost use Rattle.values.specs.Cells.{value_of};
ghost use Rattle.physical.specs.Sorts as spec;
ghost use Rattle.relations.specs.Relations.{IsOutput, env_of, numbered_env, numbers_of, rows_of};
ghost use Rattle.operators.specs.Sorting.{keyed_of, keyed_order};

use physical::OrderKey;
use query::ColumnId;
use relations::{Env, Relation, row_cell};
use std::alloc::{AllocError, Global};
use std::cmp::Ordering;
use values::{Cell, directed_order, first_decided};

/// A row's number, and its value in the first key's column.
#[derive(Clone, Copy)]
struct Keyed<'t> {
    value: Cell<'t>,
    number: usize,
}

/// The order of two rows at a key.
fn key_order(key: &OrderKey, a: &Env<'_, '_>, b: &Env<'_, '_>) -> Ordering
    ensures { result ≡ spec.key_order key.now (env_of a.now) (env_of b.now) }
{
    directed_order(key.descending, a.column(key.column), b.column(key.column))
}

/// The order of two rows at the keys: a later key decides where the earlier ones don't.
fn keys_order(keys: &[OrderKey], a: &Env<'_, '_>, b: &Env<'_, '_>) -> Ordering
    ensures { result ≡ spec.keys_order keys.now (env_of a.now) (env_of b.now) }
{
    first_decided(keys, |key| key_order(key, a, b))
}

/// Rows of a relation in an environment.
#[derive(Clone, Copy)]
struct Around<'e, 't> {
    input: &'e Relation<'t>,
    env: &'e Env<'e, 't>,
}

fn numbers_order(keys: &[OrderKey], rows: Around<'_, '_>, a: usize, b: usize) -> Ordering
    ensures { result ≡ spec.keys_order keys.now (numbered_env rows.entry.input.now (env_of rows.entry.env.now) a) (numbered_env rows.entry.input.now (env_of rows.entry.env.now) b) }
{
    let first = Env::Inner(rows.input, a, rows.env);
    let second = Env::Inner(rows.input, b, rows.env);
    keys_order(keys, &first, &second)
}

/// The order of two rows, given their values in the first key's column.
fn keyed_rows_order(
    first: &OrderKey,
    later: &[OrderKey],
    rows: Around<'_, '_>,
    a: &Keyed<'_>,
    b: &Keyed<'_>,
) -> Ordering
    ensures { result ≡ keyed_order first.now later.now (numbered_env rows.entry.input.now (env_of rows.entry.env.now)) (keyed_of a.now) (keyed_of b.now) }
{
    match directed_order(first.descending, a.value, b.value) {
        Ordering::Equal => numbers_order(later, rows, a.number, b.number),
        decided => decided,
    }
}

/// Each row's number, with its value in a column.
fn keyed_rows<'t>(
    alloc: Global,
    column: ColumnId,
    input: &Relation<'t>,
    env: &Env<'_, 't>,
) -> Result<Vec<Keyed<'t>>, AllocError>
    ensures { IfOk result (λ keyed. map keyed_of keyed.items ≡ map (λ n. (numbered_env input.now (env_of env.now) n column, n)) (numbers_of input.now)) }
{
    let mut keyed = Vec::with_capacity(alloc, input.rows.count)?;
    for number in 0..input.rows.count {
        let value = row_cell(input, number, env, column);
        keyed.push(Keyed { value, number })?;
    }
    Ok(keyed)
}

/// The rows' numbers by the keys, those that tie as they stood.
fn sorted_numbers<'e, 't>(
    alloc: Global,
    first: &OrderKey,
    later: &[OrderKey],
    input: &'e Relation<'t>,
    env: &'e Env<'e, 't>,
) -> Result<Vec<usize>, AllocError>
    ensures each { IfOk result (λ numbers. IsPermutation (numbers_of input.now) numbers.items) }
    ensures rows { IfOk result (λ numbers. map (numbered_env input.now (env_of env.now)) numbers.items ≡ spec.sorted (spec.keys_order (first.now ∷ later.now)) (rows_of input.now (env_of env.now))) }
{
    let mut keyed = keyed_rows(alloc, first.column, input, env)?;
    let rows = Around { input, env };
    keyed.sort_by(|a, b| keyed_rows_order(first, later, rows, a, b))?;
    let mut numbers = Vec::with_capacity(alloc, keyed.len())?;
    for row in keyed.as_slice() {
        numbers.push(row.number)?;
    }
    Ok(numbers)
}

/// The numbers of all rows, by the keys.
pub(crate) fn numbers_in_order<'t>(
    alloc: Global,
    keys: &[OrderKey],
    input: &Relation<'t>,
    env: &Env<'_, 't>,
) -> Result<Vec<usize>, AllocError>
    ensures { IfOk result (λ numbers. IsPermutation (numbers_of input.now) numbers.items) }
{
    match keys.split_first() {
        Some((first, later)) => sorted_numbers(alloc, first, later, &*input, &*env),
        None => all_numbers(alloc, input.rows.count),
    }
}

/// So many numbers, in their order.
fn all_numbers(alloc: Global, count: usize) -> Result<Vec<usize>, AllocError>
    ensures { IfOk result (λ numbers. numbers.items ≡ range_with_len 0 count) }
{
    let mut numbers = Vec::with_capacity(alloc, count)?;
    for number in 0..count {
        numbers.push(number)?;
    }
    Ok(numbers)
}

/// The rows by the keys, those that tie as they stood.
pub fn sorted<'t>(
    alloc: Global,
    keys: &[OrderKey],
    input: Relation<'t>,
    env: &Env<'_, 't>,
) -> Result<Relation<'t>, AllocError>
    ensures { IfOk result (IsOutput input.entry.heading.columns (spec.sorted (spec.keys_order keys.now) (rows_of input.entry (env_of env.now))) (env_of env.now)) }
{
    match keys.split_first() {
        Some((first, later)) => {
            let numbers = sorted_numbers(alloc, first, later, &input, env)?;
            input.chosen(alloc, numbers.as_slice())
        }
        None => Ok(input),
    }
}
