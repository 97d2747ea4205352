//! Rows that are found by an index.

ghost use Rattle.std.specs.Prelude.{◌≡◌, ◌≤◌, ℕ, Bool, false, filter, length, IfOk, IfSome};
ghost use Rattle.std.specs.List.{AllWithin};
ghost use Rattle.algebra.specs.Bags as bags;
ghost use Rattle.algebra.specs.Conditions as spec;
ghost use Rattle.physical.specs.Indexes.{rising_keys};
ghost use Rattle.physical.specs.Outputs.{no_classes};
ghost use Rattle.physical.specs.Sorts as sorts;
ghost use Rattle.relations.specs.Relations.{IsOutput, env_of, numbered_env, numbers_of, rows_of};
ghost use Rattle.index_access.specs.Cuts.{AreByIndex, columns_order};

use crate::cuts::{Around, Cut, position};
use crate::ranges::{has_null, put_equal_key, range_of};
use algebra::Condition;
use query::ColumnId;
use relations::resolved::{passes_all, resolve};
use relations::{Env, Relation};
use std::alloc::{AllocError, Global};

/// The numbers from one place to another; none where they are crossed. All that pass are among them if none passes elsewhere.
fn between(numbers: &[u32], start: usize, end: usize) -> &[u32]
    requires start { start ≤ length numbers.now }
    requires end { end ≤ length numbers.now }
    ensures { (p : ℕ → Bool) → AllWithin (λ n. p n ≡ false) numbers.entry.now 0 start → AllWithin (λ n. p n ≡ false) numbers.entry.now end (length numbers.entry.now) → filter p result.now ≡ filter p numbers.entry.now }
{
    if start < end {
        &numbers[start..end]
    } else {
        &numbers[..0]
    }
}

/// Those of the rows by the columns that are left to be tested.
fn candidates<'n, 't>(
    alloc: Global,
    relation: &Relation<'t>,
    columns: &[ColumnId],
    numbers: &'n [u32],
    conditions: &[Condition],
    env: &Env<'_, 't>,
) -> Result<&'n [u32], AllocError>
    requires { AreByIndex (numbered_env relation.now (env_of env.now)) columns.now (numbers_of relation.now) numbers.now }
    ensures { let passes = λ (n : ℕ). spec.holds no_classes conditions.now (numbered_env relation.now (env_of env.now) n) in IfOk result (λ found. filter passes found.now ≡ filter passes numbers.entry.now) }
{
    let range = range_of(alloc, columns, conditions, &relation.heading.columns, env)?;
    let rows = Around { relation, env };
    let start = position(&range.lower, columns, rows, numbers);
    let end = position(&range.upper, columns, rows, numbers);
    Ok(between(numbers, start, end))
}

/// The rows whose columns equal all that the conditions equate these with, in the relation's own order; none where the conditions
/// don't equate each of the columns. The cut is overwritten.
pub fn equal_rows<'n, 'c, 't>(
    cut: &mut Cut<'c, 't>,
    relation: &Relation<'t>,
    columns: &[ColumnId],
    numbers: &'n [u32],
    conditions: &'c [Condition],
    env: &Env<'_, 't>,
) -> Result<Option<&'n [u32]>, AllocError>
    requires { AreByIndex (numbered_env relation.now (env_of env.now)) columns.now (numbers_of relation.now) numbers.now }
    ensures { let passes = λ (n : ℕ). spec.holds no_classes conditions.entry.now (numbered_env relation.now (env_of env.now) n) in IfOk result (λ rows. IfSome rows (λ found. filter passes found.now ≡ filter passes (numbers_of relation.now))) }
{
    put_equal_key(
        &mut cut.key,
        columns,
        conditions,
        &relation.heading.columns,
        env,
    )?;
    if cut.key.len() < columns.len() {
        return Ok(None);
    }
    let rows = Around { relation, env };
    cut.behind = false;
    let start = position(&*cut, columns, rows, numbers);
    cut.behind = !has_null(cut.key.as_slice());
    let end = position(&*cut, columns, rows, numbers);
    Ok(Some(between(numbers, start, end)))
}

/// The numbers of those of some rows at which all conditions are true.
fn passing<'t>(
    alloc: Global,
    relation: &Relation<'t>,
    numbers: &[u32],
    conditions: &[Condition],
    env: &Env<'_, 't>,
) -> Result<Vec<usize>, AllocError>
    ensures { IfOk result (λ kept. kept.items ≡ filter (λ n. spec.holds no_classes conditions.now (numbered_env relation.now (env_of env.now) n)) numbers.now) }
{
    let tests = resolve(alloc, conditions, relation, env)?;
    let mut kept = Vec::new(alloc);
    for number in numbers {
        let number = *number as usize;
        if passes_all(tests.as_slice(), relation, number, env) {
            kept.push(number)?;
        }
    }
    Ok(kept)
}

/// The numbers of the rows at which all conditions are true, sorted by the columns, those that tie as they stand, given all numbers
/// so.
pub fn index_numbers<'t>(
    alloc: Global,
    relation: &Relation<'t>,
    columns: &[ColumnId],
    numbers: &[u32],
    conditions: &[Condition],
    env: &Env<'_, 't>,
) -> Result<Vec<usize>, AllocError>
    requires { AreByIndex (numbered_env relation.now (env_of env.now)) columns.now (numbers_of relation.now) numbers.now }
    ensures { let row = numbered_env relation.now (env_of env.now) in IfOk result (λ kept. kept.items ≡ sorts.sorted (columns_order row columns.now) (filter (λ n. spec.holds no_classes conditions.now (row n)) (numbers_of relation.now))) }
{
    let found = candidates(alloc, relation, columns, numbers, conditions, env)?;
    passing(alloc, relation, found, conditions, env)
}

/// The rows at which all conditions are true, sorted by the columns, those that tie as they stood.
pub fn found_by_index<'t>(
    alloc: Global,
    relation: Relation<'t>,
    columns: &[ColumnId],
    numbers: &[u32],
    conditions: &[Condition],
    env: &Env<'_, 't>,
) -> Result<Relation<'t>, AllocError>
    requires { AreByIndex (numbered_env relation (env_of env.now)) columns.now (numbers_of relation) numbers.now }
    ensures { IfOk result (IsOutput relation.entry.heading.columns (sorts.sorted (sorts.keys_order (rising_keys columns.now)) (bags.select (spec.holds no_classes conditions.now) (rows_of relation.entry) (env_of env.now))) (env_of env.now)) }
{
    let kept = index_numbers(alloc, &relation, columns, numbers, conditions, env)?;
    relation.chosen(alloc, kept.as_slice())
}
