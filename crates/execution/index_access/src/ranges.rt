//! The part of an index in which all rows stand that pass conditions.

ghost use Rattle.std.specs.Prelude.{◌≡◌, ◌++◌, ◌∷◌, [], true, false, map, List, ℕ, IfOk, IfSome, OnOk};
ghost use Rattle.std.specs.List.{list_any};
ghost use Rattle.values.specs.Truth.{is_null};
ghost use Rattle.algebra.specs.Bags as bags;
ghost use Rattle.relations.specs.Relations.{env_of};
ghost use Rattle.index_access.specs.Cuts.{is_before, key_value};
ghost use Rattle.index_access.specs.Probes as spec;
ghost use Rattle.index_access.specs.Probes.{Begins, IsBounded, IsSure};
ghost use Rattle.index_access.specs.declared.bounds.Side.TheVariants as side;

use crate::bounds::{Bound, Side, bound_in, is_strict};
use crate::cuts::{Cut, KeyCell};
use algebra::{Columns, Condition};
use query::ColumnId;
use relations::Env;
use std::alloc::{AllocError, Global};
use values::Cell;

/// The rows behind one cut and before another.
#[derive(Drop)]
pub struct KeyRange<'c, 't> {
    pub lower: Cut<'c, 't>,
    pub upper: Cut<'c, 't>,
}

/// Puts what the conditions equate the first columns with, as many of them as they do, in the place of a key.
pub fn put_equal_key<'c, 't>(
    key: &mut Vec<KeyCell<'c, 't>>,
    columns: &[ColumnId],
    conditions: &'c [Condition],
    own: &Columns,
    env: &Env<'_, 't>,
) -> Result<(), AllocError>
    ensures { OnOk result (IsSure own.now conditions.entry.now (env_of env.now) (λ f. Begins f columns.now (map key_value key.new.items))) }
{
    key.clear();
    for column in columns {
        match bound_in(Side::Exact, conditions, *column, own, env) {
            Some(bound) => key.push(bound.cell)?,
            None => return Ok(()),
        }
    }
    Ok(())
}

fn copied<'c, 't>(
    alloc: Global,
    key: &[KeyCell<'c, 't>],
) -> Result<Vec<KeyCell<'c, 't>>, AllocError>
    ensures { IfOk result (λ copy. copy.items ≡ key.now) }
{
    key.to_vec(alloc)
}

/// The key and one cell more.
fn longer<'c, 't>(
    alloc: Global,
    key: &[KeyCell<'c, 't>],
    cell: KeyCell<'c, 't>,
) -> Result<Vec<KeyCell<'c, 't>>, AllocError>
    ensures { IfOk result (λ longer. map key_value longer.items ≡ map key_value key.now ++ key_value cell.entry ∷ []) }
{
    let mut longer = key.to_vec(alloc)?;
    longer.push(cell)?;
    Ok(longer)
}

/// Behind the rows that are too small. A row whose next value is bounded at all has no Null there.
fn lower_cut<'c, 't>(
    alloc: Global,
    key: &[KeyCell<'c, 't>],
    low: Option<Bound<'c, 't>>,
    high: Option<Bound<'c, 't>>,
) -> Result<Cut<'c, 't>, AllocError>
    requires { IfSome low (λ bound. spec.bounds side.Below bound.comparison ≡ true) }
    ensures { (f : bags.Env) (columns : List ℕ) → Begins f columns (map key_value key.now) → IsBounded f columns (map key_value key.now) low.entry → IsBounded f columns (map key_value key.now) high.entry → IfOk result (λ cut. is_before cut columns f ≡ false) }
{
    match (low, high) {
        (Some(bound), _) => Ok(Cut {
            key: longer(alloc, key, bound.cell)?,
            behind: is_strict(bound.comparison),
        }),
        (None, Some(_)) => Ok(Cut {
            key: longer(alloc, key, KeyCell::Literal(Cell::Null))?,
            behind: true,
        }),
        (None, None) => Ok(Cut {
            key: copied(alloc, key)?,
            behind: false,
        }),
    }
}

/// Whether a key has a Null, which equals nothing.
pub fn has_null(key: &[KeyCell<'_, '_>]) -> bool
    ensures { result ≡ list_any (λ cell. is_null (key_value cell)) key.now }
{
    key.iter().any(|cell| cell.is_null())
}

/// Before the rows that are too great; where the key has a Null, which equals nothing, before all rows that have it.
fn upper_cut<'c, 't>(
    alloc: Global,
    key: &[KeyCell<'c, 't>],
    high: Option<Bound<'c, 't>>,
) -> Result<Cut<'c, 't>, AllocError>
    requires { IfSome high (λ bound. spec.bounds side.Above bound.comparison ≡ true) }
    ensures { (f : bags.Env) (columns : List ℕ) → Begins f columns (map key_value key.now) → IsBounded f columns (map key_value key.now) high.entry → IfOk result (λ cut. is_before cut columns f ≡ true) }
{
    match high {
        Some(bound) => Ok(Cut {
            key: longer(alloc, key, bound.cell)?,
            behind: !is_strict(bound.comparison),
        }),
        None => Ok(Cut {
            key: copied(alloc, key)?,
            behind: !has_null(key),
        }),
    }
}

/// How the conditions bound the column behind the key; not at all where there is none.
fn next_bound<'c, 't>(
    side: Side,
    columns: &[ColumnId],
    key: &[KeyCell<'_, '_>],
    conditions: &'c [Condition],
    own: &Columns,
    env: &Env<'_, 't>,
) -> Option<Bound<'c, 't>>
    ensures side { IfSome result (λ bound. spec.bounds side bound.comparison ≡ true) }
    ensures ordinary { IsSure own.now conditions.entry.now (env_of env.now) (λ f. IsBounded f columns.now (map key_value key.now) result) }
{
    match columns.get(key.len()) {
        Some(column) => bound_in(side, conditions, *column, own, env),
        None => None,
    }
}

/// A range of an index by the columns that has all rows that pass the conditions, whose own columns these are.
pub fn range_of<'c, 't>(
    alloc: Global,
    columns: &[ColumnId],
    conditions: &'c [Condition],
    own: &Columns,
    env: &Env<'_, 't>,
) -> Result<KeyRange<'c, 't>, AllocError>
    ensures lower { IfOk result (λ range. IsSure own.now conditions.entry.now (env_of env.now) (λ f. is_before range.lower columns.now f ≡ false)) }
    ensures upper { IfOk result (λ range. IsSure own.now conditions.entry.now (env_of env.now) (λ f. is_before range.upper columns.now f ≡ true)) }
{
    let mut key = Vec::new(alloc);
    put_equal_key(&mut key, columns, conditions, own, env)?;
    let equal = key.as_slice();
    let low = next_bound(Side::Below, columns, equal, conditions, own, env);
    let high = next_bound(Side::Above, columns, equal, conditions, own, env);
    let lower = lower_cut(alloc, equal, low, high)?;
    let upper = upper_cut(alloc, equal, high)?;
    Ok(KeyRange { lower, upper })
}
