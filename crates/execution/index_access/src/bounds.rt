//! What conditions say of a column.

ghost use Rattle.std.specs.Prelude.{◌≡◌, true, IfSome, IsTrue};
ghost use Rattle.values.specs.Truth as logic;
ghost use Rattle.algebra.specs.Bags as bags;
ghost use Rattle.algebra.specs.Conditions.{term_value, truth};
ghost use Rattle.physical.specs.Outputs.{no_classes};
ghost use Rattle.relations.specs.Relations.{env_of};
ghost use Rattle.index_access.specs.Cuts.{key_value};
ghost use Rattle.index_access.specs.Probes as spec;
ghost use Rattle.index_access.specs.Probes.{IsSure, IsWithin, is_bounded};

use crate::cuts::KeyCell;
use algebra::{Columns, Condition, Term};
use query::ColumnId;
use relations::{Env, turned};
use values::Comparison;

/// A comparison of a column with a value that is the same at all rows.
#[derive(Clone, Copy)]
pub struct Bound<'c, 't> {
    pub comparison: Comparison,
    pub cell: KeyCell<'c, 't>,
}

/// From which side a comparison bounds.
#[derive(Clone, Copy)]
pub enum Side {
    Exact,
    Below,
    Above,
}

fn bounds(side: Side, comparison: Comparison) -> bool
    ensures { result ≡ spec.bounds side comparison }
{
    match side {
        Side::Exact => comparison == Comparison::Equal,
        Side::Below => {
            comparison == Comparison::Greater || comparison == Comparison::GreaterOrEqual
        }
        Side::Above => comparison == Comparison::Less || comparison == Comparison::LessOrEqual,
    }
}

/// Whether a comparison excludes equal sides.
pub fn is_strict(comparison: Comparison) -> bool
    ensures { result ≡ spec.is_strict comparison }
{
    match comparison {
        Comparison::Less | Comparison::Greater | Comparison::NotEqual => true,
        Comparison::Equal | Comparison::LessOrEqual | Comparison::GreaterOrEqual => false,
    }
}

fn is_column(term: &Term, column: ColumnId) -> bool
    ensures { (f : bags.Env) → IsTrue result → term_value term.now f ≡ f column }
{
    match term {
        Term::Column(number) => *number == column,
        Term::Literal(_) => false,
    }
}

/// A term's value, if it reads none of the rows' own columns.
fn fixed_cell<'c, 't>(term: &'c Term, own: &Columns, env: &Env<'_, 't>) -> Option<KeyCell<'c, 't>>
    ensures { (f : bags.Env) → IsWithin own.now (env_of env.now) f → IfSome result (λ cell. term_value term.entry.now f ≡ key_value cell) }
{
    match term {
        Term::Literal(value) => Some(KeyCell::Literal(value.as_cell())),
        Term::Column(column) => if own.contains(*column) {
            None
        } else {
            Some(KeyCell::Around(env.column(*column)))
        },
    }
}

/// What the comparison of two terms says of the column.
fn bound_of_terms<'c, 't>(
    comparison: Comparison,
    a: &'c Term,
    b: &'c Term,
    column: ColumnId,
    own: &Columns,
    env: &Env<'_, 't>,
) -> Option<Bound<'c, 't>>
    ensures { (f : bags.Env) → IsWithin own.now (env_of env.now) f → logic.is_true (logic.compare comparison (term_value a.entry.now f) (term_value b.entry.now f)) ≡ true → IfSome result (λ bound. is_bounded bound (f column) ≡ true) }
{
    if is_column(a, column) {
        match fixed_cell(b, own, env) {
            Some(cell) => Some(Bound { comparison, cell }),
            None => None,
        }
    } else if is_column(b, column) {
        match fixed_cell(a, own, env) {
            Some(cell) => Some(Bound {
                comparison: turned(comparison),
                cell,
            }),
            None => None,
        }
    } else {
        None
    }
}

fn bound_of<'c, 't>(
    condition: &'c Condition,
    column: ColumnId,
    own: &Columns,
    env: &Env<'_, 't>,
) -> Option<Bound<'c, 't>>
    ensures { (f : bags.Env) → IsWithin own.now (env_of env.now) f → logic.is_true (truth condition.entry.now no_classes f) ≡ true → IfSome result (λ bound. is_bounded bound (f column) ≡ true) }
{
    match condition {
        Condition::Compare(comparison, a, b) => {
            bound_of_terms(*comparison, a, b, column, own, env)
        }
        _ => None,
    }
}

/// The first of the conditions that bounds the column from this side.
pub fn bound_in<'c, 't>(
    side: Side,
    conditions: &'c [Condition],
    column: ColumnId,
    own: &Columns,
    env: &Env<'_, 't>,
) -> Option<Bound<'c, 't>>
    ensures side { IfSome result (λ bound. spec.bounds side bound.comparison ≡ true) }
    ensures ordinary { IfSome result (λ bound. IsSure own.now conditions.entry.now (env_of env.now) (λ f. is_bounded bound (f column) ≡ true)) }
{
    for condition in conditions {
        if let Some(bound) = bound_of(condition, column, own, env) {
            if bounds(side, bound.comparison) {
                return Some(bound);
            }
        }
    }
    None
}
