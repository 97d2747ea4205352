//! Joins against the expressions that they implement.

ghost use Rattle.std.specs.Prelude.{◌≡◌, ◌&&◌, ◌∷◌, [], true, false, IfOk, MatchOption, map};
ghost use Rattle.std.specs.List.{list_any};
ghost use Rattle.algebra.specs.Columns.{has, columns_at};
ghost use Rattle.algebra.specs.Equated.{equates};
ghost use Rattle.algebra.specs.Expressions.{children};
ghost use Rattle.physical.specs.declared.plan.JoinMethod.TheVariants.{Merge};
ghost use Rattle.physical.specs.Outputs.{first_columns, second_columns};
ghost use Rattle.certificate.specs.Replay as spec;

use algebra::{ClassId, Columns, Condition, Expr};
use physical::{JoinMethod, Matching};
use query::ColumnId;
use std::alloc::{AllocError, Global};

/// The conjuncts of which one has to equate columns, so that a match is found by hash.
fn hashed(matching: &Matching) -> &[Condition]
    ensures { result.now ≡ spec.hashed matching.now }
{
    match matching {
        Matching::Inner(conjuncts) | Matching::Left(conjuncts) | Matching::Semi(conjuncts) => {
            conjuncts.as_slice()
        }
        Matching::Anti(ordinary, null_aware) => match (ordinary.as_slice(), null_aware.as_slice()) {
            ([], [only]) => null_aware.as_slice(),
            (ordinary, _) => ordinary,
        },
    }
}

/// Whether one of the conditions equates a column of the one side with one of the other.
fn is_equated(conditions: &[Condition], left: &Columns, right: &Columns) -> bool
    ensures { result ≡ list_any (equates (has left.now) (has right.now)) conditions.now }
{
    conditions.iter().any(|c| c.equates(left, right))
}

/// Whether a merge by the columns finds the matches of sides with these columns.
fn merges(
    alloc: Global,
    a: ColumnId,
    b: ColumnId,
    matching: &Matching,
    left: &Columns,
    right: &Columns,
) -> Result<bool, AllocError>
    ensures { IfOk result (λ r. r ≡ spec.finds (Merge a b) matching.now left.now right.now) }
{
    let Matching::Inner(conjuncts) = matching else {
        return Ok(false);
    };
    let first = Columns::run(alloc, a, 1)?;
    let second = Columns::run(alloc, b, 1)?;
    Ok(left.contains(a) && right.contains(b) && is_equated(conjuncts.as_slice(), &first, &second))
}

/// Whether a join by the method finds the matches of sides with these columns.
fn finds(
    alloc: Global,
    method: JoinMethod,
    matching: &Matching,
    left: &Columns,
    right: &Columns,
) -> Result<bool, AllocError>
    ensures { IfOk result (λ r. r ≡ spec.finds method matching.now left.now right.now) }
{
    match method {
        JoinMethod::NestedLoop => Ok(true),
        JoinMethod::Hash => Ok(is_equated(hashed(matching), left, right)),
        JoinMethod::Merge(a, b) => merges(alloc, a, b, matching, left, right),
    }
}

/// The sides of an expression that is a join with this matching.
pub fn joined_classes(matching: &Matching, expr: &Expr) -> Option<(ClassId, ClassId)>
    ensures { MatchOption result (spec.is_join matching.now expr.now ≡ false) (λ s. (spec.is_join matching.now expr.now ≡ true) × (children expr.now ≡ s.0 ∷ s.1 ∷ [])) }
{
    match (matching, expr) {
        (Matching::Inner(conjuncts), Expr::Join(own, a, b)) => if conjuncts.same(own) {
            Some((*a, *b))
        } else {
            None
        },
        (Matching::Left(conjuncts), Expr::LeftJoin(own, a, b)) => if conjuncts.same(own) {
            Some((*a, *b))
        } else {
            None
        },
        (Matching::Semi(conjuncts), Expr::Semi(own, a, b)) => if conjuncts.same(own) {
            Some((*a, *b))
        } else {
            None
        },
        (Matching::Anti(ordinary, null_aware), Expr::Anti(own, others, a, b)) => {
            if ordinary.same(own) && null_aware.same(others) {
                Some((*a, *b))
            } else {
                None
            }
        }
        _ => None,
    }
}

/// The columns of a class; none where there is no such class.
pub fn class_columns<'c>(columns: &'c [Columns], class: ClassId, none: &'c Columns) -> &'c Columns
    requires { none.now ≡ [] }
    ensures { result.now ≡ columns_at columns.now class }
{
    match columns.get(class as usize) {
        Some(own) => own,
        None => none,
    }
}

/// Whether a join computes an expression over classes with these columns from what its inputs produce.
pub fn join_implements(
    alloc: Global,
    columns: &[Columns],
    method: JoinMethod,
    matching: &Matching,
    expr: &Expr,
) -> Result<bool, AllocError>
    ensures { IfOk result (λ r. r ≡ (spec.is_join matching.now expr.now && spec.finds method matching.now (first_columns (map (columns_at columns.now) (children expr.now))) (second_columns (map (columns_at columns.now) (children expr.now))))) }
{
    let Some((a, b)) = joined_classes(matching, expr) else {
        return Ok(false);
    };
    let none = Columns::from_vec(Vec::new(alloc));
    let left = class_columns(columns, a, &none);
    let right = class_columns(columns, b, &none);
    finds(alloc, method, matching, left, right)
}
