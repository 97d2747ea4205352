//! An outer join of whose right side nothing is read, and at most one row found.

ghost use Rattle.std.specs.Prelude.{◌≡◌};
ghost use Rattle.values.specs.Faults.{Gives};
ghost use Rattle.algebra.specs.Columns.{are_disjoint};
ghost use Rattle.algebra.specs.GivenColumns.{given_columns};
ghost use Rattle.props.specs.Knowledge.{known};
ghost use Rattle.outer_rules.specs.KeepOfLeftSide as spec;

use algebra::{ClassColumns, ClassId, Columns, Conjuncts, Expr};
use props::single::is_single;
use query::ColumnId;
use rules::shaping::keep;
use rules::{Below, Match, Operator, Operators, Pattern, Promise, Rule, RuleFault, Shape, Unfit};
use std::alloc::{AllocError, Global};
use values::Fault;

/// Whether none of the columns is one of the class.
pub(crate) fn are_elsewhere(columns: &[ColumnId], classes: ClassColumns<'_>, class: ClassId) -> bool
    ensures { result ≡ are_disjoint columns.now (given_columns classes.entry class) }
{
    columns.iter().all(|column| !classes.has(class, *column))
}

/// The projection of the left class, if nothing of the right one is read and no left row finds two of its rows.
fn kept(
    alloc: Global,
    at: Match<'_>,
    columns: &Columns,
    condition: &Conjuncts,
    left: ClassId,
    right: ClassId,
) -> Result<Shape, RuleFault>
    ensures { Gives (λ s. s) result (spec.kept (known at.entry.classes) columns.now condition.now left right) }
{
    if are_elsewhere(columns.as_slice(), at.classes.columns, right)
        && is_single(at.classes, right, condition.as_slice())
    {
        return Ok(keep(alloc, columns.copy(alloc)?, Shape::Class(left))?);
    }
    Err(Fault::Refused(Unfit::Condition))
}

/// A projection without the right side's columns has a row for each left row, if none finds two.
pub struct KeepOfLeftSide;

impl Rule for KeepOfLeftSide {
    const CODE: &'static str = "O6";

    ghost pattern = { spec.pattern };

    ghost gives = { spec.keep_of_left_side };

    ghost promise = { spec.promise };

    fn pattern() -> Pattern {
        Pattern::Two(
            Operators::Only(Operator::Keep),
            Below::first(Operators::Only(Operator::LeftJoin)),
        )
    }

    fn apply(alloc: Global, at: Match<'_>) -> Result<Shape, RuleFault> {
        match at.two_lines()? {
            (Expr::Keep(k, _), Expr::LeftJoin(d, a, b)) => kept(alloc, at, k, d, *a, *b),
            _ => Err(Fault::Refused(Unfit::Pattern)),
        }
    }

    fn promise(_alloc: Global, _at: Match<'_>) -> Result<Promise, AllocError> {
        Ok(Promise::Simpler)
    }

    #[tactic(auto, using(crate::proofs::KeepOfLeftSide::keep_of_left_side_sound))]
    fn is_sound() {}

    #[tactic(auto, using(crate::proofs::KeepOfLeftSide::keep_of_left_side_keeps))]
    fn keeps_to_pattern() {}

    #[tactic(auto, using(crate::proofs::KeepOfLeftSide::keep_of_left_side_formed))]
    fn is_formed() {}

    #[tactic(auto, using(crate::proofs::KeepOfLeftSide::keep_of_left_side_stable))]
    fn is_stable() {}
}
