//! Projection pushdown.

ghost use Rattle.values.specs.Faults.{Gives};
ghost use Rattle.std.specs.Prelude.{◌≡◌, ◌||◌, filter, IfOk};
ghost use Rattle.algebra.specs.Columns.{has, rising};
ghost use Rattle.props.specs.Knowledge.{known};
ghost use Rattle.plain_rules.specs.KeepBelowJoin as spec;

use algebra::{ClassId, Columns, Conjuncts, Expr};
use query::ColumnId;
use rules::shaping::{join, keep};
use rules::{Below, Match, Operator, Operators, Pattern, Promise, Rule, RuleFault, Shape, Unfit};
use std::alloc::{AllocError, Global};
use values::Fault;

/// The columns that are in one of two sets.
fn in_either(
    alloc: Global,
    columns: &[ColumnId],
    kept: &Columns,
    read: &Columns,
) -> Result<Columns, AllocError>
    ensures { IfOk result (λ n. n ≡ rising (filter (λ c. has kept.now c || has read.now c) columns.now)) }
{
    let mut needed = Vec::new(alloc);
    for column in columns {
        if kept.contains(*column) || read.contains(*column) {
            needed.push(*column)?;
        }
    }
    Ok(Columns::from_vec(needed))
}

/// The columns of a class that are kept or that the condition reads.
fn needed(
    alloc: Global,
    at: Match<'_>,
    kept: &Columns,
    condition: &Conjuncts,
    class: ClassId,
) -> Result<Columns, AllocError>
    ensures { IfOk result (λ n. n ≡ spec.needed (known at.entry.classes) kept.now condition.now class) }
{
    let classes = at.classes.columns;
    let read = condition.mentioned(alloc, classes)?;
    in_either(alloc, classes.columns_of(class), kept, &read)
}

/// The projection of a join of the classes, with a projection of the left side.
fn narrowed(
    alloc: Global,
    at: Match<'_>,
    kept: &Columns,
    condition: &Conjuncts,
    left: ClassId,
    right: ClassId,
) -> Result<Shape, RuleFault>
    ensures { Gives (λ s. s) result (spec.narrowed (known at.entry.classes) kept.now condition.now left right) }
{
    let columns = needed(alloc, at, kept, condition, left)?;
    if at.classes.columns.are(left, &columns) {
        return Err(Fault::Refused(Unfit::Condition));
    }
    let kept = kept.copy(alloc)?;
    let condition = condition.copy(alloc)?;
    let narrow = keep(alloc, columns, Shape::Class(left))?;
    let joined = join(alloc, condition, narrow, Shape::Class(right))?;
    Ok(keep(alloc, kept, joined)?)
}

/// Of a join's left side only those columns are kept that the projection keeps or the condition reads.
pub struct KeepBelowJoin;

impl Rule for KeepBelowJoin {
    const CODE: &'static str = "K3";

    ghost pattern = { spec.pattern };

    ghost gives = { spec.keep_below_join };

    ghost promise = { spec.promise };

    fn pattern() -> Pattern {
        Pattern::Two(
            Operators::Only(Operator::Keep),
            Below::first(Operators::Only(Operator::Join)),
        )
    }

    fn apply(alloc: Global, at: Match<'_>) -> Result<Shape, RuleFault> {
        match at.two_lines()? {
            (Expr::Keep(k, _), Expr::Join(d, a, b)) => narrowed(alloc, at, k, d, *a, *b),
            _ => Err(Fault::Refused(Unfit::Pattern)),
        }
    }

    fn promise(_alloc: Global, _at: Match<'_>) -> Result<Promise, AllocError> {
        Ok(Promise::Projections)
    }

    #[tactic(auto, using(crate::proofs::KeepBelowJoin::keep_below_join_sound))]
    fn is_sound() {}

    #[tactic(auto, using(crate::proofs::KeepBelowJoin::keep_below_join_keeps))]
    fn keeps_to_pattern() {}

    #[tactic(auto, using(crate::proofs::KeepBelowJoin::keep_below_join_formed))]
    fn is_formed() {}

    #[tactic(auto, using(crate::proofs::KeepBelowJoin::keep_below_join_stable))]
    fn is_stable() {}
}
