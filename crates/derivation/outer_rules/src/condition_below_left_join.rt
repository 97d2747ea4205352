//! Predicate pushdown: an outer join's condition goes below the join, to its right side.

ghost use Rattle.values.specs.Faults.{Gives};
ghost use Rattle.props.specs.Knowledge.{known};
ghost use Rattle.outer_rules.specs.ConditionBelowLeftJoin as spec;

use algebra::{ClassId, Conjuncts, Expr};
use rules::shaping::{left_join, select, some};
use rules::{Match, Operator, Operators, Pattern, Promise, Rule, RuleFault, Shape, Unfit};
use std::alloc::{AllocError, Global};
use values::Fault;

/// The outer join of the classes, with a part of its condition below the join.
fn lowered(
    alloc: Global,
    at: Match<'_>,
    condition: &Conjuncts,
    left: ClassId,
    right: ClassId,
) -> Result<Shape, RuleFault>
    ensures { Gives (λ s. s) result (spec.lowered (known at.entry.classes) condition.now left right) }
{
    let (below, rest) = condition.split_without(alloc, at.classes.columns, left)?;
    let right = select(alloc, some(below)?, Shape::Class(right))?;
    Ok(left_join(alloc, rest, Shape::Class(left), right)?)
}

/// Of an outer join's condition, the conjuncts that don't mention the left side are asked of the right side alone.
pub struct ConditionBelowLeftJoin;

impl Rule for ConditionBelowLeftJoin {
    const CODE: &'static str = "O3";

    ghost pattern = { spec.pattern };

    ghost gives = { spec.condition_below_left_join };

    ghost promise = { spec.promise };

    fn pattern() -> Pattern {
        Pattern::One(Operators::Only(Operator::LeftJoin))
    }

    fn apply(alloc: Global, at: Match<'_>) -> Result<Shape, RuleFault> {
        match at.one_line()? {
            Expr::LeftJoin(d, a, b) => lowered(alloc, at, d, *a, *b),
            _ => Err(Fault::Refused(Unfit::Pattern)),
        }
    }

    fn promise(_alloc: Global, _at: Match<'_>) -> Result<Promise, AllocError> {
        Ok(Promise::Simpler)
    }

    #[tactic(auto, using(crate::proofs::ConditionBelowLeftJoin::condition_below_left_join_sound))]
    fn is_sound() {}

    #[tactic(auto, using(crate::proofs::ConditionBelowLeftJoin::condition_below_left_join_keeps))]
    fn keeps_to_pattern() {}

    #[tactic(auto, using(crate::proofs::ConditionBelowLeftJoin::condition_below_left_join_formed))]
    fn is_formed() {}

    #[tactic(auto, using(crate::proofs::ConditionBelowLeftJoin::condition_below_left_join_stable))]
    fn is_stable() {}
}
