//! Predicate pushdown: a join's condition goes below the join.

ghost use Rattle.values.specs.Faults.{Gives};
ghost use Rattle.props.specs.Knowledge.{known};
ghost use Rattle.plain_rules.specs.ConditionBelowJoin as spec;

use algebra::{ClassId, Conjuncts, Expr};
use rules::shaping::{join, select, some};
use rules::{Match, Operator, Operators, Pattern, Promise, Rule, RuleFault, Shape, Unfit};
use std::alloc::{AllocError, Global};
use values::Fault;

/// The join of the classes, with a part of its condition below the join.
fn lowered(
    alloc: Global,
    at: Match<'_>,
    condition: &Conjuncts,
    left: ClassId,
    right: ClassId,
) -> Result<Shape, RuleFault>
    ensures { Gives (λ s. s) result (spec.lowered (known at.entry.classes) condition.now left right) }
{
    let (below, rest) = condition.split_without(alloc, at.classes.columns, right)?;
    let left = select(alloc, some(below)?, Shape::Class(left))?;
    Ok(join(alloc, rest, left, Shape::Class(right))?)
}

/// Of a join's condition, the conjuncts that don't mention the right side are asked of the left side alone.
pub struct ConditionBelowJoin;

impl Rule for ConditionBelowJoin {
    const CODE: &'static str = "S4";

    ghost pattern = { spec.pattern };

    ghost gives = { spec.condition_below_join };

    ghost promise = { spec.promise };

    fn pattern() -> Pattern {
        Pattern::One(Operators::Only(Operator::Join))
    }

    fn apply(alloc: Global, at: Match<'_>) -> Result<Shape, RuleFault> {
        match at.one_line()? {
            Expr::Join(d, a, b) => lowered(alloc, at, d, *a, *b),
            _ => Err(Fault::Refused(Unfit::Pattern)),
        }
    }

    fn promise(_alloc: Global, _at: Match<'_>) -> Result<Promise, AllocError> {
        Ok(Promise::Connected)
    }

    #[tactic(auto, using(crate::proofs::ConditionBelowJoin::condition_below_join_sound))]
    fn is_sound() {}

    #[tactic(auto, using(crate::proofs::ConditionBelowJoin::condition_below_join_keeps))]
    fn keeps_to_pattern() {}

    #[tactic(auto, using(crate::proofs::ConditionBelowJoin::condition_below_join_formed))]
    fn is_formed() {}

    #[tactic(auto, using(crate::proofs::ConditionBelowJoin::condition_below_join_stable))]
    fn is_stable() {}
}
