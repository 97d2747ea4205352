//! Predicate pushdown: a selection goes below an outer join, to its left side.

ghost use Rattle.values.specs.Faults.{Gives};
ghost use Rattle.props.specs.Knowledge.{known};
ghost use Rattle.outer_rules.specs.SelectBelowLeftJoin as spec;

use algebra::{ClassId, Conjuncts, Expr};
use rules::shaping::{left_join, select, selected, some};
use rules::{Below, Match, Operator, Operators, Pattern, Promise, Rule, RuleFault, Shape, Unfit};
use std::alloc::{AllocError, Global};
use values::Fault;

/// The selection from an outer join of the classes, with a part of its conjuncts below the join.
fn pushed(
    alloc: Global,
    at: Match<'_>,
    conjuncts: &Conjuncts,
    joined: &Conjuncts,
    left: ClassId,
    right: ClassId,
) -> Result<Shape, RuleFault>
    ensures { Gives (λ s. s) result (spec.pushed (known at.entry.classes) conjuncts.now joined.now left right) }
{
    let (below, rest) = conjuncts.split_without(alloc, at.classes.columns, right)?;
    let joined = joined.copy(alloc)?;
    let left = select(alloc, some(below)?, Shape::Class(left))?;
    let joined = left_join(alloc, joined, left, Shape::Class(right))?;
    Ok(selected(alloc, rest, joined)?)
}

/// Of a selection from an outer join, the conjuncts that don't mention the right side are asked of the left side alone.
pub struct SelectBelowLeftJoin;

impl Rule for SelectBelowLeftJoin {
    const CODE: &'static str = "O2";

    ghost pattern = { spec.pattern };

    ghost gives = { spec.select_below_left_join };

    ghost promise = { spec.promise };

    fn pattern() -> Pattern {
        Pattern::Two(
            Operators::Only(Operator::Select),
            Below::first(Operators::Only(Operator::LeftJoin)),
        )
    }

    fn apply(alloc: Global, at: Match<'_>) -> Result<Shape, RuleFault> {
        match at.two_lines()? {
            (Expr::Select(c, _), Expr::LeftJoin(d, a, b)) => pushed(alloc, at, c, d, *a, *b),
            _ => Err(Fault::Refused(Unfit::Pattern)),
        }
    }

    fn promise(_alloc: Global, _at: Match<'_>) -> Result<Promise, AllocError> {
        Ok(Promise::Simpler)
    }

    #[tactic(auto, using(crate::proofs::SelectBelowLeftJoin::select_below_left_join_sound))]
    fn is_sound() {}

    #[tactic(auto, using(crate::proofs::SelectBelowLeftJoin::select_below_left_join_keeps))]
    fn keeps_to_pattern() {}

    #[tactic(auto, using(crate::proofs::SelectBelowLeftJoin::select_below_left_join_formed))]
    fn is_formed() {}

    #[tactic(auto, using(crate::proofs::SelectBelowLeftJoin::select_below_left_join_stable))]
    fn is_stable() {}
}
