//! Predicate pushdown: a selection goes below a join.

ghost use Rattle.values.specs.Faults.{Gives};
ghost use Rattle.props.specs.Knowledge.{known};
ghost use Rattle.plain_rules.specs.SelectBelowJoin as spec;

use algebra::{ClassId, Conjuncts, Expr};
use rules::shaping::{join, select, selected, some};
use rules::{Below, Match, Operator, Operators, Pattern, Promise, Rule, RuleFault, Shape, Unfit};
use std::alloc::{AllocError, Global};
use values::Fault;

/// The selection from a join of the classes, with a part of its conjuncts below the join.
fn pushed(
    alloc: Global,
    at: Match<'_>,
    conjuncts: &Conjuncts,
    joined: &Conjuncts,
    left: ClassId,
    right: ClassId,
) -> Result<Shape, RuleFault>
    ensures { Gives (λ s. s) result (spec.pushed (known at.entry.classes) conjuncts.now joined.now left right) }
{
    let (below, rest) = conjuncts.split_without(alloc, at.classes.columns, right)?;
    let joined = joined.copy(alloc)?;
    let left = select(alloc, some(below)?, Shape::Class(left))?;
    let joined = join(alloc, joined, left, Shape::Class(right))?;
    Ok(selected(alloc, rest, joined)?)
}

/// Of a selection from a join, the conjuncts that don't mention the right side are asked of the left side alone.
pub struct SelectBelowJoin;

impl Rule for SelectBelowJoin {
    const CODE: &'static str = "S2";

    ghost pattern = { spec.pattern };

    ghost gives = { spec.select_below_join };

    ghost promise = { spec.promise };

    fn pattern() -> Pattern {
        Pattern::Two(
            Operators::Only(Operator::Select),
            Below::first(Operators::Only(Operator::Join)),
        )
    }

    fn apply(alloc: Global, at: Match<'_>) -> Result<Shape, RuleFault> {
        match at.two_lines()? {
            (Expr::Select(c, _), Expr::Join(d, a, b)) => pushed(alloc, at, c, d, *a, *b),
            _ => Err(Fault::Refused(Unfit::Pattern)),
        }
    }

    fn promise(_alloc: Global, _at: Match<'_>) -> Result<Promise, AllocError> {
        Ok(Promise::Connected)
    }

    #[tactic(auto, using(crate::proofs::SelectBelowJoin::select_below_join_sound))]
    fn is_sound() {}

    #[tactic(auto, using(crate::proofs::SelectBelowJoin::select_below_join_keeps))]
    fn keeps_to_pattern() {}

    #[tactic(auto, using(crate::proofs::SelectBelowJoin::select_below_join_formed))]
    fn is_formed() {}

    #[tactic(auto, using(crate::proofs::SelectBelowJoin::select_below_join_stable))]
    fn is_stable() {}
}
