//! A selection goes below a semijoin or an antijoin.

ghost use Rattle.plain_rules.specs.SelectBelowSemi as spec;

use algebra::Expr;
use rules::shaping::{anti, select, semi};
use rules::{Below, Match, Operator, Operators, Pattern, Promise, Rule, RuleFault, Shape, Unfit};
use std::alloc::{AllocError, Global};
use values::Fault;

/// A selection from a semijoin or an antijoin goes below it, to the left side.
pub struct SelectBelowSemi;

impl Rule for SelectBelowSemi {
    const CODE: &'static str = "S5";

    ghost pattern = { spec.pattern };

    ghost gives = { spec.select_below_semi };

    ghost promise = { spec.promise };

    fn pattern() -> Pattern {
        Pattern::Two(
            Operators::Only(Operator::Select),
            Below::first(Operators::Either(Operator::Semi, Operator::Anti)),
        )
    }

    fn apply(alloc: Global, at: Match<'_>) -> Result<Shape, RuleFault> {
        match at.two_lines()? {
            (Expr::Select(c, _), Expr::Semi(d, a, b)) => {
                let condition = d.copy(alloc)?;
                let left = select(alloc, c.copy(alloc)?, Shape::Class(*a))?;
                Ok(semi(alloc, condition, left, Shape::Class(*b))?)
            }
            (Expr::Select(c, _), Expr::Anti(ordinary, null_aware, a, b)) => {
                let ordinary = ordinary.copy(alloc)?;
                let lists = (ordinary, null_aware.copy(alloc)?);
                let left = select(alloc, c.copy(alloc)?, Shape::Class(*a))?;
                Ok(anti(alloc, lists, left, Shape::Class(*b))?)
            }
            _ => Err(Fault::Refused(Unfit::Pattern)),
        }
    }

    fn promise(_alloc: Global, _at: Match<'_>) -> Result<Promise, AllocError> {
        Ok(Promise::Connected)
    }

    #[tactic(auto, using(crate::proofs::SelectBelowSemi::select_below_semi_sound))]
    fn is_sound() {}

    #[tactic(auto, using(crate::proofs::SelectBelowSemi::select_below_semi_keeps))]
    fn keeps_to_pattern() {}

    #[tactic(auto, using(crate::proofs::SelectBelowSemi::select_below_semi_formed))]
    fn is_formed() {}

    #[tactic(auto, using(crate::proofs::SelectBelowSemi::select_below_semi_stable))]
    fn is_stable() {}
}
