//! Two selections as one.

ghost use Rattle.plain_rules.specs.SelectsMerge as spec;

use algebra::Expr;
use rules::shaping::select;
use rules::{Below, Match, Operator, Operators, Pattern, Promise, Rule, RuleFault, Shape, Unfit};
use std::alloc::{AllocError, Global};
use values::Fault;

/// Two selections are one.
pub struct SelectsMerge;

impl Rule for SelectsMerge {
    const CODE: &'static str = "S1";

    ghost pattern = { spec.pattern };

    ghost gives = { spec.selects_merge };

    ghost promise = { spec.promise };

    fn pattern() -> Pattern {
        Pattern::Two(
            Operators::Only(Operator::Select),
            Below::first(Operators::Only(Operator::Select)),
        )
    }

    fn apply(alloc: Global, at: Match<'_>) -> Result<Shape, RuleFault> {
        match at.two_lines()? {
            (Expr::Select(c, _), Expr::Select(d, y)) => {
                Ok(select(alloc, c.union(alloc, d)?, Shape::Class(*y))?)
            }
            _ => Err(Fault::Refused(Unfit::Pattern)),
        }
    }

    fn promise(_alloc: Global, _at: Match<'_>) -> Result<Promise, AllocError> {
        Ok(Promise::Simpler)
    }

    #[tactic(auto, using(crate::proofs::SelectsMerge::selects_merge_sound))]
    fn is_sound() {}

    #[tactic(auto, using(crate::proofs::SelectsMerge::selects_merge_keeps))]
    fn keeps_to_pattern() {}

    #[tactic(auto, using(crate::proofs::SelectsMerge::selects_merge_formed))]
    fn is_formed() {}

    #[tactic(auto, using(crate::proofs::SelectsMerge::selects_merge_stable))]
    fn is_stable() {}
}
