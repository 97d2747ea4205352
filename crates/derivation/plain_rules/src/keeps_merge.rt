//! Two projections as one.

ghost use Rattle.plain_rules.specs.KeepsMerge as spec;

use algebra::Expr;
use rules::shaping::keep;
use rules::{Below, Match, Operator, Operators, Pattern, Promise, Rule, RuleFault, Shape, Unfit};
use std::alloc::{AllocError, Global};
use values::Fault;

/// Of two projections the outer one counts.
pub struct KeepsMerge;

impl Rule for KeepsMerge {
    const CODE: &'static str = "K1";

    ghost pattern = { spec.pattern };

    ghost gives = { spec.keeps_merge };

    ghost promise = { spec.promise };

    fn pattern() -> Pattern {
        Pattern::Two(
            Operators::Only(Operator::Keep),
            Below::first(Operators::Only(Operator::Keep)),
        )
    }

    fn apply(alloc: Global, at: Match<'_>) -> Result<Shape, RuleFault> {
        match at.two_lines()? {
            (Expr::Keep(k, _), Expr::Keep(_, y)) => {
                Ok(keep(alloc, k.copy(alloc)?, Shape::Class(*y))?)
            }
            _ => Err(Fault::Refused(Unfit::Pattern)),
        }
    }

    fn promise(_alloc: Global, _at: Match<'_>) -> Result<Promise, AllocError> {
        Ok(Promise::Simpler)
    }

    fn is_sound() {}

    #[tactic(auto, using(crate::proofs::KeepsMerge::keeps_merge_keeps))]
    fn keeps_to_pattern() {}

    #[tactic(auto, using(crate::proofs::KeepsMerge::keeps_merge_formed))]
    fn is_formed() {}

    #[tactic(auto, using(crate::proofs::KeepsMerge::keeps_merge_stable))]
    fn is_stable() {}
}
