//! NOT IN of a selection is a null-aware antijoin by its conditions.

ghost use Rattle.subquery_rules.specs.NotInSelectIsAnti as spec;

use crate::unnesting::not_in_as_anti;
use algebra::Expr;
use rules::{Match, Operator, Operators, Pattern, Promise, Rule, RuleFault, Shape, Unfit};
use std::alloc::{AllocError, Global};
use values::Fault;

/// A selection with NOT IN of another one is an antijoin with that one's input, by its conditions, which may read the rows, and null-aware by equality.
pub struct NotInSelectIsAnti;

impl Rule for NotInSelectIsAnti {
    const CODE: &'static str = "U10";

    ghost pattern = { spec.pattern };

    ghost gives = { spec.not_in_select_is_anti };

    ghost promise = { spec.promise };

    fn pattern() -> Pattern {
        Pattern::SubqueryLine(Operators::Only(Operator::Select))
    }

    fn apply(alloc: Global, at: Match<'_>) -> Result<Shape, RuleFault> {
        match at.subquery_line()? {
            (pick, Expr::Select(inner, class)) => not_in_as_anti(alloc, at, pick, inner, *class),
            _ => Err(Fault::Refused(Unfit::Pattern)),
        }
    }

    fn promise(_alloc: Global, _at: Match<'_>) -> Result<Promise, AllocError> {
        Ok(Promise::Simpler)
    }

    #[tactic(auto, using(crate::proofs::NotInSelectIsAnti::not_in_select_is_anti_sound))]
    fn is_sound() {}

    #[tactic(auto, using(crate::proofs::NotInSelectIsAnti::not_in_select_is_anti_keeps))]
    fn keeps_to_pattern() {}

    #[tactic(auto, using(crate::proofs::NotInSelectIsAnti::not_in_select_is_anti_formed))]
    fn is_formed() {}

    #[tactic(auto, using(crate::proofs::NotInSelectIsAnti::not_in_select_is_anti_stable))]
    fn is_stable() {}
}
