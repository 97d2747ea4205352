//! NOT EXISTS of a selection is an antijoin by its conditions.

ghost use Rattle.subquery_rules.specs.NotExistsOfSelectIsAnti as spec;

use crate::unnesting::not_exists_as_anti;
use algebra::Expr;
use rules::{Match, Operator, Operators, Pattern, Promise, Rule, RuleFault, Shape, Unfit};
use std::alloc::{AllocError, Global};
use values::Fault;

/// A selection with NOT EXISTS of another one is an antijoin with that one's input, by its conditions, which may read the rows.
pub struct NotExistsOfSelectIsAnti;

impl Rule for NotExistsOfSelectIsAnti {
    const CODE: &'static str = "U8";

    ghost pattern = { spec.pattern };

    ghost gives = { spec.not_exists_of_select_is_anti };

    ghost promise = { spec.promise };

    fn pattern() -> Pattern {
        Pattern::SubqueryLine(Operators::Only(Operator::Select))
    }

    fn apply(alloc: Global, at: Match<'_>) -> Result<Shape, RuleFault> {
        match at.subquery_line()? {
            (pick, Expr::Select(inner, class)) => not_exists_as_anti(
                alloc, at, pick, inner, *class,
            ),
            _ => Err(Fault::Refused(Unfit::Pattern)),
        }
    }

    fn promise(_alloc: Global, _at: Match<'_>) -> Result<Promise, AllocError> {
        Ok(Promise::Simpler)
    }

    #[tactic(auto, using(crate::proofs::NotExistsOfSelectIsAnti::not_exists_of_select_is_anti_sound))]
    fn is_sound() {}

    #[tactic(auto, using(crate::proofs::NotExistsOfSelectIsAnti::not_exists_of_select_is_anti_keeps))]
    fn keeps_to_pattern() {}

    #[tactic(auto, using(crate::proofs::NotExistsOfSelectIsAnti::not_exists_of_select_is_anti_formed))]
    fn is_formed() {}

    #[tactic(auto, using(crate::proofs::NotExistsOfSelectIsAnti::not_exists_of_select_is_anti_stable))]
    fn is_stable() {}
}
