//! EXISTS of a selection is a semijoin by its conditions.

ghost use Rattle.subquery_rules.specs.ExistsOfSelectIsSemi as spec;

use crate::unnesting::exists_as_semi;
use algebra::Expr;
use rules::{Match, Operator, Operators, Pattern, Promise, Rule, RuleFault, Shape, Unfit};
use std::alloc::{AllocError, Global};
use values::Fault;

/// A selection with EXISTS of another one is a semijoin with that one's input, by its conditions, which may read the rows.
pub struct ExistsOfSelectIsSemi;

impl Rule for ExistsOfSelectIsSemi {
    const CODE: &'static str = "U7";

    ghost pattern = { spec.pattern };

    ghost gives = { spec.exists_of_select_is_semi };

    ghost promise = { spec.promise };

    fn pattern() -> Pattern {
        Pattern::SubqueryLine(Operators::Only(Operator::Select))
    }

    fn apply(alloc: Global, at: Match<'_>) -> Result<Shape, RuleFault> {
        match at.subquery_line()? {
            (pick, Expr::Select(inner, class)) => exists_as_semi(alloc, at, pick, inner, *class),
            _ => Err(Fault::Refused(Unfit::Pattern)),
        }
    }

    fn promise(_alloc: Global, _at: Match<'_>) -> Result<Promise, AllocError> {
        Ok(Promise::Simpler)
    }

    #[tactic(auto, using(crate::proofs::ExistsOfSelectIsSemi::exists_of_select_is_semi_sound))]
    fn is_sound() {}

    #[tactic(auto, using(crate::proofs::ExistsOfSelectIsSemi::exists_of_select_is_semi_keeps))]
    fn keeps_to_pattern() {}

    #[tactic(auto, using(crate::proofs::ExistsOfSelectIsSemi::exists_of_select_is_semi_formed))]
    fn is_formed() {}

    #[tactic(auto, using(crate::proofs::ExistsOfSelectIsSemi::exists_of_select_is_semi_stable))]
    fn is_stable() {}
}
