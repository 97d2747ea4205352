//! Redundant DISTINCT.

ghost use Rattle.plain_rules.specs.DistinctOfKeyed as spec;

use algebra::Expr;
use rules::{Match, Operator, Operators, Pattern, Promise, Rule, RuleFault, Shape, Unfit};
use std::alloc::{AllocError, Global};
use values::Fault;

/// Rows of which no two agree on a key stand once already.
pub struct DistinctOfKeyed;

impl Rule for DistinctOfKeyed {
    const CODE: &'static str = "D1";

    ghost pattern = { spec.pattern };

    ghost gives = { spec.distinct_of_keyed };

    ghost promise = { spec.promise };

    fn pattern() -> Pattern {
        Pattern::One(Operators::Only(Operator::Distinct))
    }

    fn apply(alloc: Global, at: Match<'_>) -> Result<Shape, RuleFault> {
        match at.one_line()? {
            Expr::Distinct(x) => {
                if at.classes.has_strong_key(*x) {
                    Ok(Shape::Class(*x))
                } else {
                    Err(Fault::Refused(Unfit::Condition))
                }
            }
            _ => Err(Fault::Refused(Unfit::Pattern)),
        }
    }

    fn promise(_alloc: Global, _at: Match<'_>) -> Result<Promise, AllocError> {
        Ok(Promise::Simpler)
    }

    #[tactic(auto, using(crate::proofs::DistinctOfKeyed::distinct_of_keyed_sound))]
    fn is_sound() {}

    #[tactic(auto, using(crate::proofs::DistinctOfKeyed::distinct_of_keyed_keeps))]
    fn keeps_to_pattern() {}

    #[tactic(auto, using(crate::proofs::DistinctOfKeyed::distinct_of_keyed_formed))]
    fn is_formed() {}

    #[tactic(auto, using(crate::proofs::DistinctOfKeyed::distinct_of_keyed_stable))]
    fn is_stable() {}
}
