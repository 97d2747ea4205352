//! NOT IN is a null-aware antijoin.

ghost use Rattle.subquery_rules.specs.NotInIsAnti as spec;

use crate::unnesting::not_in_as_anti;
use algebra::Conjuncts;
use rules::{Match, Pattern, Promise, Rule, RuleFault, Shape};
use std::alloc::{AllocError, Global};

/// A selection with NOT IN of a class that doesn't read its rows is a null-aware antijoin with that class.
pub struct NotInIsAnti;

impl Rule for NotInIsAnti {
    const CODE: &'static str = "U4";

    ghost pattern = { spec.pattern };

    ghost gives = { spec.not_in_is_anti };

    ghost promise = { spec.promise };

    fn pattern() -> Pattern {
        Pattern::Subquery
    }

    fn apply(alloc: Global, at: Match<'_>) -> Result<Shape, RuleFault> {
        let pick = at.subquery()?;
        not_in_as_anti(alloc, at, pick, &Conjuncts::none(alloc), pick.class)
    }

    fn promise(_alloc: Global, _at: Match<'_>) -> Result<Promise, AllocError> {
        Ok(Promise::Simpler)
    }

    #[tactic(auto, using(crate::proofs::NotInIsAnti::not_in_is_anti_sound))]
    fn is_sound() {}

    #[tactic(auto, using(crate::proofs::NotInIsAnti::not_in_is_anti_keeps))]
    fn keeps_to_pattern() {}

    #[tactic(auto, using(crate::proofs::NotInIsAnti::not_in_is_anti_formed))]
    fn is_formed() {}

    #[tactic(auto, using(crate::proofs::NotInIsAnti::not_in_is_anti_stable))]
    fn is_stable() {}
}
