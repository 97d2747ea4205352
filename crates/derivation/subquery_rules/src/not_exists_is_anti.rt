//! NOT EXISTS is an antijoin.

ghost use Rattle.subquery_rules.specs.NotExistsIsAnti as spec;

use crate::unnesting::not_exists_as_anti;
use algebra::Conjuncts;
use rules::{Match, Pattern, Promise, Rule, RuleFault, Shape};
use std::alloc::{AllocError, Global};

/// A selection with NOT EXISTS of a class that doesn't read its rows is an antijoin with that class.
pub struct NotExistsIsAnti;

impl Rule for NotExistsIsAnti {
    const CODE: &'static str = "U2";

    ghost pattern = { spec.pattern };

    ghost gives = { spec.not_exists_is_anti };

    ghost promise = { spec.promise };

    fn pattern() -> Pattern {
        Pattern::Subquery
    }

    fn apply(alloc: Global, at: Match<'_>) -> Result<Shape, RuleFault> {
        let pick = at.subquery()?;
        not_exists_as_anti(alloc, at, pick, &Conjuncts::none(alloc), pick.class)
    }

    fn promise(_alloc: Global, _at: Match<'_>) -> Result<Promise, AllocError> {
        Ok(Promise::Simpler)
    }

    #[tactic(auto, using(crate::proofs::NotExistsIsAnti::not_exists_is_anti_sound))]
    fn is_sound() {}

    #[tactic(auto, using(crate::proofs::NotExistsIsAnti::not_exists_is_anti_keeps))]
    fn keeps_to_pattern() {}

    #[tactic(auto, using(crate::proofs::NotExistsIsAnti::not_exists_is_anti_formed))]
    fn is_formed() {}

    #[tactic(auto, using(crate::proofs::NotExistsIsAnti::not_exists_is_anti_stable))]
    fn is_stable() {}
}
