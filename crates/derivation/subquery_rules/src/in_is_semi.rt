//! IN is a semijoin by equality.

ghost use Rattle.subquery_rules.specs.InIsSemi as spec;

use crate::unnesting::in_as_semi;
use algebra::Conjuncts;
use rules::{Match, Pattern, Promise, Rule, RuleFault, Shape};
use std::alloc::{AllocError, Global};

/// A selection with IN of a class that doesn't read its rows is a semijoin with that class, by equality of the term and the column.
pub struct InIsSemi;

impl Rule for InIsSemi {
    const CODE: &'static str = "U3";

    ghost pattern = { spec.pattern };

    ghost gives = { spec.in_is_semi };

    ghost promise = { spec.promise };

    fn pattern() -> Pattern {
        Pattern::Subquery
    }

    fn apply(alloc: Global, at: Match<'_>) -> Result<Shape, RuleFault> {
        let pick = at.subquery()?;
        in_as_semi(alloc, at, pick, &Conjuncts::none(alloc), pick.class)
    }

    fn promise(_alloc: Global, _at: Match<'_>) -> Result<Promise, AllocError> {
        Ok(Promise::Simpler)
    }

    #[tactic(auto, using(crate::proofs::InIsSemi::in_is_semi_sound))]
    fn is_sound() {}

    #[tactic(auto, using(crate::proofs::InIsSemi::in_is_semi_keeps))]
    fn keeps_to_pattern() {}

    #[tactic(auto, using(crate::proofs::InIsSemi::in_is_semi_formed))]
    fn is_formed() {}

    #[tactic(auto, using(crate::proofs::InIsSemi::in_is_semi_stable))]
    fn is_stable() {}
}
