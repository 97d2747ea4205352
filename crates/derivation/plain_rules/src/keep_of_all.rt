//! A projection to all columns.

ghost use Rattle.plain_rules.specs.KeepOfAll as spec;

use algebra::Expr;
use rules::{Match, Operator, Operators, Pattern, Promise, Rule, RuleFault, Shape, Unfit};
use std::alloc::{AllocError, Global};
use values::Fault;

/// A projection to all columns changes nothing.
pub struct KeepOfAll;

impl Rule for KeepOfAll {
    const CODE: &'static str = "K2";

    ghost pattern = { spec.pattern };

    ghost gives = { spec.keep_of_all };

    ghost promise = { spec.promise };

    fn pattern() -> Pattern {
        Pattern::One(Operators::Only(Operator::Keep))
    }

    fn apply(alloc: Global, at: Match<'_>) -> Result<Shape, RuleFault> {
        match at.one_line()? {
            Expr::Keep(k, x) => {
                if at.classes.columns.are(*x, k) {
                    Ok(Shape::Class(*x))
                } else {
                    Err(Fault::Refused(Unfit::Condition))
                }
            }
            _ => Err(Fault::Refused(Unfit::Pattern)),
        }
    }

    fn promise(_alloc: Global, _at: Match<'_>) -> Result<Promise, AllocError> {
        Ok(Promise::Simpler)
    }

    #[tactic(auto, using(crate::proofs::KeepOfAll::keep_of_all_sound))]
    fn is_sound() {}

    #[tactic(auto, using(crate::proofs::KeepOfAll::keep_of_all_keeps))]
    fn keeps_to_pattern() {}

    #[tactic(auto, using(crate::proofs::KeepOfAll::keep_of_all_formed))]
    fn is_formed() {}

    #[tactic(auto, using(crate::proofs::KeepOfAll::keep_of_all_stable))]
    fn is_stable() {}
}
