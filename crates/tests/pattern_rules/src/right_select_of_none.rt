//! A selection without conjuncts, on the right side of a join.

ghost use Rattle.pattern_rules.specs.RightSelectOfNone as spec;

use algebra::Expr;
use rules::shaping::join;
use rules::{
    Below, Input, Match, Operator, Operators, Pattern, Promise, Rule, RuleFault, Shape, Unfit,
};
use std::alloc::{AllocError, Global};
use values::Fault;

/// On the right side of a join a selection without conjuncts changes nothing.
pub struct RightSelectOfNone;

impl Rule for RightSelectOfNone {
    const CODE: &'static str = "right-select-of-none";

    ghost pattern = { spec.pattern };

    ghost gives = { spec.right_select_of_none };

    ghost promise = { spec.promise };

    fn pattern() -> Pattern {
        Pattern::Two(
            Operators::Only(Operator::Join),
            Below {
                input: Input::Second,
                operators: Operators::Only(Operator::Select),
            },
        )
    }

    fn apply(alloc: Global, at: Match<'_>) -> Result<Shape, RuleFault> {
        match at.two_lines_over(Input::Second)? {
            (Expr::Join(d, a, _), Expr::Select(c, x)) if c.as_slice().is_empty() => Ok(join(
                alloc,
                d.copy(alloc)?,
                Shape::Class(*a),
                Shape::Class(*x),
            )?),
            _ => Err(Fault::Refused(Unfit::Pattern)),
        }
    }

    fn promise(_alloc: Global, _at: Match<'_>) -> Result<Promise, AllocError> {
        Ok(Promise::Simpler)
    }

    #[tactic(auto, using(crate::proofs::RightSelectOfNone::right_select_of_none_sound))]
    fn is_sound() {}

    #[tactic(auto, using(crate::proofs::RightSelectOfNone::right_select_of_none_keeps))]
    fn keeps_to_pattern() {}

    #[tactic(auto, using(crate::proofs::RightSelectOfNone::right_select_of_none_formed))]
    fn is_formed() {}

    #[tactic(auto, using(crate::proofs::RightSelectOfNone::right_select_of_none_stable))]
    fn is_stable() {}
}
