//! Two selections as one, on the right side of a join.

ghost use Rattle.pattern_rules.specs.RightSelectsMerge as spec;

use algebra::Expr;
use rules::shaping::{join, select};
use rules::{
    Below, Input, Match, Operator, Operators, Pattern, Promise, Rule, RuleFault, Shape, Unfit,
};
use std::alloc::{AllocError, Global};
use values::Fault;

/// On the right side of a join two selections are one.
pub struct RightSelectsMerge;

impl Rule for RightSelectsMerge {
    const CODE: &'static str = "right-selects-merge";

    ghost pattern = { spec.pattern };

    ghost gives = { spec.right_selects_merge };

    ghost promise = { spec.promise };

    fn pattern() -> Pattern {
        let select = Operators::Only(Operator::Select);
        Pattern::Three(
            Operators::Only(Operator::Join),
            Below {
                input: Input::Second,
                operators: select,
            },
            Below::first(select),
        )
    }

    fn apply(alloc: Global, at: Match<'_>) -> Result<Shape, RuleFault> {
        match at.three_lines_over(Input::Second, Input::First)? {
            (Expr::Join(e, a, _), Expr::Select(c, _), Expr::Select(d, y)) => {
                let condition = e.copy(alloc)?;
                let right = select(alloc, c.union(alloc, d)?, Shape::Class(*y))?;
                Ok(join(alloc, condition, Shape::Class(*a), right)?)
            }
            _ => Err(Fault::Refused(Unfit::Pattern)),
        }
    }

    fn promise(_alloc: Global, _at: Match<'_>) -> Result<Promise, AllocError> {
        Ok(Promise::Simpler)
    }

    #[tactic(auto, using(crate::proofs::RightSelectsMerge::right_selects_merge_sound))]
    fn is_sound() {}

    #[tactic(auto, using(crate::proofs::RightSelectsMerge::right_selects_merge_keeps))]
    fn keeps_to_pattern() {}

    #[tactic(auto, using(crate::proofs::RightSelectsMerge::right_selects_merge_formed))]
    fn is_formed() {}

    #[tactic(auto, using(crate::proofs::RightSelectsMerge::right_selects_merge_stable))]
    fn is_stable() {}
}
