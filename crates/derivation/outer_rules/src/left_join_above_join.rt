//! An inner join goes below the outer join of its left side.

ghost use Rattle.values.specs.Faults.{Gives};
ghost use Rattle.props.specs.Knowledge.{known};
ghost use Rattle.outer_rules.specs.LeftJoinAboveJoin as spec;

use crate::left_join_below_join::change_places;
use algebra::{ClassId, Conjuncts, Expr};
use rules::shaping::{join, left_join};
use rules::{Below, Match, Operator, Operators, Pattern, Promise, Rule, RuleFault, Shape, Unfit};
use std::alloc::{AllocError, Global};
use values::Fault;

/// The outer join, of its right side, of the inner join of the other two.
fn lifted(
    alloc: Global,
    at: Match<'_>,
    inner: &Conjuncts,
    outer: &Conjuncts,
    left: ClassId,
    sides: (ClassId, ClassId),
) -> Result<Shape, RuleFault>
    ensures { Gives (λ s. s) result (spec.lifted (known at.entry.classes) inner.now outer.now left sides.0 sides.1) }
{
    let (inner_right, outer_right) = sides;
    if !change_places(alloc, at, inner, outer, inner_right, outer_right)? {
        return Err(Fault::Refused(Unfit::Condition));
    }
    let inner = inner.copy(alloc)?;
    let outer = outer.copy(alloc)?;
    let joined = join(alloc, inner, Shape::Class(left), Shape::Class(inner_right))?;
    Ok(left_join(alloc, outer, joined, Shape::Class(outer_right))?)
}

/// An inner join whose condition doesn't mention what the outer join below it pads is joined before that.
pub struct LeftJoinAboveJoin;

impl Rule for LeftJoinAboveJoin {
    const CODE: &'static str = "O5";

    ghost pattern = { spec.pattern };

    ghost gives = { spec.left_join_above_join };

    ghost promise = { spec.promise };

    fn pattern() -> Pattern {
        Pattern::Two(
            Operators::Only(Operator::Join),
            Below::first(Operators::Only(Operator::LeftJoin)),
        )
    }

    fn apply(alloc: Global, at: Match<'_>) -> Result<Shape, RuleFault> {
        match at.two_lines()? {
            (Expr::Join(c, _, b), Expr::LeftJoin(d, a, z)) => {
                lifted(alloc, at, c, d, *a, (*b, *z))
            }
            _ => Err(Fault::Refused(Unfit::Pattern)),
        }
    }

    fn promise(_alloc: Global, _at: Match<'_>) -> Result<Promise, AllocError> {
        Ok(Promise::Connected)
    }

    #[tactic(auto, using(crate::proofs::LeftJoinAboveJoin::left_join_above_join_sound))]
    fn is_sound() {}

    #[tactic(auto, using(crate::proofs::LeftJoinAboveJoin::left_join_above_join_keeps))]
    fn keeps_to_pattern() {}

    #[tactic(auto, using(crate::proofs::LeftJoinAboveJoin::left_join_above_join_formed))]
    fn is_formed() {}

    #[tactic(auto, using(crate::proofs::LeftJoinAboveJoin::left_join_above_join_stable))]
    fn is_stable() {}
}
