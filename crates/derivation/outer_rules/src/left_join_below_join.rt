//! An outer join of an inner join goes below it, to the side that its condition mentions.

ghost use Rattle.std.specs.Prelude.{◌≡◌, IfOk};
ghost use Rattle.values.specs.Faults.{Gives};
ghost use Rattle.props.specs.Knowledge.{known};
ghost use Rattle.outer_rules.specs.LeftJoinBelowJoin as spec;

use algebra::{ClassId, Conjuncts, Expr};
use rules::shaping::{join, left_join};
use rules::{Below, Match, Operator, Operators, Pattern, Promise, Rule, RuleFault, Shape, Unfit};
use std::alloc::{AllocError, Global};
use values::Fault;

/// Whether an outer join and an inner join may change places: neither's condition mentions the right side of the other.
pub(crate) fn change_places(
    alloc: Global,
    at: Match<'_>,
    inner: &Conjuncts,
    outer: &Conjuncts,
    inner_right: ClassId,
    outer_right: ClassId,
) -> Result<bool, AllocError>
    ensures { IfOk result (λ b. b ≡ spec.change_places (known at.entry.classes) inner.now outer.now inner_right outer_right) }
{
    if !outer.are_without(alloc, at.classes.columns, inner_right)? {
        return Ok(false);
    }
    inner.are_without(alloc, at.classes.columns, outer_right)
}

/// The inner join, of its right side, of the outer join of its left side.
fn lowered(
    alloc: Global,
    at: Match<'_>,
    inner: &Conjuncts,
    outer: &Conjuncts,
    left: ClassId,
    sides: (ClassId, ClassId),
) -> Result<Shape, RuleFault>
    ensures { Gives (λ s. s) result (spec.lowered (known at.entry.classes) inner.now outer.now left sides.0 sides.1) }
{
    let (inner_right, outer_right) = sides;
    if !change_places(alloc, at, inner, outer, inner_right, outer_right)? {
        return Err(Fault::Refused(Unfit::Condition));
    }
    let inner = inner.copy(alloc)?;
    let outer = outer.copy(alloc)?;
    let padded = left_join(alloc, outer, Shape::Class(left), Shape::Class(outer_right))?;
    Ok(join(alloc, inner, padded, Shape::Class(inner_right))?)
}

/// An outer join of an inner join whose right side its condition doesn't mention is joined before that.
pub struct LeftJoinBelowJoin;

impl Rule for LeftJoinBelowJoin {
    const CODE: &'static str = "O4";

    ghost pattern = { spec.pattern };

    ghost gives = { spec.left_join_below_join };

    ghost promise = { spec.promise };

    fn pattern() -> Pattern {
        Pattern::Two(
            Operators::Only(Operator::LeftJoin),
            Below::first(Operators::Only(Operator::Join)),
        )
    }

    fn apply(alloc: Global, at: Match<'_>) -> Result<Shape, RuleFault> {
        match at.two_lines()? {
            (Expr::LeftJoin(d, _, z), Expr::Join(c, a, b)) => {
                lowered(alloc, at, c, d, *a, (*b, *z))
            }
            _ => Err(Fault::Refused(Unfit::Pattern)),
        }
    }

    fn promise(_alloc: Global, _at: Match<'_>) -> Result<Promise, AllocError> {
        Ok(Promise::Connected)
    }

    #[tactic(auto, using(crate::proofs::LeftJoinBelowJoin::left_join_below_join_sound))]
    fn is_sound() {}

    #[tactic(auto, using(crate::proofs::LeftJoinBelowJoin::left_join_below_join_keeps))]
    fn keeps_to_pattern() {}

    #[tactic(auto, using(crate::proofs::LeftJoinBelowJoin::left_join_below_join_formed))]
    fn is_formed() {}

    #[tactic(auto, using(crate::proofs::LeftJoinBelowJoin::left_join_below_join_stable))]
    fn is_stable() {}
}
