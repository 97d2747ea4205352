//! A selection goes into a join's condition.

ghost use Rattle.values.specs.Faults.{Gives};
ghost use Rattle.plain_rules.specs.SelectIntoJoin as spec;

use algebra::{ClassId, Conjuncts, Expr};
use rules::shaping::{join, selected, some};
use rules::{Below, Match, Operator, Operators, Pattern, Promise, Rule, RuleFault, Shape, Unfit};
use std::alloc::{AllocError, Global};
use values::Fault;

/// The selection from a join of the classes, with the conjuncts without subqueries in the join's condition.
fn absorbed(
    alloc: Global,
    conjuncts: &Conjuncts,
    joined: &Conjuncts,
    left: ClassId,
    right: ClassId,
) -> Result<Shape, RuleFault>
    ensures { Gives (λ s. s) result (spec.absorbed conjuncts.now joined.now left right) }
{
    let (plain, rest) = conjuncts.split_plain(alloc)?;
    let all = joined.union(alloc, &some(plain)?)?;
    let joined = join(alloc, all, Shape::Class(left), Shape::Class(right))?;
    Ok(selected(alloc, rest, joined)?)
}

/// A selection from a join goes into the join's condition, but for its subqueries.
pub struct SelectIntoJoin;

impl Rule for SelectIntoJoin {
    const CODE: &'static str = "S3";

    ghost pattern = { spec.pattern };

    ghost gives = { spec.select_into_join };

    ghost promise = { spec.promise };

    fn pattern() -> Pattern {
        Pattern::Two(
            Operators::Only(Operator::Select),
            Below::first(Operators::Only(Operator::Join)),
        )
    }

    fn apply(alloc: Global, at: Match<'_>) -> Result<Shape, RuleFault> {
        match at.two_lines()? {
            (Expr::Select(c, _), Expr::Join(d, a, b)) => absorbed(alloc, c, d, *a, *b),
            _ => Err(Fault::Refused(Unfit::Pattern)),
        }
    }

    fn promise(_alloc: Global, _at: Match<'_>) -> Result<Promise, AllocError> {
        Ok(Promise::Connected)
    }

    #[tactic(auto, using(crate::proofs::SelectIntoJoin::select_into_join_sound))]
    fn is_sound() {}

    #[tactic(auto, using(crate::proofs::SelectIntoJoin::select_into_join_keeps))]
    fn keeps_to_pattern() {}

    #[tactic(auto, using(crate::proofs::SelectIntoJoin::select_into_join_formed))]
    fn is_formed() {}

    #[tactic(auto, using(crate::proofs::SelectIntoJoin::select_into_join_stable))]
    fn is_stable() {}
}
