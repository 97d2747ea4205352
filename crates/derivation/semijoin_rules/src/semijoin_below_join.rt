//! A semijoin or an antijoin of an inner join goes below it, to the side that its conditions mention.

ghost use Rattle.std.specs.Prelude.{◌≡◌, ◌++◌, IfOk};
ghost use Rattle.values.specs.Faults.{Gives};
ghost use Rattle.props.specs.Knowledge.{known};
ghost use Rattle.semijoin_rules.specs.SemijoinBelowJoin as spec;

use algebra::{ClassId, Conjuncts, Expr};
use rules::shaping::{anti, join, semi};
use rules::{Below, Match, Operator, Operators, Pattern, Promise, Rule, RuleFault, Shape, Unfit};
use std::alloc::{AllocError, Global};
use values::Fault;

/// Whether an inner join and what stands over it may change places: neither's conditions mention the right side of the other.
fn change_places(
    alloc: Global,
    at: Match<'_>,
    inner: &Conjuncts,
    upper: &Conjuncts,
    inner_right: ClassId,
    upper_right: ClassId,
) -> Result<bool, AllocError>
    ensures { IfOk result (λ b. b ≡ spec.change_places (known at.entry.classes) inner.now upper.now inner_right upper_right) }
{
    if !upper.are_without(alloc, at.classes.columns, inner_right)? {
        return Ok(false);
    }
    inner.are_without(alloc, at.classes.columns, upper_right)
}

/// The same of an antijoin, which has two lists of conditions.
#[tactic(auto, using(crate::proofs::JoinedSides::lists_change_places))]
fn lists_change_places(
    alloc: Global,
    at: Match<'_>,
    inner: &Conjuncts,
    lists: (&Conjuncts, &Conjuncts),
    inner_right: ClassId,
    upper_right: ClassId,
) -> Result<bool, AllocError>
    ensures { IfOk result (λ b. b ≡ spec.change_places (known at.entry.classes) inner.now (lists.entry.0.now ++ lists.entry.1.now) inner_right upper_right) }
{
    let (ordinary, null_aware) = lists;
    if !change_places(alloc, at, inner, ordinary, inner_right, upper_right)? {
        return Ok(false);
    }
    null_aware.are_without(alloc, at.classes.columns, inner_right)
}

/// The inner join, of its right side, of the semijoin of its left side.
fn semi_below(
    alloc: Global,
    at: Match<'_>,
    inner: &Conjuncts,
    conditions: &Conjuncts,
    left: ClassId,
    sides: (ClassId, ClassId),
) -> Result<Shape, RuleFault>
    ensures { Gives (λ s. s) result (spec.semi_below (known at.entry.classes) inner.now conditions.now left sides.0 sides.1) }
{
    let (inner_right, right) = sides;
    if !change_places(alloc, at, inner, conditions, inner_right, right)? {
        return Err(Fault::Refused(Unfit::Condition));
    }
    let inner = inner.copy(alloc)?;
    let conditions = conditions.copy(alloc)?;
    let found = semi(alloc, conditions, Shape::Class(left), Shape::Class(right))?;
    Ok(join(alloc, inner, found, Shape::Class(inner_right))?)
}

/// The inner join, of its right side, of the antijoin of its left side.
fn anti_below(
    alloc: Global,
    at: Match<'_>,
    inner: &Conjuncts,
    lists: (&Conjuncts, &Conjuncts),
    left: ClassId,
    sides: (ClassId, ClassId),
) -> Result<Shape, RuleFault>
    ensures { Gives (λ s. s) result (spec.anti_below (known at.entry.classes) inner.now lists.entry.0.now lists.entry.1.now left sides.0 sides.1) }
{
    let (inner_right, right) = sides;
    if !lists_change_places(alloc, at, inner, lists, inner_right, right)? {
        return Err(Fault::Refused(Unfit::Condition));
    }
    let (ordinary, null_aware) = lists;
    let inner = inner.copy(alloc)?;
    let ordinary = ordinary.copy(alloc)?;
    let lists = (ordinary, null_aware.copy(alloc)?);
    let unfound = anti(alloc, lists, Shape::Class(left), Shape::Class(right))?;
    Ok(join(alloc, inner, unfound, Shape::Class(inner_right))?)
}

/// A semijoin or an antijoin of an inner join whose right side it doesn't mention is made before that.
pub struct SemijoinBelowJoin;

impl Rule for SemijoinBelowJoin {
    const CODE: &'static str = "U11";

    ghost pattern = { spec.pattern };

    ghost gives = { spec.semijoin_below_join };

    ghost promise = { spec.promise };

    fn pattern() -> Pattern {
        Pattern::Two(
            Operators::Either(Operator::Semi, Operator::Anti),
            Below::first(Operators::Only(Operator::Join)),
        )
    }

    fn apply(alloc: Global, at: Match<'_>) -> Result<Shape, RuleFault> {
        match at.two_lines()? {
            (Expr::Semi(d, _, z), Expr::Join(c, a, b)) => {
                semi_below(alloc, at, c, d, *a, (*b, *z))
            }
            (Expr::Anti(ordinary, null_aware, _, z), Expr::Join(c, a, b)) => {
                anti_below(alloc, at, c, (ordinary, null_aware), *a, (*b, *z))
            }
            _ => Err(Fault::Refused(Unfit::Pattern)),
        }
    }

    fn promise(_alloc: Global, _at: Match<'_>) -> Result<Promise, AllocError> {
        Ok(Promise::Connected)
    }

    #[tactic(auto, using(crate::proofs::SemijoinBelowJoin::semijoin_below_join_sound))]
    fn is_sound() {}

    #[tactic(auto, using(crate::proofs::SemijoinBelowJoin::semijoin_below_join_keeps))]
    fn keeps_to_pattern() {}

    #[tactic(auto, using(crate::proofs::SemijoinBelowJoin::semijoin_below_join_formed))]
    fn is_formed() {}

    #[tactic(auto, using(crate::proofs::SemijoinBelowJoin::semijoin_below_join_stable))]
    fn is_stable() {}
}
