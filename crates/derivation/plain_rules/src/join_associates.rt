//! Join associativity.

ghost use Rattle.std.specs.Prelude.{◌≡◌, IfOk};
ghost use Rattle.values.specs.Faults.{Gives};
ghost use Rattle.props.specs.Knowledge.{known};
ghost use Rattle.plain_rules.specs.JoinAssociates as spec;

use algebra::{ClassId, Conjuncts, Expr};
use rules::promise::are_connected;
use rules::shaping::join;
use rules::{Below, Match, Operator, Operators, Pattern, Promise, Rule, RuleFault, Shape, Unfit};
use std::alloc::{AllocError, Global};
use values::Fault;

/// The join of a join of the classes, with the last two joined first.
fn reordered(
    alloc: Global,
    at: Match<'_>,
    inner: &Conjuncts,
    outer: &Conjuncts,
    first: ClassId,
    second: ClassId,
    third: ClassId,
) -> Result<Shape, RuleFault>
    ensures { Gives (λ s. s) result (spec.reordered (known at.entry.classes) inner.now outer.now first second third) }
{
    if !inner.are_without(alloc, at.classes.columns, third)? {
        return Err(Fault::Refused(Unfit::Condition));
    }
    let all = inner.union(alloc, outer)?;
    let (below, rest) = all.split_without(alloc, at.classes.columns, first)?;
    let joined = join(alloc, below, Shape::Class(second), Shape::Class(third))?;
    Ok(join(alloc, rest, Shape::Class(first), joined)?)
}

/// What the join of the last two of three sides promises.
fn promised(alloc: Global, at: Match<'_>, top: &Expr, below: &Expr) -> Result<Promise, AllocError>
    ensures { IfOk result (λ p. p ≡ spec.promised (known at.entry.classes) top.now below.now) }
{
    match (top, below) {
        (Expr::Join(outer, _, third), Expr::Join(inner, _, second)) => {
            let is_connected = are_connected(alloc, at.classes, outer, *second, *third)?
                || are_connected(alloc, at.classes, inner, *second, *third)?;
            Ok(Promise::of_join(is_connected))
        }
        _ => Ok(Promise::Products),
    }
}

/// Of three sides the last two are joined first. Each conjunct that doesn't mention the first side is asked there; the inner
/// condition of before must not mention the third side.
pub struct JoinAssociates;

impl Rule for JoinAssociates {
    const CODE: &'static str = "J2";

    ghost pattern = { spec.pattern };

    ghost gives = { spec.join_associates };

    ghost promise = { spec.promise };

    fn pattern() -> Pattern {
        Pattern::Two(
            Operators::Only(Operator::Join),
            Below::first(Operators::Only(Operator::Join)),
        )
    }

    fn apply(alloc: Global, at: Match<'_>) -> Result<Shape, RuleFault> {
        match at.two_lines()? {
            (Expr::Join(d, _, z), Expr::Join(c, a, b)) => reordered(alloc, at, c, d, *a, *b, *z),
            _ => Err(Fault::Refused(Unfit::Pattern)),
        }
    }

    fn promise(alloc: Global, at: Match<'_>) -> Result<Promise, AllocError> {
        match at.lines {
            [top, below] => promised(alloc, at, top.expr, below.expr),
            _ => Ok(Promise::Products),
        }
    }

    #[tactic(auto, using(crate::proofs::JoinAssociates::join_associates_sound))]
    fn is_sound() {}

    #[tactic(auto, using(crate::proofs::JoinAssociates::join_associates_keeps))]
    fn keeps_to_pattern() {}

    #[tactic(auto, using(crate::proofs::JoinAssociates::join_associates_formed))]
    fn is_formed() {}

    #[tactic(auto, using(crate::proofs::JoinAssociates::join_associates_stable))]
    fn is_stable() {}
}
