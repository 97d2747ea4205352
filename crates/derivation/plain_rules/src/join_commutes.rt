//! Join commutativity.

ghost use Rattle.std.specs.Prelude.{◌≡◌};
ghost use Rattle.plain_rules.specs.JoinCommutes as spec;

use algebra::Expr;
use rules::shaping::join;
use rules::{Match, Operator, Operators, Pattern, Promise, Rule, RuleFault, Shape, Unfit};
use std::alloc::{AllocError, Global};
use values::Fault;

/// What the join promises, turned.
fn turned(expr: &Expr) -> Promise
    ensures { result ≡ spec.promised expr.now }
{
    match expr {
        Expr::Join(conjuncts, _, _) => Promise::of_join(!conjuncts.as_slice().is_empty()),
        _ => Promise::Products,
    }
}

/// The sides of a join change places.
pub struct JoinCommutes;

impl Rule for JoinCommutes {
    const CODE: &'static str = "J1";

    ghost pattern = { spec.pattern };

    ghost gives = { spec.join_commutes };

    ghost promise = { spec.promise };

    fn pattern() -> Pattern {
        Pattern::One(Operators::Only(Operator::Join))
    }

    fn apply(alloc: Global, at: Match<'_>) -> Result<Shape, RuleFault> {
        match at.one_line()? {
            Expr::Join(c, a, b) => Ok(join(
                alloc,
                c.copy(alloc)?,
                Shape::Class(*b),
                Shape::Class(*a),
            )?),
            _ => Err(Fault::Refused(Unfit::Pattern)),
        }
    }

    fn promise(_alloc: Global, at: Match<'_>) -> Result<Promise, AllocError> {
        Ok(match at.lines {
            [line] => turned(line.expr),
            _ => Promise::Products,
        })
    }

    #[tactic(auto, using(crate::proofs::JoinCommutes::join_commutes_sound))]
    fn is_sound() {}

    #[tactic(auto, using(crate::proofs::JoinCommutes::join_commutes_keeps))]
    fn keeps_to_pattern() {}

    #[tactic(auto, using(crate::proofs::JoinCommutes::join_commutes_formed))]
    fn is_formed() {}

    #[tactic(auto, using(crate::proofs::JoinCommutes::join_commutes_stable))]
    fn is_stable() {}
}
