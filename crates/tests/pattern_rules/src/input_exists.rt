//! Where a selection or a projection has a row, so has what it is made of.

ghost use Rattle.std.specs.Prelude.{◌≡◌};
ghost use Rattle.values.specs.Faults.{Gives};
ghost use Rattle.rules.specs.Bindings.{subquery_in};
ghost use Rattle.pattern_rules.specs.InputExists as spec;

use algebra::{ClassId, Condition, Conjuncts, Expr};
use rules::shaping::select;
use rules::{
    Match, Operator, Operators, Pattern, PickedSubquery, Promise, Rule, RuleFault, Shape, Unfit,
};
use std::alloc::{AllocError, Global};
use values::Fault;

/// Whether what is picked is EXISTS.
fn is_exists(pick: PickedSubquery<'_>) -> bool
    ensures { result ≡ spec.is_exists (subquery_in pick.entry) }
{
    pick.condition.same(&Condition::Exists(pick.class))
}

/// The selection with EXISTS of one more class, where EXISTS is what is picked.
fn exists_too(alloc: Global, pick: PickedSubquery<'_>, input: ClassId) -> Result<Shape, RuleFault>
    ensures { Gives (λ s. s) result (spec.exists_too (subquery_in pick.entry) input) }
{
    if !is_exists(pick) {
        return Err(Fault::Refused(Unfit::Pattern));
    }
    let added = Conjuncts::of(alloc, &[Condition::Exists(input)])?;
    let conjuncts = pick.conjuncts.union(alloc, &added)?;
    Ok(select(alloc, conjuncts, Shape::Class(pick.input))?)
}

/// Of EXISTS of a selection or a projection, EXISTS of what that is made of follows.
pub struct InputExists;

impl Rule for InputExists {
    const CODE: &'static str = "input-exists";

    ghost pattern = { spec.pattern };

    ghost gives = { spec.input_exists };

    ghost promise = { spec.promise };

    fn pattern() -> Pattern {
        Pattern::SubqueryLine(Operators::Either(Operator::Select, Operator::Keep))
    }

    fn apply(alloc: Global, at: Match<'_>) -> Result<Shape, RuleFault> {
        match at.subquery_line()? {
            (pick, Expr::Select(_, y)) => exists_too(alloc, pick, *y),
            (pick, Expr::Keep(_, y)) => exists_too(alloc, pick, *y),
            _ => Err(Fault::Refused(Unfit::Pattern)),
        }
    }

    fn promise(_alloc: Global, _at: Match<'_>) -> Result<Promise, AllocError> {
        Ok(Promise::Connected)
    }

    #[tactic(auto, using(crate::proofs::InputExists::input_exists_sound))]
    fn is_sound() {}

    #[tactic(auto, using(crate::proofs::InputExists::input_exists_keeps))]
    fn keeps_to_pattern() {}

    #[tactic(auto, using(crate::proofs::InputExists::input_exists_formed))]
    fn is_formed() {}

    #[tactic(auto, using(crate::proofs::InputExists::input_exists_stable))]
    fn is_stable() {}
}
