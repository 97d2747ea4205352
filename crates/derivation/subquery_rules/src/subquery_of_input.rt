//! EXISTS and IN of a projection, or of distinct rows, are of their input.

ghost use Rattle.std.specs.Prelude.{◌≡◌, IfOk};
ghost use Rattle.rules.specs.Bindings.{class_in};
ghost use Rattle.subquery_rules.specs.SubqueryOfInput as spec;

use crate::replacing::{Replacement, all_ask_for, replaced};
use algebra::{ClassId, Expr};
use rules::shaping::select;
use rules::{
    Match, Operator, Operators, Pattern, PickedClass, Promise, Rule, RuleFault, Shape, Unfit,
};
use std::alloc::{AllocError, Global};
use values::Fault;

/// A selection whose conjuncts ask of a projection or of distinct rows asks of their input, in all of its conjuncts.
pub struct SubqueryOfInput;

/// The selection with the input in place of the class.
fn selection_of(alloc: Global, pick: PickedClass<'_>, input: ClassId) -> Result<Shape, AllocError>
    ensures { IfOk result (λ s. s ≡ spec.selection_of (class_in pick.entry) input) }
{
    let new = Replacement {
        class: pick.class,
        input,
    };
    select(
        alloc,
        replaced(alloc, pick.conjuncts, new)?,
        Shape::Class(pick.input),
    )
}

impl Rule for SubqueryOfInput {
    const CODE: &'static str = "U6";

    ghost pattern = { spec.pattern };

    ghost gives = { spec.subquery_of_input };

    ghost promise = { spec.promise };

    fn pattern() -> Pattern {
        Pattern::ClassLine(Operators::Either(Operator::Keep, Operator::Distinct))
    }

    fn apply(alloc: Global, at: Match<'_>) -> Result<Shape, RuleFault> {
        match at.class_line(alloc)? {
            (pick, Expr::Keep(kept, input)) => {
                if !all_ask_for(pick.conjuncts.as_slice(), pick.class, kept) {
                    return Err(Fault::Refused(Unfit::Condition));
                }
                Ok(selection_of(alloc, pick, *input)?)
            }
            (pick, Expr::Distinct(input)) => Ok(selection_of(alloc, pick, *input)?),
            _ => Err(Fault::Refused(Unfit::Pattern)),
        }
    }

    fn promise(_alloc: Global, _at: Match<'_>) -> Result<Promise, AllocError> {
        Ok(Promise::Simpler)
    }

    fn is_sound() {}

    #[tactic(auto, using(crate::proofs::SubqueryOfInput::subquery_of_input_keeps))]
    fn keeps_to_pattern() {}

    #[tactic(auto, using(crate::proofs::SubqueryOfInput::subquery_of_input_formed))]
    fn is_formed() {}

    #[tactic(auto, using(crate::proofs::SubqueryOfInput::subquery_of_input_stable))]
    fn is_stable() {}
}
