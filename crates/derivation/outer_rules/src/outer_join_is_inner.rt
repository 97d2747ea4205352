//! An outer join whose padded rows a selection rejects is an inner join.

ghost use Rattle.std.specs.Prelude.{◌≡◌};
ghost use Rattle.values.specs.Faults.{Gives};
ghost use Rattle.algebra.specs.Columns.{has};
ghost use Rattle.props.specs.Knowledge.{known};
ghost use Rattle.props.specs.Outcomes.{never_true};
ghost use Rattle.outer_rules.specs.OuterJoinIsInner as spec;

use algebra::{ClassId, Columns, Conjuncts, Expr};
use props::{KnownClasses, NullColumns, never_true};
use rules::shaping::{join, select};
use rules::{Below, Match, Operator, Operators, Pattern, Promise, Rule, RuleFault, Shape, Unfit};
use std::alloc::{AllocError, Global};
use values::Fault;

/// Whether the conjuncts don't all hold where the columns are Null.
fn reject_columns(conjuncts: &Conjuncts, columns: &Columns) -> bool
    ensures { result ≡ never_true conjuncts.now (has columns.now) }
{
    never_true(conjuncts.as_slice(), NullColumns::All(columns))
}

/// The same of the columns of a class; none where there is no class of this number.
fn reject_nulls(
    alloc: Global,
    classes: KnownClasses<'_>,
    conjuncts: &Conjuncts,
    class: ClassId,
) -> bool
    ensures { result ≡ spec.reject_nulls (known classes.entry) conjuncts.now class }
{
    match classes.columns.columns.get(class as usize) {
        Some(columns) => reject_columns(conjuncts, columns),
        None => reject_columns(conjuncts, &Columns::from_vec(Vec::new(alloc))),
    }
}

/// The selection from the inner join of the classes, if it rejects padded rows.
fn joined(
    alloc: Global,
    at: Match<'_>,
    conjuncts: &Conjuncts,
    condition: &Conjuncts,
    left: ClassId,
    right: ClassId,
) -> Result<Shape, RuleFault>
    ensures { Gives (λ s. s) result (spec.joined (known at.entry.classes) conjuncts.now condition.now left right) }
{
    if !reject_nulls(alloc, at.classes, conjuncts, right) {
        return Err(Fault::Refused(Unfit::Condition));
    }
    let conjuncts = conjuncts.copy(alloc)?;
    let condition = condition.copy(alloc)?;
    let joined = join(alloc, condition, Shape::Class(left), Shape::Class(right))?;
    Ok(select(alloc, conjuncts, joined)?)
}

/// A selection that no padded row passes takes the rows of the inner join alone.
pub struct OuterJoinIsInner;

impl Rule for OuterJoinIsInner {
    const CODE: &'static str = "O1";

    ghost pattern = { spec.pattern };

    ghost gives = { spec.outer_join_is_inner };

    ghost promise = { spec.promise };

    fn pattern() -> Pattern {
        Pattern::Two(
            Operators::Only(Operator::Select),
            Below::first(Operators::Only(Operator::LeftJoin)),
        )
    }

    fn apply(alloc: Global, at: Match<'_>) -> Result<Shape, RuleFault> {
        match at.two_lines()? {
            (Expr::Select(c, _), Expr::LeftJoin(d, a, b)) => joined(alloc, at, c, d, *a, *b),
            _ => Err(Fault::Refused(Unfit::Pattern)),
        }
    }

    fn promise(_alloc: Global, _at: Match<'_>) -> Result<Promise, AllocError> {
        Ok(Promise::Simpler)
    }

    #[tactic(auto, using(crate::proofs::OuterJoinIsInner::outer_join_is_inner_sound))]
    fn is_sound() {}

    #[tactic(auto, using(crate::proofs::OuterJoinIsInner::outer_join_is_inner_keeps))]
    fn keeps_to_pattern() {}

    #[tactic(auto, using(crate::proofs::OuterJoinIsInner::outer_join_is_inner_formed))]
    fn is_formed() {}

    #[tactic(auto, using(crate::proofs::OuterJoinIsInner::outer_join_is_inner_stable))]
    fn is_stable() {}
}
