//! A semijoin of whose right side at most one row is found is a projection of a join.

ghost use Rattle.std.specs.Prelude.{◌≡◌, IfOk};
ghost use Rattle.values.specs.Faults.{Gives};
ghost use Rattle.algebra.specs.GivenColumns.{given_columns};
ghost use Rattle.props.specs.Knowledge.{known};
ghost use Rattle.semijoin_rules.specs.SemijoinIsJoin as spec;

use algebra::{ClassColumns, ClassId, Columns, Conjuncts, Expr};
use props::single::is_single;
use rules::shaping::{join, keep};
use rules::{Match, Operator, Operators, Pattern, Promise, Rule, RuleFault, Shape, Unfit};
use std::alloc::{AllocError, Global};
use values::Fault;

/// The columns of a class; none where the list has no class of this number.
fn columns_of(
    alloc: Global,
    classes: ClassColumns<'_>,
    class: ClassId,
) -> Result<Columns, AllocError>
    ensures { IfOk result (λ c. c ≡ given_columns classes.entry class) }
{
    match classes.columns.get(class as usize) {
        Some(columns) => columns.copy(alloc),
        None => Ok(Columns::from_vec(Vec::new(alloc))),
    }
}

/// The join of the classes, with the left side's columns, if no left row finds two rows of the right side.
fn joined(
    alloc: Global,
    at: Match<'_>,
    conditions: &Conjuncts,
    left: ClassId,
    right: ClassId,
) -> Result<Shape, RuleFault>
    ensures { Gives (λ s. s) result (spec.joined (known at.entry.classes) conditions.now left right) }
{
    if !is_single(at.classes, right, conditions.as_slice()) {
        return Err(Fault::Refused(Unfit::Condition));
    }
    let conditions = conditions.copy(alloc)?;
    let columns = columns_of(alloc, at.classes.columns, left)?;
    let joined = join(alloc, conditions, Shape::Class(left), Shape::Class(right))?;
    Ok(keep(alloc, columns, joined)?)
}

/// A semijoin whose left rows find one row each at most is the join of the two sides, without the right side's columns.
pub struct SemijoinIsJoin;

impl Rule for SemijoinIsJoin {
    const CODE: &'static str = "U12";

    ghost pattern = { spec.pattern };

    ghost gives = { spec.semijoin_is_join };

    ghost promise = { spec.promise };

    fn pattern() -> Pattern {
        Pattern::One(Operators::Only(Operator::Semi))
    }

    fn apply(alloc: Global, at: Match<'_>) -> Result<Shape, RuleFault> {
        match at.one_line()? {
            Expr::Semi(d, a, b) => joined(alloc, at, d, *a, *b),
            _ => Err(Fault::Refused(Unfit::Pattern)),
        }
    }

    fn promise(_alloc: Global, _at: Match<'_>) -> Result<Promise, AllocError> {
        Ok(Promise::Connected)
    }

    #[tactic(auto, using(crate::proofs::SemijoinIsJoin::semijoin_is_join_sound))]
    fn is_sound() {}

    #[tactic(auto, using(crate::proofs::SemijoinIsJoin::semijoin_is_join_keeps))]
    fn keeps_to_pattern() {}

    #[tactic(auto, using(crate::proofs::SemijoinIsJoin::semijoin_is_join_formed))]
    fn is_formed() {}

    #[tactic(auto, using(crate::proofs::SemijoinIsJoin::semijoin_is_join_stable))]
    fn is_stable() {}
}
