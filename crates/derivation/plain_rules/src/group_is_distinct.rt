//! GROUP BY without aggregates.

ghost use Rattle.values.specs.Faults.{Gives};
ghost use Rattle.plain_rules.specs.GroupIsDistinct as spec;

use algebra::{ClassId, Columns, Expr};
use rules::shaping::keep;
use rules::{Match, Operator, Operators, Pattern, Promise, Rule, RuleFault, Shape, Unfit};
use std::alloc::{AllocError, Global};
use values::{Boxed, Fault};

/// The different keys of a class.
fn different_keys(alloc: Global, keys: &Columns, class: ClassId) -> Result<Shape, RuleFault>
    ensures { Gives (λ s. s) result (spec.different_keys keys.now class) }
{
    if keys.as_slice().is_empty() {
        return Err(Fault::Refused(Unfit::Condition));
    }
    let projected = keep(alloc, keys.copy(alloc)?, Shape::Class(class))?;
    Ok(Shape::Distinct(Boxed::new(alloc, projected)?))
}

/// Without aggregates the rows of groups are the different keys. Without keys there is one group, also of no rows.
pub struct GroupIsDistinct;

impl Rule for GroupIsDistinct {
    const CODE: &'static str = "G1";

    ghost pattern = { spec.pattern };

    ghost gives = { spec.group_is_distinct };

    ghost promise = { spec.promise };

    fn pattern() -> Pattern {
        Pattern::One(Operators::Only(Operator::Group))
    }

    fn apply(alloc: Global, at: Match<'_>) -> Result<Shape, RuleFault> {
        match at.one_line()? {
            Expr::Group(k, added, x) if added.as_slice().is_empty() => different_keys(alloc, k, *x),
            _ => Err(Fault::Refused(Unfit::Pattern)),
        }
    }

    fn promise(_alloc: Global, _at: Match<'_>) -> Result<Promise, AllocError> {
        Ok(Promise::Simpler)
    }

    #[tactic(auto, using(crate::proofs::GroupIsDistinct::group_is_distinct_sound))]
    fn is_sound() {}

    #[tactic(auto, using(crate::proofs::GroupIsDistinct::group_is_distinct_keeps))]
    fn keeps_to_pattern() {}

    #[tactic(auto, using(crate::proofs::GroupIsDistinct::group_is_distinct_formed))]
    fn is_formed() {}

    #[tactic(auto, using(crate::proofs::GroupIsDistinct::group_is_distinct_stable))]
    fn is_stable() {}
}
