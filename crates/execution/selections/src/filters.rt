//! Filters.

ghost use Rattle.std.specs.Prelude.{IfOk};
ghost use Rattle.algebra.specs.Bags as bags;
ghost use Rattle.algebra.specs.Conditions as spec;
ghost use Rattle.physical.specs.Outputs.{no_classes};
ghost use Rattle.relations.specs.Relations.{IsOutput, env_of, rows_of};

use algebra::Condition;
use relations::passing::satisfying;
use relations::{Env, Relation};
use std::alloc::{AllocError, Global};

/// The rows at which all conditions are true.
pub fn filtered<'t>(
    alloc: Global,
    conditions: &[Condition],
    input: Relation<'t>,
    env: &Env<'_, 't>,
) -> Result<Relation<'t>, AllocError>
    ensures { IfOk result (IsOutput input.entry.heading.columns (bags.select (spec.holds no_classes conditions.now) (rows_of input.entry) (env_of env.now)) (env_of env.now)) }
{
    let kept = satisfying(alloc, conditions, &input, env)?;
    input.chosen(alloc, kept.as_slice())
}
