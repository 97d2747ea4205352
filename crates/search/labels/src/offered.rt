//! Whether a plan is one of a goal.

ghost use Rattle.std.specs.Prelude.{◌≡◌, map, IfOk};
ghost use Rattle.algebra.specs.Columns.{columns_at};
ghost use Rattle.labels.specs.Plans as spec;

use crate::goal::Goal;
use crate::inputs::input_goals;
use crate::offers::Derived;
use physical::Plan;
use std::alloc::{AllocError, Global};

/// Whether a plan is offered for a goal: its root at the goal, and each of its inputs at its own.
#[cycle(offered)]
#[tactic(auto, using(crate::proofs::PlanOffers::offered_out))]
pub(crate) fn is_offered(
    alloc: Global,
    derived: Derived<'_, '_>,
    plan: &Plan,
    goal: &Goal,
) -> Result<bool, AllocError>
    ensures { IfOk result (λ b. b ≡ spec.is_offered derived.entry.log.now.instances derived.entry.log.now.log (columns_at derived.entry.columns.now) plan.now goal.now) }
{
    let Some(goals) = input_goals(alloc, derived, goal, &plan.node)? else {
        return Ok(false);
    };
    are_for(alloc, derived, plan.inputs.as_slice(), goals.as_slice())
}

/// Whether these are inputs for the goals.
#[cycle(offered)]
fn are_for(
    alloc: Global,
    derived: Derived<'_, '_>,
    inputs: &[Plan],
    goals: &[Goal],
) -> Result<bool, AllocError>
    ensures { IfOk result (λ b. b ≡ spec.are_for (map (spec.is_offered derived.entry.log.now.instances derived.entry.log.now.log (columns_at derived.entry.columns.now)) inputs.now) goals.now) }
{
    if inputs.len() != goals.len() {
        return Ok(false);
    }
    for i in 0..inputs.len() {
        if !is_offered(alloc, derived, &inputs[i], &goals[i])? {
            return Ok(false);
        }
    }
    Ok(true)
}
