//! Conditions with subqueries: what it costs to evaluate one of them, and of which leaves it mentions columns.

ghost use Rattle.join_trees.specs.Estimates.{AreOfLog};

use crate::log_estimates::{LogEstimates, mentioned_leaves};
use crate::regions::conditions_of;
use crate::sets::LeafSet;
use crate::unnested::{EvaluationCost, cost_of_evaluating};
use algebra::{ClassId, Condition, Conjuncts, LineId};
use costs::{selectivity, sum};
use labels::Goal;
use std::alloc::{AllocError, Global};
use values::Items;
use winners::best;

/// Of so many rows conditions are compared by their costs.
const MANY_ROWS: u64 = 1_000;

/// What is estimated of a condition with a subquery.
#[derive(Clone, Copy, Drop)]
pub struct SubqueryEstimate {
    /// The leaves of which it mentions a column.
    pub leaves: LeafSet,
    pub evaluation: EvaluationCost,
    pub selectivity: u64,
}

/// A condition of a selection that names classes. It is evaluated over whole rows, by a selection of its own: that runs the plans of its classes for each row, or is
/// a semijoin or an antijoin with theirs.
#[derive(Drop)]
pub struct Subquery {
    pub condition: Condition,
    pub estimate: SubqueryEstimate,
}

/// What the cheapest plan that is known of a class costs, its rows in any order.
pub fn class_cost(
    alloc: Global,
    estimates: LogEstimates<'_, '_>,
    class: ClassId,
) -> Result<Option<u64>, AllocError>
    requires { AreOfLog estimates }
{
    let root = Goal {
        class,
        order: Items::new(alloc),
    };
    let found = best(
        alloc,
        estimates.log,
        estimates.statistics,
        estimates.cardinalities,
        &root,
    )?;
    Ok(found.map(|plan| plan.cost))
}

/// What it costs to evaluate the condition at one row, by the plans of its classes.
fn cost_per_row(
    alloc: Global,
    estimates: LogEstimates<'_, '_>,
    condition: &Condition,
) -> Result<u64, AllocError>
    requires { AreOfLog estimates }
{
    let mut own = Vec::new(alloc);
    own.push(condition.copy(alloc)?)?;
    let mut later = 0u64;
    for class in &Conjuncts::of(alloc, own.as_slice())?.classes(alloc)? {
        let plan = class_cost(alloc, estimates, *class)?;
        later = sum(later, plan.unwrap_or(0));
    }
    Ok(sum(1, later))
}

/// A condition, with what is estimated of it.
fn subquery_of(
    alloc: Global,
    estimates: LogEstimates<'_, '_>,
    leaves: &[ClassId],
    condition: &Condition,
) -> Result<Subquery, AllocError>
    requires { AreOfLog estimates }
{
    let per_row = cost_per_row(alloc, estimates, condition)?;
    let estimate = SubqueryEstimate {
        leaves: mentioned_leaves(alloc, estimates.log, leaves, condition)?,
        evaluation: cost_of_evaluating(alloc, estimates, leaves, condition, per_row)?,
        selectivity: selectivity(estimates.statistics, estimates.log.instances(), condition),
    };
    Ok(Subquery {
        condition: condition.copy(alloc)?,
        estimate,
    })
}

/// The conditions of the line that name classes, over these leaves, the dearest first.
pub fn subqueries_of(
    alloc: Global,
    estimates: LogEstimates<'_, '_>,
    leaves: &[ClassId],
    select: LineId,
) -> Result<Vec<Subquery>, AllocError>
    requires { AreOfLog estimates }
{
    let mut found: Vec<Subquery> = Vec::new(alloc);
    for condition in conditions_of(estimates.log, select) {
        if !condition.has_no_class() {
            let one = subquery_of(alloc, estimates, leaves, condition)?;
            let cost = one.estimate.evaluation.cost(MANY_ROWS);
            let place = found
                .iter()
                .position(|other| other.estimate.evaluation.cost(MANY_ROWS) < cost);
            match place {
                Some(place) => found.insert(place, one)?,
                None => found.push(one)?,
            }
        }
    }
    Ok(found)
}
