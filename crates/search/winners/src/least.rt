//! The plan of least cost.

ghost use Rattle.std.specs.Prelude.{◌≡◌, ◌<◌, false, length, map, slice_get, IfNone, IfOk, IfSome, IsSome, Some};
ghost use Rattle.costs.specs.Cardinalities.{AreRows, rows_at};
ghost use Rattle.costs.specs.Costs.{plan_cost};
ghost use Rattle.labels.specs.declared.goal.Goal.{Goal};
ghost use Rattle.labels.specs.Labels.{Labelled};
ghost use Rattle.labels.specs.Offers as offers;
ghost use Rattle.labels.specs.Plans.{columns_in};
ghost use Rattle.winners.specs.Collected.{IsCollected};
ghost use Rattle.winners.specs.Offered.{HaveLabels, SomeGoalLacks};

use crate::build::plan_of;
use crate::collect::met_from;
use crate::found::{Cheapest, cheapest_of, cheapest_plans};
use crate::goals::copied;
use crate::space::Space;
use costs::Cardinalities;
use labels::{Derived, Goal, Label, goal_of, is_goal};
use logs::Log;
use physical::Plan;
use statistics::Statistics;
use std::alloc::{AllocError, Global};
use values::Items;

/// A plan and what it costs, in hundredths of a page, with labels that show it to be the cheapest.
#[derive(Drop)]
pub struct BestPlan {
    pub plan: Plan,
    pub cost: u64,
    pub labels: Items<Label>,
}

/// How many rows the classes of goals have.
fn goal_rows(
    alloc: Global,
    cardinalities: &Cardinalities,
    goals: &[Goal],
) -> Result<Vec<u64>, AllocError>
    ensures { IfOk result (λ rows. rows.items ≡ map (λ goal. rows_at cardinalities.now goal.class) goals.now) }
{
    let mut rows = Vec::new(alloc);
    for goal in goals {
        rows.push(cardinalities.rows(goal.class))?;
    }
    Ok(rows)
}

/// Labels of all goals with the costs of their cheapest plans; none where a goal has no plan.
fn labels_of(
    alloc: Global,
    goals: &[Goal],
    cheapest: &[Option<Cheapest>],
) -> Result<Option<Items<Label>>, AllocError>
    ensures some { IfOk result (λ found. IfSome found (λ labels. HaveLabels goals.now cheapest.now (length goals.now) labels)) }
    ensures none { IfOk result (λ found. IfNone found (SomeGoalLacks goals.now cheapest.now)) }
{
    let mut labels = Items::new(alloc);
    for (number, goal) in goals.iter().enumerate() {
        match cheapest_of(cheapest, number) {
            Some(found) => {
                let goal = copied(alloc, goal)?;
                let cost = found.estimate.cost;
                labels.push(Label { goal, cost })?;
            }
            None => return Ok(None),
        }
    }
    Ok(Some(labels))
}

/// The cheapest plan of the goal of a number, over all that is offered. There always is one, since a log's lines replay.
fn cheapest_over(
    alloc: Global,
    log: &Log<'_>,
    space: Space<'_>,
    goals: &[Goal],
    number: usize,
) -> Result<Option<BestPlan>, AllocError>
    requires collected { IsCollected space log.now goals.now }
    requires number { number < length goals.now }
    ensures some { IfOk result IsSome }
    ensures best { IfOk result (λ found. IfSome found (λ b. (root : Goal) → slice_get goals.now number ≡ Some (offers.goal_of log.now.log root.class root.order) → Labelled space.entry.statistics.now log.now.instances log.now.log root b.plan b.labels × (b.cost ≡ plan_cost space.entry.statistics.now log.now.instances log.now.log b.plan))) }
{
    // their contract says that they replay
    let _lines = log.lines();
    let found = cheapest_plans(alloc, space, goals.len())?;
    let Some(labels) = labels_of(alloc, goals, found.cheapest.as_slice())? else {
        return Ok(None);
    };
    let Some(cheapest) = cheapest_of(found.cheapest.as_slice(), number) else {
        return Ok(None);
    };
    let plan = plan_of(alloc, space, found.plans.as_slice(), cheapest.plan)?;
    let cost = cheapest.estimate.cost;
    Ok(Some(BestPlan { plan, cost, labels }))
}

/// The cheapest plan that the log's lines offer for the rows of the root's class in its order.
pub fn best(
    alloc: Global,
    log: &Log<'_>,
    statistics: &Statistics,
    cardinalities: &Cardinalities,
    root: &Goal,
) -> Result<Option<BestPlan>, AllocError>
    requires { AreRows statistics.now log.now.instances log.now.log cardinalities.now }
    ensures labelled { IfOk result (λ found. IfSome found (λ b. Labelled statistics.now log.now.instances log.now.log root.now b.plan b.labels)) }
    ensures cost { IfOk result (λ found. IfSome found (λ b. b.cost ≡ plan_cost statistics.now log.now.instances log.now.log b.plan)) }
    ensures none { IfOk result (λ found. IfNone found (offers.is_goal log.now.log (columns_in log.now.instances log.now.log) (offers.goal_of log.now.log root.now.class root.now.order) ≡ false)) }
{
    let derived = Derived::of(log);
    let wanted = goal_of(alloc, log, root.class, root.order.as_slice())?;
    if !is_goal(derived, &wanted) {
        return Ok(None);
    }
    // their contract says that they replay, so the goals of inputs are goals
    let _lines = log.lines();
    let met = met_from(alloc, derived, &wanted)?;
    let goals = met.goals.list.as_slice();
    let rows = goal_rows(alloc, cardinalities, goals)?;
    let space = Space {
        statistics,
        instances: log.instances(),
        nodes: met.nodes.list.as_slice(),
        offers: met.offers.as_slice(),
        rows: rows.as_slice(),
    };
    let found = cheapest_over(alloc, log, space, goals, met.root)?;
    Ok(found)
}
