//! Whether labels show that a plan is the cheapest of its goal.

ghost use Rattle.std.specs.Prelude.{◌≡◌, ◌↔◌, ◌==◌, Some, IfOk, IsTrue};
ghost use Rattle.std.specs.List.{list_all};
ghost use Rattle.algebra.specs.Columns.{columns_at};
ghost use Rattle.costs.specs.Cardinalities.{AreRows};
ghost use Rattle.labels.specs.Labels as spec;
ghost use Rattle.labels.specs.Offers.{is_goal};

use crate::accesses::accesses_of;
use crate::bounds::{Labelling, cost_of};
use crate::by_class::labels_by_class;
use crate::goal::{Goal, Label};
use crate::lines::all_keep;
use crate::offered::is_offered;
use crate::offers::{Derived, goal_of, is_goal};
use costs::{Cardinalities, cost};
use logs::Log;
use physical::Plan;
use statistics::Statistics;
use std::alloc::{AllocError, Global};

/// Whether all labels are of goals.
fn are_goals(derived: Derived<'_, '_>, labels: &[Label]) -> bool
    ensures { result ≡ list_all (λ l. is_goal derived.entry.log.now.log (columns_at derived.entry.columns.now) l.goal) labels.now }
{
    labels.iter().all(|label| is_goal(derived, &label.goal))
}

/// Whether labels show that no plan of a goal costs less than a plan of it: the goal needn't name the class that stands for its sames. It takes time in
/// proportion to the nodes of the lines of all classes that have labels, each times the labels of its class.
pub fn check_least<'a>(
    alloc: Global,
    log: &'a Log<'_>,
    statistics: &'a Statistics,
    root: &Goal,
    plan: &Plan,
    labels: &'a [Label],
) -> Result<bool, AllocError>
    ensures { IfOk result (λ b. IsTrue b ↔ spec.Labelled statistics.now log.now.instances log.now.log root.now plan.now labels.now) }
{
    let derived = Derived::of(log);
    if !are_goals(derived, labels) {
        return Ok(false);
    }
    let Some(by_class) = labels_by_class(alloc, log.len(), labels)? else {
        return Ok(false);
    };
    let goal = goal_of(alloc, log, root.class, root.order.as_slice())?;
    if !is_offered(alloc, derived, plan, &goal)? {
        return Ok(false);
    }
    let cardinalities = Cardinalities::of(alloc, statistics, log)?;
    let cost = cost(statistics, log, &cardinalities, plan);
    let by = Labelling {
        derived,
        statistics,
        cardinalities,
        labels,
        by_class,
    };
    let Some(own) = cost_of(&by, &goal) else {
        return Ok(false);
    };
    if own != cost {
        return Ok(false);
    }
    let accesses = accesses_of(alloc, log)?;
    let keep = all_keep(alloc, &by, accesses.as_slice())?;
    Ok(keep)
}
