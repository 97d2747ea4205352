//! What a node costs over the labels of its inputs, against the label of its own goal.

ghost use Rattle.std.specs.Prelude.{◌≡◌, drop, option_map, slice_get, true, IfOk};
ghost use Rattle.std.specs.List.{sum_by};
ghost use Rattle.algebra.specs.Columns.{columns_at};
ghost use Rattle.costs.specs.Cardinalities.{rows_at};
ghost use Rattle.costs.specs.Costs as spec_costs;
ghost use Rattle.costs.specs.Numbers.{cut};
ghost use Rattle.labels.specs.Bounding as bounding;
ghost use Rattle.labels.specs.Labels as spec;
ghost use Rattle.labels.specs.Nodes.{node_fits};

use crate::by_class::LabelsByClass;
use crate::goal::{Goal, Label};
use crate::inputs::fitting_goals;
use crate::offers::Derived;
use costs::{Cardinalities, Estimate, Inputs, node_cost, sum};
use physical::Node;
use statistics::Statistics;
use std::alloc::{AllocError, Global};

/// Labels of goals, and what they are judged by.
#[derive(Drop)]
pub(crate) struct Labelling<'a, 'q> {
    pub derived: Derived<'a, 'q>,
    pub statistics: &'a Statistics,
    pub cardinalities: Cardinalities,
    pub labels: &'a [Label],
    pub by_class: LabelsByClass<'a>,
}

/// Of an input that is missing.
const NOTHING: Estimate = Estimate { rows: 0, cost: 0 };

/// The cost of a goal's label, if it has one.
#[tactic(auto, using(crate::proofs::Bounding::cost_in_class))]
pub(crate) fn cost_of(by: &Labelling<'_, '_>, goal: &Goal) -> Option<u64>
    requires { bounding.IsKept by.now }
    ensures { result ≡ spec.cost_of by.now.labels.now goal.now }
{
    by.by_class.cost_of(goal)
}

/// What the labels of goals estimate; none where one has no label.
#[tactic(auto, using(crate::proofs::Bounding::estimates_more, crate::proofs::Bounding::estimates_none, crate::proofs::Bounding::estimates_all))]
fn estimates_of(
    alloc: Global,
    by: &Labelling<'_, '_>,
    goals: &[Goal],
) -> Result<Option<Vec<Estimate>>, AllocError>
    requires { bounding.IsKept by.now }
    ensures { IfOk result (λ found. option_map (λ v. v.items) found ≡ spec.estimates_of (rows_at by.now.cardinalities) by.now.labels.now goals.now) }
{
    let mut estimates = Vec::new(alloc);
    for goal in goals {
        let Some(cost) = cost_of(by, goal) else {
            return Ok(None);
        };
        let rows = by.cardinalities.rows(goal.class);
        estimates.push(Estimate { rows, cost })?;
    }
    Ok(Some(estimates))
}

/// What all of them cost together.
fn total_cost(estimates: &[Estimate]) -> u64
    ensures { result ≡ cut (sum_by (λ x. x.cost) estimates.now) }
{
    let mut total: u64 = 0;
    for estimate in estimates {
        total = sum(total, estimate.cost);
    }
    total
}

fn estimate_at(estimates: &[Estimate], place: usize) -> Estimate
    ensures { result ≡ spec_costs.or_nothing (slice_get estimates.now place) }
{
    match estimates.get(place) {
        Some(estimate) => *estimate,
        None => NOTHING,
    }
}

/// What all behind the first cost together.
#[tactic(auto, using(crate::proofs::Bounding::later_none))]
fn later_cost(estimates: &[Estimate]) -> u64
    ensures { result ≡ cut (sum_by (λ x. x.cost) (drop 1 estimates.now)) }
{
    if estimates.is_empty() {
        0
    } else {
        total_cost(&estimates[1..])
    }
}

fn inputs_of(estimates: &[Estimate]) -> Inputs
    ensures { result ≡ spec_costs.with_cut_costs (spec_costs.inputs_of estimates.now) }
{
    Inputs {
        first: estimate_at(estimates, 0),
        second: estimate_at(estimates, 1),
        later: later_cost(estimates),
    }
}

/// Whether a node that fits its line, where it is offered at the label's goal, has labels at its inputs' goals, and costs over these no less than the
/// label.
pub(crate) fn bounds(
    alloc: Global,
    by: &Labelling<'_, '_>,
    label: &Label,
    node: &Node,
) -> Result<bool, AllocError>
    requires labels { bounding.IsKept by.now }
    requires fits { node_fits by.now.derived.log.now.instances by.now.derived.log.now.log (columns_at by.now.derived.columns.now) node.now ≡ true }
    ensures { IfOk result (λ b. b ≡ bounding.keeps by.now label.now node.now) }
{
    let derived = by.derived;
    let Some(goals) = fitting_goals(alloc, derived, &label.goal, node)? else {
        return Ok(true);
    };
    let Some(estimates) = estimates_of(alloc, by, goals.as_slice())? else {
        return Ok(false);
    };
    let rows = by.cardinalities.rows(label.goal.class);
    let inputs = inputs_of(estimates.as_slice());
    let cost = node_cost(by.statistics, derived.log.instances(), node, rows, inputs);
    Ok(label.cost <= cost)
}
