//! What a plan costs, and each node of it.

ghost use Rattle.std.specs.Prelude.{◌≡◌, ◌++◌, flat_map, map, IfOk, OnOk};
ghost use Rattle.derivation.specs.Logs.{class_at};
ghost use Rattle.costs.specs.Cardinalities.{AreRows, rows_at};
ghost use Rattle.costs.specs.Costs as spec;

use crate::cardinalities::Cardinalities;
use crate::nodes::{Estimate, Inputs, node_cost};
use crate::numbers::sum;
use algebra::{ClassId, LineId};
use logs::Log;
use physical::{Node, Plan};
use statistics::Statistics;
use std::alloc::{AllocError, Global};

/// Of an input that is missing.
const NOTHING: Estimate = Estimate { rows: 0, cost: 0 };

/// The class of a line's expression; the line's own number where it has none.
fn class_at(log: &Log<'_>, line: LineId) -> ClassId
    ensures { result ≡ class_at log.now.log line }
{
    match log.member(line) {
        Some(member) => member.class,
        None => line,
    }
}

/// How many rows a node gives.
fn node_rows(log: &Log<'_>, cardinalities: &Cardinalities, node: &Node, inputs: Inputs) -> u64
    ensures { result ≡ spec.node_rows (rows_at cardinalities.now) log.now.log node.now inputs }
{
    match node {
        Node::Implements { line, .. } => cardinalities.rows(class_at(log, *line)),
        Node::Sort { .. } => inputs.first.rows,
    }
}

/// The inputs with one more, behind so many.
fn with_input(inputs: Inputs, place: usize, input: Estimate) -> Inputs
    ensures { result ≡ spec.with_input inputs place input }
{
    let Inputs {
        first,
        second,
        later,
    } = inputs;
    if place == 0 {
        Inputs {
            first: input,
            second,
            later,
        }
    } else if place == 1 {
        Inputs {
            first,
            second: input,
            later: sum(later, input.cost),
        }
    } else {
        Inputs {
            first,
            second,
            later: sum(later, input.cost),
        }
    }
}

/// What is estimated of a node over inputs.
fn node_estimate(
    statistics: &Statistics,
    log: &Log<'_>,
    cardinalities: &Cardinalities,
    node: &Node,
    inputs: Inputs,
) -> Estimate
    ensures { result ≡ spec.node_estimate statistics.now log.now.instances (rows_at cardinalities.now) log.now.log node.now inputs }
{
    let rows = node_rows(log, cardinalities, node, inputs);
    let cost = node_cost(statistics, log.instances(), node, rows, inputs);
    Estimate { rows, cost }
}

#[cycle(estimates)]
fn plan_estimate(
    statistics: &Statistics,
    log: &Log<'_>,
    cardinalities: &Cardinalities,
    plan: &Plan,
) -> Estimate
    ensures { result ≡ spec.plan_estimate statistics.now log.now.instances (rows_at cardinalities.now) log.now.log plan.now }
{
    let inputs = inputs_of(statistics, log, cardinalities, plan.inputs.as_slice());
    node_estimate(statistics, log, cardinalities, &plan.node, inputs)
}

/// What is estimated of a node's inputs.
#[cycle(estimates)]
fn inputs_of(
    statistics: &Statistics,
    log: &Log<'_>,
    cardinalities: &Cardinalities,
    plans: &[Plan],
) -> Inputs
    ensures { result ≡ spec.with_cut_costs (spec.inputs_of (map (spec.plan_estimate statistics.now log.now.instances (rows_at cardinalities.now) log.now.log) plans.now)) }
{
    let mut inputs = Inputs {
        first: NOTHING,
        second: NOTHING,
        later: 0,
    };
    for (place, plan) in plans.iter().enumerate() {
        let input = plan_estimate(statistics, log, cardinalities, plan);
        inputs = with_input(inputs, place, input);
    }
    inputs
}

/// What a plan over the log's lines costs, in hundredths of a page, by the rows of the log's classes. It allocates nothing.
pub fn cost(
    statistics: &Statistics,
    log: &Log<'_>,
    cardinalities: &Cardinalities,
    plan: &Plan,
) -> u64
    requires { AreRows statistics.now log.now.instances log.now.log cardinalities.now }
    ensures { result ≡ spec.plan_cost statistics.now log.now.instances log.now.log plan.now }
{
    plan_estimate(statistics, log, cardinalities, plan).cost
}

/// Adds the estimates of a plan's nodes, each node before its inputs, and answers that of its root.
#[cycle(all_nodes)]
fn push_estimates(
    statistics: &Statistics,
    log: &Log<'_>,
    cardinalities: &Cardinalities,
    estimates: &mut Vec<Estimate>,
    plan: &Plan,
) -> Result<Estimate, AllocError>
    ensures all { OnOk result (estimates.new.items ≡ estimates.old.items ++ spec.estimates_by statistics.now log.now.instances (rows_at cardinalities.now) log.now.log plan.now) }
    ensures own { IfOk result (λ own. own ≡ spec.plan_estimate statistics.now log.now.instances (rows_at cardinalities.now) log.now.log plan.now) }
{
    let place = estimates.len();
    estimates.push(NOTHING)?;
    let inputs = push_inputs(
        statistics,
        log,
        cardinalities,
        estimates,
        plan.inputs.as_slice(),
    )?;
    let own = node_estimate(statistics, log, cardinalities, &plan.node, inputs);
    estimates[place] = own;
    Ok(own)
}

/// Adds the estimates of the nodes of a node's inputs, and answers what is estimated of the inputs.
#[cycle(all_nodes)]
fn push_inputs(
    statistics: &Statistics,
    log: &Log<'_>,
    cardinalities: &Cardinalities,
    estimates: &mut Vec<Estimate>,
    plans: &[Plan],
) -> Result<Inputs, AllocError>
    ensures all { OnOk result (estimates.new.items ≡ estimates.old.items ++ flat_map (spec.estimates_by statistics.now log.now.instances (rows_at cardinalities.now) log.now.log) plans.now) }
    ensures own { IfOk result (λ inputs. inputs ≡ spec.with_cut_costs (spec.inputs_of (map (spec.plan_estimate statistics.now log.now.instances (rows_at cardinalities.now) log.now.log) plans.now))) }
{
    let mut inputs = Inputs {
        first: NOTHING,
        second: NOTHING,
        later: 0,
    };
    for (place, plan) in plans.iter().enumerate() {
        let input = push_estimates(statistics, log, cardinalities, estimates, plan)?;
        inputs = with_input(inputs, place, input);
    }
    Ok(inputs)
}

/// What is estimated of each node of a plan over the log's lines, by the rows of the log's classes: each node before its inputs. It takes
/// time in proportion to the nodes and what each names, and calls itself as deep as the plan is.
pub fn estimates(
    alloc: Global,
    statistics: &Statistics,
    log: &Log<'_>,
    cardinalities: &Cardinalities,
    plan: &Plan,
) -> Result<Vec<Estimate>, AllocError>
    requires { AreRows statistics.now log.now.instances log.now.log cardinalities.now }
    ensures { IfOk result (λ estimates. estimates.items ≡ spec.plan_estimates statistics.now log.now.instances log.now.log plan.now) }
{
    let mut estimates = Vec::new(alloc);
    push_estimates(statistics, log, cardinalities, &mut estimates, plan)?;
    Ok(estimates)
}
