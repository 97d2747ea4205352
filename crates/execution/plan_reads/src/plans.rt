//! What a plan reads, from its leaves up.

ghost use Rattle.std.specs.Prelude.{◌≡◌, ℕ, List, drop, map, IfOk};
ghost use Rattle.query.specs.Rows.{Tables};
ghost use Rattle.algebra.specs.Bags.{Bag, select};
ghost use Rattle.algebra.specs.Columns.{has};
ghost use Rattle.algebra.specs.Conditions.{classes_in, holds};
ghost use Rattle.laws.specs.Fitting.{Fits};
ghost use Rattle.physical.specs.Indexes as spec;
ghost use Rattle.physical.specs.Indexes.{accessed_columns, accessed_rows};
ghost use Rattle.physical.specs.Outputs.{Output, node_columns, node_rows, no_classes, operator_columns, operator_rows, output_rows, plan_output, rest, subquery_rows};
ghost use Rattle.physical.specs.Sorts as sorts;
ghost use Rattle.plan_reads.specs.Readings.{AreReadings, IsReading};

use crate::conditions::Subqueries;
use crate::operators::{filtered, filtered_over, grouped, joined, projected, sorted};
use crate::readings::{Reading, input_reading};
use algebra::{Columns, Conjuncts};
use physical::indexes::index_order;
use physical::{IndexAccess, Node, Operator, Plan};
use query::TableInstance;
use std::alloc::{AllocError, Global};

/// Columns of the environment: where two environments read the same in them, the plan's rows are the same, each laid over its
/// environment.
pub fn free_columns(
    alloc: Global,
    instances: &[TableInstance],
    plan: &Plan,
) -> Result<Columns, AllocError>
    ensures { (D : Tables) → IfOk result (λ free. Fits (has (plan_output instances.now D plan.now).columns) (has free) (output_rows instances.now D plan.now)) }
{
    Ok(plan_reading(alloc, instances, plan)?.free)
}

/// The columns of a plan's rows, which no table says: a plan that isn't run has them too.
pub fn plan_columns(
    alloc: Global,
    instances: &[TableInstance],
    plan: &Plan,
) -> Result<Columns, AllocError>
    ensures { (D : Tables) → IfOk result (λ columns. columns ≡ (plan_output instances.now D plan.now).columns) }
{
    Ok(plan_reading(alloc, instances, plan)?.columns)
}

#[cycle(readings)]
fn plan_reading(
    alloc: Global,
    instances: &[TableInstance],
    plan: &Plan,
) -> Result<Reading, AllocError>
    ensures { (D : Tables) → IfOk result (IsReading (plan_output instances.now D plan.now).columns (output_rows instances.now D plan.now)) }
{
    let inputs = plan_readings(alloc, instances, plan.inputs.as_slice())?;
    node_reading(alloc, instances, &plan.node, inputs.as_slice())
}

#[cycle(readings)]
fn plan_readings(
    alloc: Global,
    instances: &[TableInstance],
    plans: &[Plan],
) -> Result<Vec<Reading>, AllocError>
    ensures { (D : Tables) → IfOk result (λ readings. AreReadings (map (plan_output instances.now D) plans.now) readings.items) }
{
    let mut readings = Vec::with_capacity(alloc, plans.len())?;
    for plan in plans {
        readings.push(plan_reading(alloc, instances, plan)?)?;
    }
    Ok(readings)
}

/// What a node's rows read, given what those of its inputs do.
fn node_reading(
    alloc: Global,
    instances: &[TableInstance],
    node: &Node,
    inputs: &[Reading],
) -> Result<Reading, AllocError>
    ensures { (D : Tables) (all : List Output) → AreReadings all inputs.now → IfOk result (IsReading (node_columns instances.now node.now (map (λ x. x.columns) all)) (node_rows instances.now D node.now all)) }
{
    match node {
        Node::Implements { operator, .. } => operator_reading(alloc, instances, operator, inputs),
        Node::Sort { keys } => {
            let input = input_reading(alloc, inputs, 0)?;
            sorted(alloc, input, keys.as_slice())
        }
    }
}

fn operator_reading(
    alloc: Global,
    instances: &[TableInstance],
    operator: &Operator,
    inputs: &[Reading],
) -> Result<Reading, AllocError>
    ensures { (D : Tables) (all : List Output) → AreReadings all inputs.now → IfOk result (IsReading (operator_columns instances.now operator.now (map (λ x. x.columns) all)) (operator_rows instances.now D operator.now all)) }
{
    let input = input_reading(alloc, inputs, 0)?;
    match operator {
        Operator::Scan { instance } => Reading::of_instance(alloc, instances, *instance),
        Operator::IndexScan { access, conjuncts } => {
            index_scanned(alloc, instances, *access, conjuncts)
        }
        Operator::Filter { conjuncts } => { filtered(alloc, input, conjuncts.as_slice()) }
        Operator::FilterSubqueries { conjuncts } => {
            filtered_by_subqueries(alloc, input, conjuncts, inputs)
        }
        Operator::Projection { columns } => projected(alloc, input, columns),
        Operator::JoinRows { matching, .. } => {
            let right = input_reading(alloc, inputs, 1)?;
            joined(alloc, &input, &right, matching)
        }
        Operator::IndexJoin { access, matching } => {
            let right = Reading::of_instance(alloc, instances, access.instance)?;
            joined(alloc, &input, &right, matching)
        }
        Operator::GroupRows { keys, added, .. } => grouped(alloc, input, keys, added.as_slice()),
        Operator::DistinctRows { .. } => Ok(input),
    }
}

/// The rows of a table instance at which all conjuncts are true, in the order of an index.
fn index_scanned(
    alloc: Global,
    instances: &[TableInstance],
    access: IndexAccess,
    conjuncts: &Conjuncts,
) -> Result<Reading, AllocError>
    ensures { (D : Tables) → IfOk result (IsReading (accessed_columns instances.now access) (λ e. sorts.sorted (sorts.keys_order (spec.index_order instances.now access)) (select (holds no_classes conjuncts.now) (accessed_rows instances.now D access) e))) }
{
    let table = Reading::of_instance(alloc, instances, access.instance)?;
    let kept = filtered(alloc, table, conjuncts.as_slice())?;
    let order = index_order(alloc, instances, access)?;
    sorted(alloc, kept, order.as_slice())
}

/// What is known of the inputs behind the first.
fn behind_first(inputs: &[Reading]) -> &[Reading]
    ensures { result.now ≡ drop 1 inputs.entry.now }
{
    match inputs {
        [_, rest @ ..] => rest,
        [] => inputs,
    }
}

/// The rows of the first input at which all conjuncts are true, the other inputs being the classes that they name.
fn filtered_by_subqueries(
    alloc: Global,
    input: Reading,
    conjuncts: &Conjuncts,
    inputs: &[Reading],
) -> Result<Reading, AllocError>
    ensures { (K : List ℕ) (x : Bag) (all : List Output) → IsReading K x input → AreReadings all inputs.now → IfOk result (IsReading K (select (holds (subquery_rows (classes_in conjuncts.now) (rest all)) conjuncts.now) x)) }
{
    let classes = conjuncts.classes(alloc)?;
    let subqueries = Subqueries {
        classes: classes.as_slice(),
        readings: behind_first(inputs),
    };
    filtered_over(alloc, input, conjuncts.as_slice(), subqueries)
}
