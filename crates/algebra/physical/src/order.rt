//! The order that a plan delivers.

ghost use Rattle.std.specs.Prelude.{◌≡◌, map, IfOk};
ghost use Rattle.algebra.specs.Columns.{has};
ghost use Rattle.physical.specs.Orders as spec;

use crate::indexes::index_order;
use crate::plan::{GroupMethod, Node, Operator, OrderKey, Plan};
use algebra::Columns;
use query::TableInstance;
use std::alloc::{AllocError, Global};

/// The keys before the first one whose column isn't in the set.
pub fn front(
    alloc: Global,
    order: &[OrderKey],
    columns: &Columns,
) -> Result<Vec<OrderKey>, AllocError>
    ensures { IfOk result (λ keys. keys.items ≡ spec.front (has columns.now) order.now) }
{
    let mut keys = Vec::new(alloc);
    for key in order {
        if !columns.contains(key.column) {
            return Ok(keys);
        }
        keys.push(*key)?;
    }
    Ok(keys)
}

/// The order that a plan over these table instances delivers.
#[cycle(orders)]
pub fn delivers(
    alloc: Global,
    instances: &[TableInstance],
    plan: &Plan,
) -> Result<Vec<OrderKey>, AllocError>
    ensures { IfOk result (λ order. order.items ≡ spec.plan_order instances.now plan.now) }
{
    let inputs = plan.inputs.as_slice();
    match &plan.node {
        Node::Implements { operator, .. } => operator_order(alloc, instances, operator, inputs),
        Node::Sort { keys } => {
            let mut order = Vec::new(alloc);
            order.extend_from_slice(keys.as_slice())?;
            Ok(order)
        }
    }
}

/// The order that an operator delivers.
#[cycle(orders)]
fn operator_order(
    alloc: Global,
    instances: &[TableInstance],
    operator: &Operator,
    inputs: &[Plan],
) -> Result<Vec<OrderKey>, AllocError>
    ensures { IfOk result (λ order. order.items ≡ spec.operator_order instances.now operator.now (map (spec.plan_order instances.now) inputs.now)) }
{
    match operator {
        Operator::Scan { .. } => Ok(Vec::new(alloc)),
        Operator::IndexScan { access, .. } => index_order(alloc, instances, *access),
        Operator::Filter { .. } => first_order(alloc, instances, inputs),
        Operator::FilterSubqueries { .. } => first_order(alloc, instances, inputs),
        Operator::Projection { columns } => {
            let order = first_order(alloc, instances, inputs)?;
            front(alloc, order.as_slice(), columns)
        }
        Operator::JoinRows { .. } => first_order(alloc, instances, inputs),
        Operator::IndexJoin { .. } => first_order(alloc, instances, inputs),
        Operator::GroupRows { method, keys, .. } => match method {
            GroupMethod::Hash => Ok(Vec::new(alloc)),
            GroupMethod::Sorted => {
                let order = first_order(alloc, instances, inputs)?;
                front(alloc, order.as_slice(), keys)
            }
        },
        Operator::DistinctRows { .. } => first_order(alloc, instances, inputs),
    }
}

/// The order of the first input.
#[cycle(orders)]
fn first_order(
    alloc: Global,
    instances: &[TableInstance],
    inputs: &[Plan],
) -> Result<Vec<OrderKey>, AllocError>
    ensures { IfOk result (λ order. order.items ≡ spec.first_order (map (spec.plan_order instances.now) inputs.now)) }
{
    match inputs.first() {
        Some(plan) => delivers(alloc, instances, plan),
        None => Ok(Vec::new(alloc)),
    }
}
