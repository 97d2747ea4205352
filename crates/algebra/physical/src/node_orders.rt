//! The orders that a plan's nodes deliver, each made once.

ghost use Rattle.std.specs.Prelude.{◌≡◌, map, IfOk};
ghost use Rattle.physical.specs.EachOrder as spec;
ghost use Rattle.physical.specs.Orders as orders;

use crate::indexes::index_order;
use crate::order::front;
use crate::plan::{GroupMethod, Node, Operator, OrderKey, Plan};
use query::TableInstance;
use std::alloc::{AllocError, Global};
use values::Items;

/// The order that a plan delivers, and those of its inputs in the same form.
#[derive(Drop)]
pub struct Delivered {
    pub order: Items<OrderKey>,
    pub inputs: Items<Delivered>,
}

/// The order of the first input.
fn first_order(alloc: Global, inputs: &[Delivered]) -> Result<Vec<OrderKey>, AllocError>
    ensures { IfOk result (λ order. order.items ≡ orders.first_order (map spec.order_of inputs.now)) }
{
    let mut order = Vec::new(alloc);
    if let Some(input) = inputs.first() {
        order.extend_from_slice(input.order.as_slice())?;
    }
    Ok(order)
}

/// The order that an operator delivers.
fn operator_order(
    alloc: Global,
    instances: &[TableInstance],
    operator: &Operator,
    inputs: &[Delivered],
) -> Result<Vec<OrderKey>, AllocError>
    ensures { IfOk result (λ order. order.items ≡ orders.operator_order instances.now operator.now (map spec.order_of inputs.now)) }
{
    match operator {
        Operator::Scan { .. } => Ok(Vec::new(alloc)),
        Operator::IndexScan { access, .. } => index_order(alloc, instances, *access),
        Operator::Filter { .. } => first_order(alloc, inputs),
        Operator::FilterSubqueries { .. } => first_order(alloc, inputs),
        Operator::Projection { columns } => {
            let order = first_order(alloc, inputs)?;
            front(alloc, order.as_slice(), columns)
        }
        Operator::JoinRows { .. } => first_order(alloc, inputs),
        Operator::IndexJoin { .. } => first_order(alloc, inputs),
        Operator::GroupRows { method, keys, .. } => match method {
            GroupMethod::Hash => Ok(Vec::new(alloc)),
            GroupMethod::Sorted => {
                let order = first_order(alloc, inputs)?;
                front(alloc, order.as_slice(), keys)
            }
        },
        Operator::DistinctRows { .. } => first_order(alloc, inputs),
    }
}

/// The order that a node delivers.
fn node_order(
    alloc: Global,
    instances: &[TableInstance],
    node: &Node,
    inputs: &[Delivered],
) -> Result<Items<OrderKey>, AllocError>
    ensures { IfOk result (λ order. order ≡ orders.node_order instances.now node.now (map spec.order_of inputs.now)) }
{
    match node {
        Node::Implements { operator, .. } => {
            let order = operator_order(alloc, instances, operator, inputs)?;
            Ok(Items::from_vec(order))
        }
        Node::Sort { keys } => Items::from_slice(alloc, keys.as_slice()),
    }
}

/// The orders that a plan's nodes deliver.
pub fn each_order(
    alloc: Global,
    instances: &[TableInstance],
    plan: &Plan,
) -> Result<Delivered, AllocError>
    ensures { IfOk result (λ delivered. delivered ≡ spec.each_order instances.now plan.now) }
{
    let mut inputs = Items::new(alloc);
    for input in plan.inputs.as_slice() {
        inputs.push(each_order(alloc, instances, input)?)?;
    }
    let order = node_order(alloc, instances, &plan.node, inputs.as_slice())?;
    Ok(Delivered { order, inputs })
}
