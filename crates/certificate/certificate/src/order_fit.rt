//! The orders that nodes require of their inputs, and a query of its answer.

ghost use Rattle.std.specs.Prelude.{◌≡◌, ◌↔◌, [], IfOk, IsTrue, length, map, take};
ghost use Rattle.algebra.specs.Columns.{columns_at, rising};
ghost use Rattle.physical.specs.EachOrder as each;
ghost use Rattle.physical.specs.Orders as orders;
ghost use Rattle.physical.specs.Outputs as outputs;
ghost use Rattle.physical.specs.RequiredOrders as required;
ghost use Rattle.certificate.specs.QueryOrders as asked;

use crate::join_fit::class_columns;
use crate::order_by::query_order;
use algebra::{ClassId, Columns};
use physical::node_orders::Delivered;
use physical::{GroupMethod, JoinMethod, Node, Operator, OrderKey};
use query::{ColumnId, Query};
use std::alloc::{AllocError, Global};

/// Whether the order that a plan delivers begins with the ORDER BY.
pub fn is_delivered(alloc: Global, query: &Query, order: &[OrderKey]) -> Result<bool, AllocError>
    ensures { IfOk result (λ b. b ≡ required.begins_with order.now (asked.query_order query.now)) }
{
    let wanted = query_order(alloc, query)?;
    Ok(begins_with(order, wanted.as_slice()))
}

/// Whether an order begins with another.
pub fn begins_with(order: &[OrderKey], wanted: &[OrderKey]) -> bool
    ensures { result ≡ required.same_order (take (length wanted.now) order.now) wanted.now }
{
    match order.get(..wanted.len()) {
        Some(front) => are_same(front, wanted),
        None => false,
    }
}

fn are_same(keys: &[OrderKey], others: &[OrderKey]) -> bool
    ensures { IsTrue result ↔ (keys.now ≡ others.now) }
{
    if keys.len() != others.len() {
        return false;
    }
    for i in 0..keys.len() {
        if keys[i] != others[i] {
            return false;
        }
    }
    true
}

/// Whether an order begins with the column, rising.
pub fn rises_by(order: &[OrderKey], column: ColumnId) -> bool
    ensures { result ≡ required.rises_by column order.now }
{
    begins_with(
        order,
        &[OrderKey {
            column,
            descending: false,
        }],
    )
}

/// The first keys, so many, or all where there are fewer.
fn front_of(order: &[OrderKey], count: usize) -> &[OrderKey]
    ensures { result.now ≡ take count order.now }
{
    if count < order.len() {
        &order[..count]
    } else {
        order
    }
}

/// The set of the columns of keys.
fn key_columns(alloc: Global, keys: &[OrderKey]) -> Result<Columns, AllocError>
    ensures { IfOk result (λ columns. columns ≡ rising (map (λ k. k.column) keys.now)) }
{
    let mut columns = Vec::new(alloc);
    for key in keys {
        columns.push(key.column)?;
    }
    Ok(Columns::from_vec(columns))
}

/// Whether an order begins with the columns, in whatever order of their own.
fn begins_with_all(alloc: Global, order: &[OrderKey], columns: &Columns) -> Result<bool, AllocError>
    ensures { IfOk result (λ r. r ≡ required.begins_with_all columns.now order.now) }
{
    let front = front_of(order, columns.as_slice().len());
    let first = key_columns(alloc, front)?;
    Ok(first.same(columns))
}

/// The order that the first of some plans delivers.
fn first_order<'d>(inputs: &'d [Delivered]) -> &'d [OrderKey]
    ensures { result.now ≡ orders.first_order (map each.order_of inputs.now) }
{
    match inputs {
        [] => &[],
        [first, ..] => first.order.as_slice(),
    }
}

/// The order that the second of some plans delivers.
fn second_order<'d>(inputs: &'d [Delivered]) -> &'d [OrderKey]
    ensures { result.now ≡ required.second_order (map each.order_of inputs.now) }
{
    match inputs {
        [] => &[],
        [_, rest @ ..] => first_order(rest),
    }
}

/// The columns of the first of some classes; none where there is none.
fn first_class_columns<'c>(
    columns: &'c [Columns],
    classes: &[ClassId],
    none: &'c Columns,
) -> &'c Columns
    requires { none.now ≡ [] }
    ensures { result.now ≡ outputs.first_columns (map (columns_at columns.now) classes.now) }
{
    match classes {
        [] => none,
        [first, ..] => class_columns(columns, *first, none),
    }
}

/// Whether the inputs, of these classes, deliver the orders that the operator needs.
fn are_sorted(
    alloc: Global,
    columns: &[Columns],
    operator: &Operator,
    classes: &[ClassId],
    inputs: &[Delivered],
) -> Result<bool, AllocError>
    ensures { IfOk result (λ r. r ≡ required.are_sorted operator.now (map (columns_at columns.now) classes.now) (map each.order_of inputs.now)) }
{
    match operator {
        Operator::JoinRows { method, .. } => match method {
            JoinMethod::Merge(a, b) => {
                Ok(rises_by(first_order(inputs), *a) && rises_by(second_order(inputs), *b))
            }
            JoinMethod::NestedLoop | JoinMethod::Hash => Ok(true),
        },
        Operator::GroupRows { method, keys, .. } => match method {
            GroupMethod::Sorted => { begins_with_all(alloc, first_order(inputs), keys) }
            GroupMethod::Hash => Ok(true),
        },
        Operator::DistinctRows { method } => match method {
            GroupMethod::Sorted => {
                let none = Columns::from_vec(Vec::new(alloc));
                let own = first_class_columns(columns, classes, &none);
                begins_with_all(alloc, first_order(inputs), own)
            }
            GroupMethod::Hash => Ok(true),
        },
        Operator::Scan { .. }
        | Operator::IndexScan { .. }
        | Operator::Filter { .. }
        | Operator::FilterSubqueries { .. }
        | Operator::Projection { .. }
        | Operator::IndexJoin { .. } => Ok(true),
    }
}

/// Whether the inputs, of these classes, deliver the orders that the node needs.
pub fn inputs_sorted(
    alloc: Global,
    columns: &[Columns],
    node: &Node,
    classes: &[ClassId],
    inputs: &[Delivered],
) -> Result<bool, AllocError>
    ensures { IfOk result (λ r. r ≡ required.inputs_sorted node.now (map (columns_at columns.now) classes.now) (map each.order_of inputs.now)) }
{
    match node {
        Node::Implements { operator, .. } => are_sorted(alloc, columns, operator, classes, inputs),
        Node::Sort { .. } => Ok(true),
    }
}
