//! Where a node is offered, and the goals of its inputs.

ghost use Rattle.std.specs.Prelude.{◌≡◌, ◌∷◌, ◌&&◌, [], map, not, option_map, slice_index_or, true, IfOk};
ghost use Rattle.algebra.specs.Columns.{columns_at};
ghost use Rattle.algebra.specs.Expressions.{children};
ghost use Rattle.physical.specs.Outputs.{first_columns};
ghost use Rattle.physical.specs.RequiredOrders as required;
ghost use Rattle.certificate.specs.Replay as replay;
ghost use Rattle.labels.specs.Nodes as nodes;
ghost use Rattle.labels.specs.Offers as spec;

use crate::goal::Goal;
use crate::offers::{Derived, first_columns, goal_of, input_orders, same_order};
use algebra::{ClassId, Columns, Expr, LineId};
use certificate::index_fit::index_fits;
use certificate::needed::needed_classes;
use certificate::plan_fit::implements;
use logs::Log;
use physical::{Node, Operator, OrderKey};
use std::alloc::{AllocError, Global};
use values::Items;

/// The order at a place; none behind the last.
fn order_at(orders: &[Items<OrderKey>], place: usize) -> &[OrderKey]
    ensures { result.now ≡ slice_index_or orders.now place [] }
{
    match orders.get(place) {
        Some(order) => order.as_slice(),
        None => &[],
    }
}

/// Goals of the classes in these orders, and of those behind them in any.
fn goals_of(
    alloc: Global,
    log: &Log<'_>,
    classes: &[ClassId],
    orders: &[Items<OrderKey>],
) -> Result<Items<Goal>, AllocError>
    ensures { IfOk result (λ goals. goals ≡ spec.goals_of log.now.log classes.now orders.now) }
{
    let mut goals = Items::new(alloc);
    for (place, class) in classes.iter().enumerate() {
        goals.push(goal_of(alloc, log, *class, order_at(orders, place))?)?;
    }
    Ok(goals)
}

/// Whether an operator of a line with the expression computes it.
pub(crate) fn fits(
    alloc: Global,
    derived: Derived<'_, '_>,
    line: LineId,
    operator: &Operator,
    expr: &Expr,
) -> Result<bool, AllocError>
    ensures { IfOk result (λ r. r ≡ nodes.fits derived.entry.log.now.instances derived.entry.log.now.log (columns_at derived.entry.columns.now) line operator.now expr.now) }
{
    if !implements(alloc, derived.columns, operator, expr)? {
        return Ok(false);
    }
    index_fits(alloc, derived.log, line, operator, expr)
}

/// Whether a node's operator computes the expression of its line; a sort has none.
fn node_fits(alloc: Global, derived: Derived<'_, '_>, node: &Node) -> Result<bool, AllocError>
    ensures { IfOk result (λ r. r ≡ nodes.node_fits derived.entry.log.now.instances derived.entry.log.now.log (columns_at derived.entry.columns.now) node.now) }
{
    match node {
        Node::Implements { line, operator } => match derived.log.member(*line) {
            Some(member) => fits(alloc, derived, *line, operator, member.expr),
            None => Ok(false),
        },
        Node::Sort { .. } => Ok(true),
    }
}

/// The goals of the inputs of an operator that computes the expression, where it can give the order.
fn operator_goals(
    alloc: Global,
    derived: Derived<'_, '_>,
    order: &[OrderKey],
    operator: &Operator,
    expr: &Expr,
) -> Result<Option<Items<Goal>>, AllocError>
    ensures { IfOk result (λ goals. goals ≡ option_map (spec.goals_of derived.entry.log.now.log (replay.needed_classes operator.now expr.now)) (spec.input_orders derived.entry.log.now.instances operator.now (first_columns (map (columns_at derived.entry.columns.now) (children expr.now))) order.now)) }
{
    let none = Columns::from_vec(Vec::new(alloc));
    let columns = first_columns(derived, expr, &none);
    let instances = derived.log.instances();
    let Some(orders) = input_orders(alloc, instances, operator, columns, order)? else {
        return Ok(None);
    };
    let classes = needed_classes(alloc, operator, expr)?;
    let goals = goals_of(alloc, derived.log, classes.as_slice(), orders.as_slice())?;
    Ok(Some(goals))
}

/// The goals of a sort's only input, where it is offered at the goal.
fn sort_goals(
    alloc: Global,
    log: &Log<'_>,
    goal: &Goal,
    keys: &[OrderKey],
) -> Result<Option<Items<Goal>>, AllocError>
    ensures { IfOk result (λ goals. goals ≡ spec.where_so (not (spec.is_any goal.now.order) && required.same_order keys.now goal.now.order) (spec.goal_of log.now.log goal.now.class [] ∷ [])) }
{
    let order = goal.order.as_slice();
    if order.is_empty() || !same_order(keys, order) {
        return Ok(None);
    }
    let mut goals = Items::new(alloc);
    goals.push(goal_of(alloc, log, goal.class, &[])?)?;
    Ok(Some(goals))
}

/// The goals of the inputs of a node that is known to fit its line, where it is offered at the goal. Whether it fits isn't asked again.
pub fn fitting_goals(
    alloc: Global,
    derived: Derived<'_, '_>,
    goal: &Goal,
    node: &Node,
) -> Result<Option<Items<Goal>>, AllocError>
    requires { nodes.node_fits derived.log.now.instances derived.log.now.log (columns_at derived.columns.now) node.now ≡ true }
    ensures { IfOk result (λ goals. goals ≡ spec.input_goals derived.entry.log.now.instances derived.entry.log.now.log (columns_at derived.entry.columns.now) goal.now node.now) }
{
    match node {
        Node::Implements { line, operator } => {
            let Some(member) = derived.log.member(*line) else {
                return Ok(None);
            };
            if !derived.log.are_same(member.class, goal.class) {
                return Ok(None);
            }
            operator_goals(alloc, derived, goal.order.as_slice(), operator, member.expr)
        }
        Node::Sort { keys } => sort_goals(alloc, derived.log, goal, keys.as_slice()),
    }
}

/// The goals of a node's inputs, where it is offered at the goal; none where it isn't.
pub fn input_goals(
    alloc: Global,
    derived: Derived<'_, '_>,
    goal: &Goal,
    node: &Node,
) -> Result<Option<Items<Goal>>, AllocError>
    ensures { IfOk result (λ goals. goals ≡ spec.input_goals derived.entry.log.now.instances derived.entry.log.now.log (columns_at derived.entry.columns.now) goal.now node.now) }
{
    if !node_fits(alloc, derived, node)? {
        return Ok(None);
    }
    fitting_goals(alloc, derived, goal, node)
}
