//! Goals, and the orders that an operator's inputs have at one.

ghost use Rattle.std.specs.Prelude.{◌≡◌, ◌∷◌, ◌++◌, ◌==◌, ◌&&◌, [], filter, map, not, false, IfOk, Some};
ghost use Rattle.std.specs.List.{list_any};
ghost use Rattle.algebra.specs.Columns.{columns_at, rising};
ghost use Rattle.algebra.specs.Expressions.{children};
ghost use Rattle.derivation.specs.Logs.{least};
ghost use Rattle.physical.specs.Indexes.{rising_keys};
ghost use Rattle.physical.specs.Orders as orders;
ghost use Rattle.physical.specs.Outputs.{first_columns};
ghost use Rattle.physical.specs.RequiredOrders as required;
ghost use Rattle.labels.specs.Offers as spec;
ghost use Rattle.labels.specs.Plans.{columns_in};

use crate::goal::Goal;
use algebra::{ClassId, Columns, Expr};
use certificate::join_fit::class_columns;
use certificate::order_fit::{begins_with, rises_by};
use certificate::plan_fit::are_columns;
use logs::Log;
use physical::indexes::index_order;
use physical::{GroupMethod, JoinMethod, Operator, OrderKey};
use query::{ColumnId, TableInstance};
use std::alloc::{AllocError, Global};
use values::Items;

/// Orders of a node's first inputs; the others are wanted in none.
pub(crate) type InputOrders = Items<Items<OrderKey>>;

/// The lines that nodes implement, with the columns of their classes.
#[derive(Clone, Copy)]
pub struct Derived<'a, 'q> {
    pub log: &'a Log<'q>,
    pub columns: &'a [Columns],
}

impl<'a, 'q> Derived<'a, 'q> {
    /// All lines of a log.
    pub fn of(log: &'a Log<'q>) -> Derived<'a, 'q>
        ensures log { result.log.now ≡ log.now }
        ensures columns { columns_at result.columns.now ≡ columns_in log.now.instances log.now.log }
    {
        Derived {
            log,
            columns: log.classes().columns.columns,
        }
    }
}

// ---- goals

/// The class that stands for all that are the same.
fn root(log: &Log<'_>, class: ClassId) -> ClassId
    ensures { result ≡ least log.now.log class }
{
    log.classes().root(class)
}

/// The goal of a class's rows in an order.
pub fn goal_of(
    alloc: Global,
    log: &Log<'_>,
    class: ClassId,
    order: &[OrderKey],
) -> Result<Goal, AllocError>
    ensures { IfOk result (λ goal. goal ≡ spec.goal_of log.now.log class order.now) }
{
    let order = Items::from_slice(alloc, order)?;
    let class = root(log, class);
    Ok(Goal { class, order })
}

#[tactic(auto, using(crate::proofs::Offering::other_length))]
pub(crate) fn same_order(keys: &[OrderKey], others: &[OrderKey]) -> bool
    ensures { result ≡ required.same_order keys.now others.now }
{
    keys.len() == others.len() && begins_with(keys, others)
}

/// Whether two goals are one: of one class, in one order.
pub fn same_goal(goal: &Goal, other: &Goal) -> bool
    ensures { result ≡ spec.same_goal goal.now other.now }
{
    goal.class == other.class && same_order(goal.order.as_slice(), other.order.as_slice())
}

fn has_key_by(keys: &[OrderKey], column: ColumnId) -> bool
    ensures { result ≡ list_any (λ k. k.column == column) keys.now }
{
    keys.iter().any(|key| key.column == column)
}

/// Whether no two keys are of one column.
fn are_different(order: &[OrderKey]) -> bool
    ensures { result ≡ spec.are_different order.now }
{
    let mut rest = order;
    'keys: while let [key, later @ ..] = rest {
        if has_key_by(later, key.column) {
            return false;
        }
        rest = later;
    }
    true
}

/// Whether a goal is of a class that stands for its sames, in an order by different columns of it.
pub fn is_goal(derived: Derived<'_, '_>, goal: &Goal) -> bool
    ensures { result ≡ spec.is_goal derived.entry.log.now.log (columns_at derived.entry.columns.now) goal.now }
{
    let Goal { class, order } = goal;
    let order = order.as_slice();
    derived.log.founds(*class)
        && root(derived.log, *class) == *class
        && are_columns(derived.columns, *class, order)
        && are_different(order)
}

// ---- orders

/// The order, and behind it those of the columns by which it has no key.
fn and_more(
    alloc: Global,
    order: &[OrderKey],
    columns: &[ColumnId],
) -> Result<Items<OrderKey>, AllocError>
    ensures { IfOk result (λ keys. keys ≡ order.now ++ rising_keys (filter (λ c. not (list_any (λ k. k.column == c) order.now)) columns.now)) }
{
    let mut keys = Items::from_slice(alloc, order)?;
    for column in columns {
        if !has_key_by(order, *column) {
            keys.push(rising(*column))?;
        }
    }
    Ok(keys)
}

#[tactic(auto, using(crate::proofs::Offering::others_of_set))]
fn and_others(
    alloc: Global,
    order: &[OrderKey],
    columns: &Columns,
) -> Result<Items<OrderKey>, AllocError>
    ensures { IfOk result (λ keys. keys ≡ spec.and_others order.now columns.now) }
{
    let keys = and_more(alloc, order, columns.as_slice())?;
    Ok(keys)
}

/// The set of the columns of keys.
fn key_columns(alloc: Global, keys: &[OrderKey]) -> Result<Columns, AllocError>
    ensures { IfOk result (λ columns. columns ≡ rising (map (λ k. k.column) keys.now)) }
{
    let mut columns = Vec::new(alloc);
    for key in keys {
        columns.push(key.column)?;
    }
    Ok(Columns::from_vec(columns))
}

/// Whether an order begins with the columns, in whatever order of their own.
fn begins_with_all(alloc: Global, order: &[OrderKey], columns: &Columns) -> Result<bool, AllocError>
    ensures { IfOk result (λ begins. begins ≡ required.begins_with_all columns.now order.now) }
{
    let count = columns.as_slice().len();
    let front = if count < order.len() {
        &order[..count]
    } else {
        order
    };
    let first = key_columns(alloc, front)?;
    Ok(first.same(columns))
}

/// The order, and the others of these columns behind it, of the first input alone, where it is offered and begins with all of them.
fn sorted_by_all(
    alloc: Global,
    is_offered: bool,
    columns: &Columns,
    order: &[OrderKey],
) -> Result<Option<InputOrders>, AllocError>
    ensures { IfOk result (λ orders. orders ≡ spec.where_so (is_offered && required.begins_with_all columns.now (spec.and_others order.now columns.now)) (spec.and_others order.now columns.now ∷ [])) }
{
    if !is_offered {
        return Ok(None);
    }
    let sorted = and_others(alloc, order, columns)?;
    if begins_with_all(alloc, sorted.as_slice(), columns)? {
        first(alloc, sorted)
    } else {
        Ok(None)
    }
}

fn rising(column: ColumnId) -> OrderKey
    ensures { result ≡ record { column = column; descending = false } }
{
    OrderKey {
        column,
        descending: false,
    }
}

/// The order of the first input alone.
fn first(alloc: Global, order: Items<OrderKey>) -> Result<Option<InputOrders>, AllocError>
    ensures { IfOk result (λ orders. orders ≡ Some (order ∷ [])) }
{
    let mut orders = Items::new(alloc);
    orders.push(order)?;
    Ok(Some(orders))
}

/// No order of any input, where an operator is offered.
fn none_where(alloc: Global, is_offered: bool) -> Option<InputOrders>
    ensures { result ≡ spec.where_so is_offered [] }
{
    if is_offered {
        Some(Items::new(alloc))
    } else {
        None
    }
}

/// The orders of both sides of a merge join.
fn both(
    alloc: Global,
    left: Items<OrderKey>,
    right: ColumnId,
) -> Result<Option<InputOrders>, AllocError>
    ensures { IfOk result (λ orders. orders ≡ Some (left ∷ (record { column = right; descending = false } ∷ []) ∷ [])) }
{
    let mut by_right = Items::new(alloc);
    by_right.push(rising(right))?;
    let mut orders = Items::new(alloc);
    orders.push(left)?;
    orders.push(by_right)?;
    Ok(Some(orders))
}

fn merge_orders(
    alloc: Global,
    left: ColumnId,
    right: ColumnId,
    order: &[OrderKey],
) -> Result<Option<InputOrders>, AllocError>
    ensures { IfOk result (λ orders. orders ≡ spec.merge_orders left right order.now) }
{
    if order.is_empty() {
        let mut by_left = Items::new(alloc);
        by_left.push(rising(left))?;
        return both(alloc, by_left, right);
    }
    if rises_by(order, left) {
        both(alloc, Items::from_slice(alloc, order)?, right)
    } else {
        Ok(None)
    }
}

/// The orders of the sides of a join.
fn join_orders(
    alloc: Global,
    method: JoinMethod,
    left: &Columns,
    order: &[OrderKey],
) -> Result<Option<InputOrders>, AllocError>
    ensures { IfOk result (λ orders. orders ≡ spec.join_orders method left.now order.now) }
{
    if !are_among(left, order) {
        return Ok(None);
    }
    match method {
        JoinMethod::NestedLoop | JoinMethod::Hash => first(alloc, Items::from_slice(alloc, order)?),
        JoinMethod::Merge(a, b) => merge_orders(alloc, a, b, order),
    }
}

/// Whether the columns of the keys are among these.
fn are_among(columns: &Columns, keys: &[OrderKey]) -> bool
    ensures { result ≡ orders.are_columns columns.now keys.now }
{
    keys.iter().all(|key| columns.contains(key.column))
}

/// The columns of the first class that an expression takes rows of; none where it takes none.
pub(crate) fn first_columns<'c>(
    derived: Derived<'c, '_>,
    expr: &Expr,
    none: &'c Columns,
) -> &'c Columns
    requires { none.now ≡ [] }
    ensures { result.now ≡ first_columns (map (columns_at derived.entry.columns.now) (children expr.now)) }
{
    match expr {
        Expr::Get(_) => none,
        Expr::Select(_, class)
        | Expr::Join(_, class, _)
        | Expr::LeftJoin(_, class, _)
        | Expr::Semi(_, class, _)
        | Expr::Anti(_, _, class, _)
        | Expr::Keep(_, class)
        | Expr::Distinct(class)
        | Expr::Group(_, _, class) => class_columns(derived.columns, *class, none),
    }
}

fn group_orders(
    alloc: Global,
    method: GroupMethod,
    keys: &Columns,
    order: &[OrderKey],
) -> Result<Option<InputOrders>, AllocError>
    ensures { IfOk result (λ orders. orders ≡ spec.group_orders method keys.now order.now) }
{
    match method {
        GroupMethod::Hash => Ok(none_where(alloc, order.is_empty())),
        GroupMethod::Sorted => sorted_by_all(alloc, are_among(keys, order), keys, order),
    }
}

fn distinct_orders(
    alloc: Global,
    method: GroupMethod,
    columns: &Columns,
    order: &[OrderKey],
) -> Result<Option<InputOrders>, AllocError>
    ensures { IfOk result (λ orders. orders ≡ spec.distinct_orders method columns.now order.now) }
{
    match method {
        GroupMethod::Hash => first(alloc, Items::from_slice(alloc, order)?),
        GroupMethod::Sorted => sorted_by_all(alloc, true, columns, order),
    }
}

/// The orders of an operator's inputs, the first of which have these columns.
pub(crate) fn input_orders(
    alloc: Global,
    instances: &[TableInstance],
    operator: &Operator,
    columns: &Columns,
    order: &[OrderKey],
) -> Result<Option<InputOrders>, AllocError>
    ensures { IfOk result (λ orders. orders ≡ spec.input_orders instances.now operator.now columns.now order.now) }
{
    match operator {
        Operator::Scan { .. } => Ok(none_where(alloc, order.is_empty())),
        Operator::IndexScan { access, .. } => {
            let own = index_order(alloc, instances, *access)?;
            Ok(none_where(alloc, begins_with(own.as_slice(), order)))
        }
        Operator::Filter { .. } | Operator::FilterSubqueries { .. } | Operator::Projection { .. } =>
            first(alloc, Items::from_slice(alloc, order)?),
        Operator::JoinRows { method, .. } => join_orders(alloc, *method, columns, order),
        Operator::IndexJoin { .. } => { join_orders(alloc, JoinMethod::NestedLoop, columns, order) }
        Operator::GroupRows { method, keys, .. } => group_orders(alloc, *method, keys, order),
        Operator::DistinctRows { method } => distinct_orders(alloc, *method, columns, order),
    }
}
