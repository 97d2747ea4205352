//! What a node of a plan costs over its inputs.

ghost use Rattle.std.specs.Prelude.{◌≡◌, slice_get, option_map};
ghost use Rattle.costs.specs.Costs as spec;
ghost use Rattle.costs.specs.Numbers.{cut};

use crate::condition_shares::share_of_key;
use crate::index_conjuncts::{are_equated, bounds_selectivity};
use crate::numbers::{binary_digits, cut, per_million_of_both, sum, with_each};
use crate::tables::{index_pages_of, index_places, is_unique, keys_of, pages_of, rows_of};
use algebra::Condition;
use physical::{GroupMethod, IndexAccess, JoinMethod, Node, Operator};
use query::TableInstance;
use statistics::Statistics;

/// One row by a unique index.
const ONE_ROW: u64 = 210;

/// What is estimated of a plan.
#[derive(Clone, Copy)]
pub struct Estimate {
    /// How many rows it gives.
    pub rows: u64,
    /// In hundredths of a page.
    pub cost: u64,
}

/// What is estimated of a node's inputs. One that is missing counts 0.
#[derive(Clone, Copy)]
pub struct Inputs {
    pub first: Estimate,
    pub second: Estimate,
    /// What all behind the first cost together.
    pub later: u64,
}

/// The cost of all rows of a table instance.
#[tactic(auto, unfolding(crate::specs::Numbers::cut))]
pub fn scan_cost(statistics: &Statistics, instances: &[TableInstance], instance: u32) -> u64
    ensures { result ≡ cut (spec.of_instance (spec.scan_cost statistics.now) (slice_get instances.now instance)) }
{
    match instances.get(instance as usize) {
        Some(instance) => {
            let pages = u128::from(pages_of(statistics, instance));
            let rows = u128::from(rows_of(statistics, instance));
            cut(100 * pages + 10 * rows)
        }
        None => 0,
    }
}

/// The cost of an index scan of a table instance, which gives so many rows.
#[tactic(auto, using(crate::proofs::Cuts::cut_one_row))]
pub fn instance_scan_cost(
    statistics: &Statistics,
    instances: &[TableInstance],
    instance: &TableInstance,
    index: u32,
    conditions: &[Condition],
    rows: u64,
) -> u64
    ensures { result ≡ cut (spec.index_scan_cost statistics.now instances.now index conditions.now rows instance.now) }
{
    let places = index_places(instance, index);
    if is_unique(instance, places) && are_equated(instance, conditions, places) {
        return ONE_ROW;
    }
    let share = bounds_selectivity(statistics, instances, instance, conditions, places);
    let index_pages = index_pages_of(statistics, instance, index as usize);
    let pages = per_million_of_both(index_pages, rows_of(statistics, instance), share);
    cut(100 * pages + 10 * u128::from(rows))
}

#[tactic(auto, unfolding(crate::specs::Numbers::cut))]
fn index_scan_cost(
    statistics: &Statistics,
    instances: &[TableInstance],
    access: IndexAccess,
    conditions: &[Condition],
    rows: u64,
) -> u64
    ensures { result ≡ cut (spec.of_instance (spec.index_scan_cost statistics.now instances.now access.index conditions.now rows) (slice_get instances.now access.instance)) }
{
    match instances.get(access.instance as usize) {
        Some(instance) => {
            instance_scan_cost(
                statistics,
                instances,
                instance,
                access.index,
                conditions,
                rows,
            )
        }
        None => 0,
    }
}

/// The cost of finding the matches of one row by an index of a table instance.
#[tactic(auto, using(crate::proofs::Cuts::cut_one_row))]
pub fn instance_probe_cost(statistics: &Statistics, instance: &TableInstance, index: u32) -> u64
    ensures { result ≡ cut (spec.probe_cost statistics.now index instance.now) }
{
    if is_unique(instance, index_places(instance, index)) {
        return ONE_ROW;
    }
    let keys = keys_of(statistics, instance, index as usize);
    let share = share_of_key(Some(keys));
    let index_pages = index_pages_of(statistics, instance, index as usize);
    let rows = rows_of(statistics, instance);
    let pages = per_million_of_both(index_pages, rows, share);
    let found = per_million_of_both(0, rows, share);
    cut(100 * pages + 10 * found)
}

#[tactic(auto, unfolding(crate::specs::Numbers::cut))]
fn probe_cost(statistics: &Statistics, instances: &[TableInstance], access: IndexAccess) -> u64
    ensures { result ≡ cut (spec.of_instance (spec.probe_cost statistics.now access.index) (slice_get instances.now access.instance)) }
{
    match instances.get(access.instance as usize) {
        Some(instance) => instance_probe_cost(statistics, instance, access.index),
        None => 0,
    }
}

/// The cost of a join over its inputs.
pub fn join_cost(method: JoinMethod, inputs: Inputs) -> u64
    ensures { result ≡ cut (spec.join_cost method inputs) }
{
    let Inputs { first, second, .. } = inputs;
    match method {
        JoinMethod::NestedLoop => with_each(first.cost, first.rows, second.cost),
        JoinMethod::Hash => {
            let both = u128::from(first.cost) + u128::from(second.cost);
            cut(both + u128::from(first.rows) + 2 * u128::from(second.rows))
        }
        JoinMethod::Merge(_, _) => {
            let both = u128::from(first.cost) + u128::from(second.cost);
            cut(both + u128::from(first.rows) + u128::from(second.rows))
        }
    }
}

/// The cost of a group or a distinct.
fn group_cost(method: GroupMethod, inputs: Inputs) -> u64
    ensures { result ≡ cut (spec.group_cost method inputs) }
{
    let input = inputs.first;
    match method {
        GroupMethod::Hash => cut(u128::from(input.cost) + 2 * u128::from(input.rows)),
        GroupMethod::Sorted => sum(input.cost, input.rows),
    }
}

/// The cost of an operator that gives so many rows.
fn operator_cost(
    statistics: &Statistics,
    instances: &[TableInstance],
    operator: &Operator,
    rows: u64,
    inputs: Inputs,
) -> u64
    ensures { result ≡ cut (spec.operator_cost statistics.now instances.now operator.now rows inputs) }
{
    let first = inputs.first;
    match operator {
        Operator::Scan { instance } => scan_cost(statistics, instances, *instance),
        Operator::IndexScan { access, conjuncts } => {
            index_scan_cost(statistics, instances, *access, conjuncts.as_slice(), rows)
        }
        Operator::Filter { .. } => sum(first.cost, first.rows),
        Operator::FilterSubqueries { .. } => {
            with_each(first.cost, first.rows, sum(1, inputs.later))
        }
        Operator::Projection { .. } => sum(first.cost, 1),
        Operator::JoinRows { method, .. } => join_cost(*method, inputs),
        Operator::IndexJoin { access, .. } => {
            with_each(
                first.cost,
                first.rows,
                probe_cost(statistics, instances, *access),
            )
        }
        Operator::GroupRows { method, .. } => group_cost(*method, inputs),
        Operator::DistinctRows { method } => group_cost(*method, inputs),
    }
}

/// The cost of a node that gives so many rows, in hundredths of a page. A search may ask for it at each offer: it allocates nothing.
pub fn node_cost(
    statistics: &Statistics,
    instances: &[TableInstance],
    node: &Node,
    rows: u64,
    inputs: Inputs,
) -> u64
    ensures { result ≡ spec.node_cost statistics.now instances.now node.now rows inputs }
{
    match node {
        Node::Implements { operator, .. } => {
            operator_cost(statistics, instances, operator, rows, inputs)
        }
        Node::Sort { .. } => {
            let first = inputs.first;
            with_each(first.cost, first.rows, binary_digits(first.rows))
        }
    }
}
