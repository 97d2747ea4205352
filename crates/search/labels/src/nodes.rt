//! The nodes that implement a line: each operator that may compute its expression, where it does.

ghost use Rattle.std.specs.Prelude.{◌≡◌, ◌&&◌, ◌||◌, ◌==◌, [], not, true, OnOk, IfOk};
ghost use Rattle.std.specs.List.{list_all};
ghost use Rattle.algebra.specs.Columns.{columns_at};
ghost use Rattle.algebra.specs.Equated.{equated};
ghost use Rattle.algebra.specs.declared.expr.Expr.TheVariants as expr;
ghost use Rattle.physical.specs.declared.plan.GroupMethod.TheVariants as group;
ghost use Rattle.physical.specs.declared.plan.Matching.TheVariants.{Inner};
ghost use Rattle.physical.specs.declared.plan.Operator.TheVariants.{IndexScan, IndexJoin, JoinRows, GroupRows, DistinctRows};
ghost use Rattle.certificate.specs.Replay as replay;
ghost use Rattle.labels.specs.Candidates as candidates;
ghost use Rattle.labels.specs.Nodes as spec;

use crate::inputs::fits;
use crate::offers::Derived;
use algebra::{Aggregations, ClassId, Columns, Condition, Conjuncts, Expr, LineId};
use certificate::index_fit::accesses;
use physical::{GroupMethod, IndexAccess, JoinMethod, Matching, Node, Operator};
use query::{ColumnId, InstanceId};
use std::alloc::{AllocError, Global};

/// A line with its expression, and by what its nodes are judged.
#[derive(Clone, Copy)]
pub(crate) struct Implemented<'a, 'q> {
    pub derived: Derived<'a, 'q>,
    pub accesses: &'a [IndexAccess],
    pub line: LineId,
    pub expr: &'a Expr,
}

/// Adds the node by an operator, where that computes the line's expression.
fn push_fitting(
    alloc: Global,
    of: Implemented<'_, '_>,
    operator: Operator,
    nodes: &mut Vec<Node>,
) -> Result<(), AllocError>
    ensures { OnOk result (spec.Adds nodes.old.items nodes.new.items (λ p. spec.holds_if_fit of.entry p operator)) }
{
    let Implemented { derived, line, .. } = of;
    if !fits(alloc, derived, line, &operator, of.expr)? {
        return Ok(());
    }
    nodes.push(Node::Implements { line, operator })?;
    Ok(())
}

// ---- scans

/// Adds the scan by an index of the line's own table instance.
fn push_own_scan(
    alloc: Global,
    of: Implemented<'_, '_>,
    access: IndexAccess,
    nodes: &mut Vec<Node>,
) -> Result<(), AllocError>
    ensures { OnOk result (spec.Adds nodes.old.items nodes.new.items (λ p. not (access.line == of.entry.line) || spec.holds_if_fit of.entry p (IndexScan access []))) }
{
    if access.line != of.line {
        return Ok(());
    }
    let conjuncts = Conjuncts::none(alloc);
    push_fitting(alloc, of, Operator::IndexScan { access, conjuncts }, nodes)
}

/// Adds the scans of the line's own table instance.
fn push_table_scans(
    alloc: Global,
    of: Implemented<'_, '_>,
    instance: InstanceId,
    nodes: &mut Vec<Node>,
) -> Result<(), AllocError>
    ensures { OnOk result (spec.Adds nodes.old.items nodes.new.items (λ p. candidates.line_holds (spec.holds_if_fit of.entry p) of.entry.derived.log.now.log of.entry.accesses.now of.entry.line (expr.Get instance))) }
{
    push_fitting(alloc, of, Operator::Scan { instance }, nodes)?;
    for access in of.accesses {
        push_own_scan(alloc, of, *access, nodes)?;
    }
    Ok(())
}

/// Adds the scan by an index of a table instance, where the class has its rows.
fn push_index_scan(
    alloc: Global,
    of: Implemented<'_, '_>,
    access: IndexAccess,
    own: &Conjuncts,
    class: ClassId,
    nodes: &mut Vec<Node>,
) -> Result<(), AllocError>
    ensures { OnOk result (spec.Adds nodes.old.items nodes.new.items (λ p. not (replay.accesses of.entry.derived.log.now.log access class) || spec.holds_if_fit of.entry p (IndexScan access own.now))) }
{
    if !accesses(of.derived.log, access, class) {
        return Ok(());
    }
    let conjuncts = own.copy(alloc)?;
    push_fitting(alloc, of, Operator::IndexScan { access, conjuncts }, nodes)
}

fn push_index_scans(
    alloc: Global,
    of: Implemented<'_, '_>,
    own: &Conjuncts,
    class: ClassId,
    nodes: &mut Vec<Node>,
) -> Result<(), AllocError>
    ensures { OnOk result (spec.Adds nodes.old.items nodes.new.items (λ p. candidates.scans_hold (spec.holds_if_fit of.entry p) of.entry.derived.log.now.log of.entry.accesses.now own.now class)) }
{
    for access in of.accesses {
        push_index_scan(alloc, of, *access, own, class, nodes)?;
    }
    Ok(())
}

/// Adds a selection's nodes: the filter, and index scans where it has no subqueries.
fn push_selects(
    alloc: Global,
    of: Implemented<'_, '_>,
    own: &Conjuncts,
    class: ClassId,
    nodes: &mut Vec<Node>,
) -> Result<(), AllocError>
    ensures { OnOk result (spec.Adds nodes.old.items nodes.new.items (λ p. candidates.line_holds (spec.holds_if_fit of.entry p) of.entry.derived.log.now.log of.entry.accesses.now of.entry.line (expr.Select own.now class))) }
{
    let conjuncts = own.copy(alloc)?;
    if !own.is_plain() {
        return push_fitting(alloc, of, Operator::FilterSubqueries { conjuncts }, nodes);
    }
    push_fitting(alloc, of, Operator::Filter { conjuncts }, nodes)?;
    push_index_scans(alloc, of, own, class, nodes)
}

// ---- joins

/// Adds the join by an index of a table instance, where the right class has its rows.
fn push_index_join(
    alloc: Global,
    of: Implemented<'_, '_>,
    access: IndexAccess,
    matching: &Matching,
    right: ClassId,
    nodes: &mut Vec<Node>,
) -> Result<(), AllocError>
    ensures { OnOk result (spec.Adds nodes.old.items nodes.new.items (λ p. not (replay.accesses of.entry.derived.log.now.log access right) || spec.holds_if_fit of.entry p (IndexJoin access matching.now))) }
{
    if !accesses(of.derived.log, access, right) {
        return Ok(());
    }
    let matching = matching.copy(alloc)?;
    push_fitting(alloc, of, Operator::IndexJoin { access, matching }, nodes)
}

fn push_index_joins(
    alloc: Global,
    of: Implemented<'_, '_>,
    matching: &Matching,
    right: ClassId,
    nodes: &mut Vec<Node>,
) -> Result<(), AllocError>
    ensures { OnOk result (spec.Adds nodes.old.items nodes.new.items (λ p. list_all (λ a. not (replay.accesses of.entry.derived.log.now.log a right) || spec.holds_if_fit of.entry p (IndexJoin a matching.now)) of.entry.accesses.now)) }
{
    for access in of.accesses {
        push_index_join(alloc, of, *access, matching, right, nodes)?;
    }
    Ok(())
}

/// Adds the join of both sides by a method.
fn push_join(
    alloc: Global,
    of: Implemented<'_, '_>,
    method: JoinMethod,
    matching: &Matching,
    nodes: &mut Vec<Node>,
) -> Result<(), AllocError>
    ensures { OnOk result (spec.Adds nodes.old.items nodes.new.items (λ p. spec.holds_if_fit of.entry p (JoinRows method matching.now))) }
{
    let matching = matching.copy(alloc)?;
    push_fitting(alloc, of, Operator::JoinRows { method, matching }, nodes)
}

/// Adds all joins with the matching but merges.
fn push_joins(
    alloc: Global,
    of: Implemented<'_, '_>,
    matching: &Matching,
    right: ClassId,
    nodes: &mut Vec<Node>,
) -> Result<(), AllocError>
    ensures { OnOk result (spec.Adds nodes.old.items nodes.new.items (λ p. candidates.joins_hold (spec.holds_if_fit of.entry p) of.entry.derived.log.now.log of.entry.accesses.now matching.now right)) }
{
    push_join(alloc, of, JoinMethod::NestedLoop, matching, nodes)?;
    push_join(alloc, of, JoinMethod::Hash, matching, nodes)?;
    push_index_joins(alloc, of, matching, right, nodes)
}

/// Adds the merge joins by an equality of columns, either of which may be of the left side.
fn push_merges(
    alloc: Global,
    of: Implemented<'_, '_>,
    matching: &Matching,
    pair: Option<(ColumnId, ColumnId)>,
    nodes: &mut Vec<Node>,
) -> Result<(), AllocError>
    ensures { OnOk result (spec.Adds nodes.old.items nodes.new.items (λ p. candidates.merges_hold (spec.holds_if_fit of.entry p) matching.now pair)) }
{
    let Some((a, b)) = pair else {
        return Ok(());
    };
    push_join(alloc, of, JoinMethod::Merge(a, b), matching, nodes)?;
    push_join(alloc, of, JoinMethod::Merge(b, a), matching, nodes)
}

/// Adds the merge joins by each of the conditions.
fn push_all_merges(
    alloc: Global,
    of: Implemented<'_, '_>,
    matching: &Matching,
    conditions: &[Condition],
    nodes: &mut Vec<Node>,
) -> Result<(), AllocError>
    ensures { OnOk result (spec.Adds nodes.old.items nodes.new.items (λ p. list_all (λ c. candidates.merges_hold (spec.holds_if_fit of.entry p) matching.now (equated c)) conditions.now)) }
{
    for condition in conditions {
        push_merges(alloc, of, matching, condition.equated(), nodes)?;
    }
    Ok(())
}

fn push_inner_joins(
    alloc: Global,
    of: Implemented<'_, '_>,
    own: &Conjuncts,
    right: ClassId,
    nodes: &mut Vec<Node>,
) -> Result<(), AllocError>
    ensures { OnOk result (spec.Adds nodes.old.items nodes.new.items (λ p. candidates.joins_hold (spec.holds_if_fit of.entry p) of.entry.derived.log.now.log of.entry.accesses.now (Inner own.now) right && list_all (λ c. candidates.merges_hold (spec.holds_if_fit of.entry p) (Inner own.now) (equated c)) own.now)) }
{
    let matching = Matching::Inner(own.copy(alloc)?);
    push_joins(alloc, of, &matching, right, nodes)?;
    push_all_merges(alloc, of, &matching, own.as_slice(), nodes)
}

// ---- groups

fn push_distincts(
    alloc: Global,
    of: Implemented<'_, '_>,
    nodes: &mut Vec<Node>,
) -> Result<(), AllocError>
    ensures { OnOk result (spec.Adds nodes.old.items nodes.new.items (λ p. spec.holds_if_fit of.entry p (DistinctRows group.Hash) && spec.holds_if_fit of.entry p (DistinctRows group.Sorted))) }
{
    let method = GroupMethod::Hash;
    push_fitting(alloc, of, Operator::DistinctRows { method }, nodes)?;
    let method = GroupMethod::Sorted;
    push_fitting(alloc, of, Operator::DistinctRows { method }, nodes)
}

fn push_group(
    alloc: Global,
    of: Implemented<'_, '_>,
    method: GroupMethod,
    keys: &Columns,
    added: &Aggregations,
    nodes: &mut Vec<Node>,
) -> Result<(), AllocError>
    ensures { OnOk result (spec.Adds nodes.old.items nodes.new.items (λ p. spec.holds_if_fit of.entry p (GroupRows method keys.now added.now))) }
{
    let keys = keys.copy(alloc)?;
    let added = added.copy(alloc)?;
    let operator = Operator::GroupRows {
        method,
        keys,
        added,
    };
    push_fitting(alloc, of, operator, nodes)
}

fn push_groups(
    alloc: Global,
    of: Implemented<'_, '_>,
    keys: &Columns,
    added: &Aggregations,
    nodes: &mut Vec<Node>,
) -> Result<(), AllocError>
    ensures { OnOk result (spec.Adds nodes.old.items nodes.new.items (λ p. spec.holds_if_fit of.entry p (GroupRows group.Hash keys.now added.now) && spec.holds_if_fit of.entry p (GroupRows group.Sorted keys.now added.now))) }
{
    push_group(alloc, of, GroupMethod::Hash, keys, added, nodes)?;
    push_group(alloc, of, GroupMethod::Sorted, keys, added, nodes)
}

// ---- a line

/// Adds all nodes of the line that fit.
fn push_nodes(
    alloc: Global,
    of: Implemented<'_, '_>,
    nodes: &mut Vec<Node>,
) -> Result<(), AllocError>
    ensures { OnOk result (spec.Adds nodes.old.items nodes.new.items (λ p. candidates.line_holds (spec.holds_if_fit of.entry p) of.entry.derived.log.now.log of.entry.accesses.now of.entry.line of.entry.expr.now)) }
{
    match of.expr {
        Expr::Get(instance) => push_table_scans(alloc, of, *instance, nodes),
        Expr::Select(own, class) => push_selects(alloc, of, own, *class, nodes),
        Expr::Join(own, _, right) => push_inner_joins(alloc, of, own, *right, nodes),
        Expr::LeftJoin(own, _, right) => {
            let matching = Matching::Left(own.copy(alloc)?);
            push_joins(alloc, of, &matching, *right, nodes)
        }
        Expr::Semi(own, _, right) => {
            let matching = Matching::Semi(own.copy(alloc)?);
            push_joins(alloc, of, &matching, *right, nodes)
        }
        Expr::Anti(ordinary, null_aware, _, right) => {
            let ordinary = ordinary.copy(alloc)?;
            let matching = Matching::Anti(ordinary, null_aware.copy(alloc)?);
            push_joins(alloc, of, &matching, *right, nodes)
        }
        Expr::Keep(own, _) => {
            let columns = own.copy(alloc)?;
            push_fitting(alloc, of, Operator::Projection { columns }, nodes)
        }
        Expr::Distinct(_) => push_distincts(alloc, of, nodes),
        Expr::Group(keys, added, _) => push_groups(alloc, of, keys, added, nodes),
    }
}

/// The nodes of a line: all operators that compute its expression from what their inputs produce. A search makes them once, whatever orders are
/// asked of the line's class.
pub fn nodes_of(
    alloc: Global,
    derived: Derived<'_, '_>,
    accesses: &[IndexAccess],
    line: LineId,
) -> Result<Vec<Node>, AllocError>
    requires { candidates.AreAccesses derived.log.now.instances derived.log.now.log accesses.now }
    ensures each { IfOk result (λ nodes. spec.HasNodes derived.entry.log.now.instances derived.entry.log.now.log (columns_at derived.entry.columns.now) line nodes.items) }
    ensures fit { IfOk result (λ nodes. list_all (spec.fits_line derived.entry.log.now.instances derived.entry.log.now.log (columns_at derived.entry.columns.now) line) nodes.items ≡ true) }
{
    let mut nodes = Vec::new(alloc);
    let Some(member) = derived.log.member(line) else {
        return Ok(nodes);
    };
    let of = Implemented {
        derived,
        accesses,
        line,
        expr: member.expr,
    };
    push_nodes(alloc, of, &mut nodes)?;
    Ok(nodes)
}
