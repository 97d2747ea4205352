//! Filters are pushed down: of a selection above joins conditions on one leaf to the leaf, and the others each to a join of few leaves.

use crate::nodes::{Nodes, join_line, line_over, step};
use algebra::{ClassId, Expr, LineId};
use bindings::BoundLines;
use book::RuleName;
use join_trees::{LeafSet, conditions_of, mentioned_leaves};
use memo::Memo;
use std::alloc::{AllocError, Global};

/// Deep enough for each split.
pub(crate) const MOST_DEEP: u32 = 200;

/// Where filters of a region are pushed to.
#[derive(Clone, Copy)]
pub(crate) struct FilterPushdown<'a> {
    /// The classes of the leaves in the frame.
    pub leaves: &'a [ClassId],
    /// The leaves that are filtered before they are joined.
    pub filtered: LeafSet,
    /// The order of the leaves in the tree.
    pub order: &'a [usize],
}

/// A join's node, and the line that selects from it, if one still does.
#[derive(Clone, Copy, Drop)]
pub(crate) struct FilteredJoin {
    pub select: Option<LineId>,
    pub node: usize,
}

/// The leaves to which conditions of the selection are pushed. A leaf to which a subquery would go too is none of them.
fn filtered_leaves(
    alloc: Global,
    memo: &Memo<'_>,
    pushdown: FilterPushdown<'_>,
    line: LineId,
) -> Result<LeafSet, AllocError> {
    let mut filtered = LeafSet::EMPTY;
    let mut unfiltered = LeafSet::EMPTY;
    for condition in conditions_of(memo.log(), line) {
        let set = mentioned_leaves(alloc, memo.log(), pushdown.leaves, condition)?;
        if condition.has_no_class() {
            if set.count() == 1 {
                filtered = filtered.union(set);
            }
        } else if set.is_empty() {
            unfiltered = pushdown.filtered;
        } else if set.count() == 1 {
            unfiltered = unfiltered.union(set);
        }
    }
    Ok(filtered.intersection(pushdown.filtered).minus(unfiltered))
}

/// The class of which a line selects, if it does.
fn selected_class(memo: &Memo<'_>, line: LineId) -> Option<ClassId> {
    let member = memo.log().member(line)?;
    match member.expr {
        Expr::Select(_, class) => Some(*class),
        _ => None,
    }
}

/// The node of a join line with a new left side, where the right one stays.
fn with_left_class(
    nodes: &mut Nodes,
    memo: &Memo<'_>,
    line: LineId,
    set: LeafSet,
    right: usize,
) -> Result<Option<usize>, AllocError> {
    let Some(join) = join_line(memo, line) else {
        return Ok(None);
    };
    let Some(leaf) = nodes.add_leaf(join.left, set)? else {
        return Ok(None);
    };
    nodes.add_join(join.class, Some(line), leaf, right)
}

/// The join with the conditions of the selection on the leaf pushed to it.
fn push_to_leaf(
    alloc: Global,
    memo: &mut Memo<'_>,
    nodes: &mut Nodes,
    select: LineId,
    number: usize,
    leaf: LeafSet,
) -> Result<Option<FilteredJoin>, AllocError> {
    let Some(split) = nodes.split(alloc, memo, number, leaf, MOST_DEEP)? else {
        return Ok(None);
    };
    let Some((_, rest)) = nodes.sides(split) else {
        return Ok(None);
    };
    let lines = BoundLines::Two(select, nodes.node(split).line);
    let Some(line) = step(alloc, memo, RuleName::SelectBelowJoin, lines)? else {
        return Ok(None);
    };
    match selected_class(memo, line) {
        Some(class) => {
            let right = nodes.node(rest).class;
            let Some(below) = line_over(alloc, memo, class, None, right)? else {
                return Ok(None);
            };
            match with_left_class(nodes, memo, below, leaf, rest)? {
                Some(node) => Ok(Some(FilteredJoin {
                    select: Some(line),
                    node,
                })),
                None => Ok(None),
            }
        }
        None => match with_left_class(nodes, memo, line, leaf, rest)? {
            Some(node) => Ok(Some(FilteredJoin { select: None, node })),
            None => Ok(None),
        },
    }
}

/// The node of the join into which the selection is merged.
fn merge_into_join(
    alloc: Global,
    memo: &mut Memo<'_>,
    nodes: &mut Nodes,
    select: LineId,
    number: usize,
) -> Result<Option<usize>, AllocError> {
    let Some((left, right)) = nodes.sides(number) else {
        return Ok(None);
    };
    let lines = BoundLines::Two(select, nodes.node(number).line);
    let Some(line) = step(alloc, memo, RuleName::SelectIntoJoin, lines)? else {
        return Ok(None);
    };
    match selected_class(memo, line) {
        Some(class) => {
            let first = Some(nodes.node(left).class);
            let below = line_over(alloc, memo, class, first, nodes.node(right).class)?;
            nodes.add_join(class, below, left, right)
        }
        None => match join_line(memo, line) {
            Some(join) => nodes.add_join(join.class, Some(line), left, right),
            None => Ok(None),
        },
    }
}

/// Takes one leaf after another from the left side to the right one, last ones first, each by a join that has all conditions over what it
/// joins.
fn right_deep_from(
    alloc: Global,
    memo: &mut Memo<'_>,
    nodes: &mut Nodes,
    order: &[usize],
    number: usize,
) -> Result<usize, AllocError> {
    let mut current = number;
    for place in order.iter().rev() {
        if let Some((left, _)) = nodes.sides(current) {
            let leaf = LeafSet::single(*place);
            let set = nodes.node(left).set;
            if set.has(*place) && set != leaf {
                let inner = nodes.split(alloc, memo, left, set.minus(leaf), MOST_DEEP)?;
                if let Some(inner) = inner {
                    if let Some(next) = nodes.associated(alloc, memo, current, inner)? {
                        current = next;
                    }
                }
            }
        }
    }
    Ok(current)
}

/// The last leaf of the order that is in the set.
fn last_of(order: &[usize], set: LeafSet) -> LeafSet {
    let mut last = LeafSet::EMPTY;
    for place in order {
        if set.has(*place) {
            last = LeafSet::single(*place);
        }
    }
    last
}

/// The join with the last leaf of the order alone on its right side.
fn with_last(
    alloc: Global,
    memo: &mut Memo<'_>,
    nodes: &mut Nodes,
    order: &[usize],
    number: usize,
) -> Result<usize, AllocError> {
    let set = nodes.node(number).set;
    let last = last_of(order, set);
    match nodes.split(alloc, memo, number, set.minus(last), MOST_DEEP)? {
        Some(split) => Ok(split),
        None => Ok(number),
    }
}

/// The right-deep join whose leaves are joined one by one in the order.
pub(crate) fn right_deep(
    alloc: Global,
    memo: &mut Memo<'_>,
    nodes: &mut Nodes,
    order: &[usize],
    number: usize,
) -> Result<usize, AllocError> {
    let split = with_last(alloc, memo, nodes, order, number)?;
    right_deep_from(alloc, memo, nodes, order, split)
}

/// The join of the selection's class, where no selection is left but of subqueries, and each condition stands in a join of few leaves.
fn right_deep_selection(
    alloc: Global,
    memo: &mut Memo<'_>,
    nodes: &mut Nodes,
    pushdown: FilterPushdown<'_>,
    select: LineId,
    number: usize,
) -> Result<usize, AllocError> {
    let split = with_last(alloc, memo, nodes, pushdown.order, number)?;
    let top = match merge_into_join(alloc, memo, nodes, select, split)? {
        Some(top) => top,
        None => split,
    };
    right_deep_from(alloc, memo, nodes, pushdown.order, top)
}

/// The right-deep join of what a line selects from a join, its conditions pushed down.
pub(crate) fn push_selection(
    alloc: Global,
    memo: &mut Memo<'_>,
    nodes: &mut Nodes,
    pushdown: FilterPushdown<'_>,
    select: LineId,
    number: usize,
) -> Result<usize, AllocError> {
    let filtered = filtered_leaves(alloc, memo, pushdown, select)?;
    let mut current = FilteredJoin {
        select: Some(select),
        node: number,
    };
    for place in pushdown.order {
        if let Some(select) = current.select {
            if filtered.has(*place) && nodes.node(current.node).set.has(*place) {
                let leaf = LeafSet::single(*place);
                if let Some(next) = push_to_leaf(alloc, memo, nodes, select, current.node, leaf)? {
                    current = next;
                }
            }
        }
    }
    match current.select {
        Some(select) => right_deep_selection(alloc, memo, nodes, pushdown, select, current.node),
        None => right_deep(alloc, memo, nodes, pushdown.order, current.node),
    }
}

/// The join whose conditions on the left side alone are pushed to it, unless this is a leaf that stays unfiltered.
fn push_to_left(
    alloc: Global,
    memo: &mut Memo<'_>,
    nodes: &mut Nodes,
    pushdown: FilterPushdown<'_>,
    number: usize,
) -> Result<usize, AllocError> {
    let Some((left, right)) = nodes.sides(number) else {
        return Ok(number);
    };
    let below = nodes.node(left);
    if below.sides.is_none() && !below.set.is_within(pushdown.filtered) {
        return Ok(number);
    }
    let lines = BoundLines::One(nodes.node(number).line);
    let Some(line) = step(alloc, memo, RuleName::ConditionBelowJoin, lines)? else {
        return Ok(number);
    };
    let Some(join) = join_line(memo, line) else {
        return Ok(number);
    };
    let left = if below.sides.is_none() {
        nodes.add_leaf(join.left, below.set)?
    } else {
        Some(push_selection(alloc, memo, nodes, pushdown, join.left, left)?)
    };
    let Some(left) = left else {
        return Ok(number);
    };
    match nodes.add_join(join.class, Some(line), left, right)? {
        Some(pushed) => Ok(pushed),
        None => Ok(number),
    }
}

/// The join whose conditions on one side alone are pushed to that.
pub(crate) fn push_condition(
    alloc: Global,
    memo: &mut Memo<'_>,
    nodes: &mut Nodes,
    pushdown: FilterPushdown<'_>,
    number: usize,
) -> Result<usize, AllocError> {
    let number = push_to_left(alloc, memo, nodes, pushdown, number)?;
    match nodes.commuted(alloc, memo, number)? {
        Some(commuted) => push_to_left(alloc, memo, nodes, pushdown, commuted),
        None => Ok(number),
    }
}
