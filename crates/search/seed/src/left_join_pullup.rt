//! Outer joins that are reordered: one that the tree has below another one.
//!
//! No rule pushes an outer join below another. But two whose conditions are about different leaves pass each other where both are pushed below the join of these,
//! and are pulled up from there: the one that is evaluated last first.

use crate::founding::{SetClass, class_of};
use crate::left_join_pushdown::{
    LeftJoinLine, join_over, probing_joins, push_down_to, set_class, sides_toward,
};
use crate::nodes::step;
use crate::raising::left_joins_of;
use algebra::{ClassId, Conjuncts, Expr, LineId};
use bindings::BoundLines;
use book::RuleName;
use join_trees::{Choice, JoinTree, LeafSet, MOST_LEAVES, mentioned_leaves};
use memo::Memo;
use std::alloc::{AllocError, Global};

/// Where the tree has an outer join.
#[derive(Clone, Copy, Drop)]
pub(crate) struct LeftJoinPlacement {
    /// The set over whose rows it is evaluated.
    pub set: LeafSet,
    /// The least set of the tree that has the columns of its condition.
    least: LeafSet,
    /// Its number from the root down, where it was placed together with the leaves: what has a lesser number is evaluated over what it leaves, or over other leaves.
    turn: Option<usize>,
}

impl LeftJoinPlacement {
    fn is_evaluated_before(self, other: LeftJoinPlacement) -> bool {
        match (self.turn, other.turn) {
            (Some(turn), Some(later)) => later < turn,
            _ => false,
        }
    }
}

/// A join of the tree below which an outer join is pushed: of the set, to the side that has the leaves of its condition.
#[derive(Clone, Copy, Drop)]
struct PassedJoin {
    set: LeafSet,
    below: LeafSet,
    beside: LeafSet,
}

/// The leaves of which the conditions mention a column.
fn mentioned_by_all(
    alloc: Global,
    memo: &Memo<'_>,
    leaves: &[ClassId],
    conditions: &Conjuncts,
) -> Result<LeafSet, AllocError> {
    let mut found = LeafSet::EMPTY;
    for condition in conditions.as_slice() {
        found = found.union(mentioned_leaves(alloc, memo.log(), leaves, condition)?);
    }
    Ok(found)
}

/// The joins of the tree from the whole down to the least set that has these leaves.
fn passed_joins(
    alloc: Global,
    tree: &JoinTree,
    leaves: LeafSet,
) -> Result<Vec<PassedJoin>, AllocError> {
    let mut passed = Vec::new(alloc);
    let mut set = tree.root().set;
    for _ in 0..MOST_LEAVES {
        let Some((below, beside)) = sides_toward(tree, set, leaves) else {
            break;
        };
        passed.push(PassedJoin { set, below, beside })?;
        set = below;
    }
    Ok(passed)
}

/// Where the tree has the outer joins above a region with these leaves.
pub(crate) fn left_join_placements(
    alloc: Global,
    memo: &Memo<'_>,
    leaves: &[ClassId],
    choice: &Choice,
    above: &[LeftJoinLine],
) -> Result<Vec<LeftJoinPlacement>, AllocError> {
    let tree = &choice.tree;
    let subqueries = choice.subqueries.len();
    let mut placements = Vec::new(alloc);
    for (one, (number, set)) in above
        .iter()
        .zip(tree.placements.iter().enumerate().skip(subqueries))
    {
        let leaves = mentioned_by_all(alloc, memo, leaves, &one.condition)?;
        let passed = passed_joins(alloc, tree, leaves)?;
        placements.push(LeftJoinPlacement {
            set: *set,
            least: passed.last().map_or(tree.root().set, |last| last.below),
            turn: tree
                .placed_top_down
                .iter()
                .position(|placed| *placed == number),
        })?;
    }
    Ok(placements)
}

/// Whether the tree has one of them below one that stands below it, and they can pass each other.
pub(crate) fn need_reordering(placements: &[LeftJoinPlacement]) -> bool {
    placements.iter().enumerate().any(|(number, upper)| {
        placements.iter().take(number).any(|lower| {
            upper.set.is_within(lower.set)
                && upper.is_evaluated_before(*lower)
                && !upper.least.meets(lower.least)
        })
    })
}

/// The left side of a line, if it is an outer join with this right side.
fn left_side_of(memo: &Memo<'_>, line: LineId, right: ClassId) -> Option<ClassId> {
    let member = memo.log().member(line)?;
    match member.expr {
        Expr::LeftJoin(_, left, own) if memo.log().are_same(*own, right) => Some(*left),
        _ => None,
    }
}

/// The line of a class that is an outer join with this right side.
fn line_of(
    alloc: Global,
    memo: &Memo<'_>,
    class: ClassId,
    right: ClassId,
) -> Result<Option<LineId>, AllocError> {
    let lines = left_joins_of(alloc, memo, class)?;
    let mut found = lines
        .iter()
        .filter(|line| left_side_of(memo, **line, right).is_some());
    Ok(found.next().copied())
}

/// Pulls an outer join above a join, and says what its left side is there. The set below is without it from then on.
fn pull_above_join(
    alloc: Global,
    memo: &mut Memo<'_>,
    classes: &mut Vec<SetClass>,
    right: ClassId,
    passed: PassedJoin,
) -> Result<Option<ClassId>, AllocError> {
    let (Some(whole), Some(below), Some(beside)) = (
        class_of(classes.as_slice(), passed.set),
        class_of(classes.as_slice(), passed.below),
        class_of(classes.as_slice(), passed.beside),
    ) else {
        return Ok(None);
    };
    let Some(line) = line_of(alloc, memo, below, right)? else {
        return Ok(None);
    };
    let Some(join) = join_over(alloc, memo, whole, below, beside)? else {
        return Ok(None);
    };
    let lines = BoundLines::Two(join, line);
    let Some(made) = step(alloc, memo, RuleName::LeftJoinAboveJoin, lines)? else {
        return Ok(None);
    };
    for join in probing_joins(alloc, memo, whole, below, beside)? {
        let lines = BoundLines::Two(join, line);
        let _ = step(alloc, memo, RuleName::LeftJoinAboveJoin, lines)?;
    }
    if let Some(left) = left_side_of(memo, line, right) {
        set_class(classes, passed.below, left)?;
    }
    Ok(left_side_of(memo, made, right))
}

/// Pulls an outer join up to its placement. That is without it from then on, as the sets on the way are.
fn pull_up(
    alloc: Global,
    memo: &mut Memo<'_>,
    tree: &JoinTree,
    classes: &mut Vec<SetClass>,
    right: ClassId,
    placement: LeftJoinPlacement,
) -> Result<(), AllocError> {
    let passed = passed_joins(alloc, tree, placement.least)?;
    for passed in passed.iter().rev() {
        if !passed.set.is_within(placement.set) {
            break;
        }
        match pull_above_join(alloc, memo, classes, right, *passed)? {
            Some(left) if passed.set == placement.set => set_class(classes, passed.set, left)?,
            Some(_) => {}
            None => break,
        }
    }
    Ok(())
}

/// Pushes the outer joins above a region as far down as they go, and pulls them up to their placements.
pub(crate) fn reorder(
    alloc: Global,
    memo: &mut Memo<'_>,
    tree: &JoinTree,
    above: &[LeftJoinLine],
    placements: &[LeftJoinPlacement],
    mut classes: Vec<SetClass>,
) -> Result<(), AllocError> {
    for (one, placement) in above.iter().zip(placements.iter()) {
        let lowest = match placement.turn {
            Some(_) => placement.least,
            None => placement.set,
        };
        push_down_to(alloc, memo, tree, &mut classes, one.line, lowest)?;
    }
    for turn in 0..tree.placed_top_down.len() {
        for (one, placement) in above.iter().zip(placements.iter()) {
            if placement.turn == Some(turn) {
                pull_up(alloc, memo, tree, &mut classes, one.right, *placement)?;
            }
        }
    }
    Ok(())
}
