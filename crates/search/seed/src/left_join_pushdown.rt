//! Outer joins above a region are pushed below its joins, to where the tree has them placed.

use crate::founding::{SetClass, class_of};
use crate::left_join_pullup::{left_join_placements, need_reordering, reorder};
use crate::nodes::{join_line, line_over, step};
use crate::raising::left_joins_of;
use algebra::{ClassId, Conjuncts, Expr, LineId};
use bindings::BoundLines;
use book::RuleName;
use join_trees::{Choice, JoinTree, LeafSet, MOST_LEAVES};
use memo::Memo;
use std::alloc::{AllocError, Global};

/// So many outer joins over one region are looked at.
const MOST_LEFT_JOINS: usize = 64;

/// A line that is an outer join.
#[derive(Drop)]
pub(crate) struct LeftJoinLine {
    pub line: LineId,
    class: ClassId,
    pub condition: Conjuncts,
    pub right: ClassId,
}

/// The line, if it is an outer join whose left side is the class.
fn left_join_at(
    alloc: Global,
    memo: &Memo<'_>,
    line: LineId,
    left: ClassId,
) -> Result<Option<LeftJoinLine>, AllocError> {
    let Some(member) = memo.log().member(line) else {
        return Ok(None);
    };
    match member.expr {
        Expr::LeftJoin(condition, own, right) if memo.log().are_same(*own, left) => {
            Ok(Some(LeftJoinLine {
                line,
                class: member.class,
                condition: condition.copy(alloc)?,
                right: *right,
            }))
        }
        _ => Ok(None),
    }
}

/// The first outer join whose left side the class is, if there is one.
fn left_join_over(
    alloc: Global,
    memo: &Memo<'_>,
    class: ClassId,
) -> Result<Option<LeftJoinLine>, AllocError> {
    for line in memo.parents(class)? {
        if let Some(found) = left_join_at(alloc, memo, line, class)? {
            return Ok(Some(found));
        }
    }
    Ok(None)
}

/// Sets the class of a set from now on.
pub(crate) fn set_class(
    classes: &mut Vec<SetClass>,
    set: LeafSet,
    class: ClassId,
) -> Result<(), AllocError> {
    for one in classes.iter_mut() {
        if one.set == set {
            one.class = class;
            return Ok(());
        }
    }
    classes.push(SetClass { set, class })?;
    Ok(())
}

/// A line of the class that joins these sides in this order, commuted for it where it joins them in the other one.
pub(crate) fn join_over(
    alloc: Global,
    memo: &mut Memo<'_>,
    class: ClassId,
    left: ClassId,
    right: ClassId,
) -> Result<Option<LineId>, AllocError> {
    if let Some(line) = line_over(alloc, memo, class, Some(left), right)? {
        return Ok(Some(line));
    }
    match line_over(alloc, memo, class, Some(right), left)? {
        Some(line) => step(alloc, memo, RuleName::JoinCommutes, BoundLines::One(line)),
        None => Ok(None),
    }
}

/// The lines of a class that join the left side with something else than the right one: with an unfiltered leaf, whose matches an index finds.
pub(crate) fn probing_joins(
    alloc: Global,
    memo: &Memo<'_>,
    class: ClassId,
    left: ClassId,
    right: ClassId,
) -> Result<Vec<LineId>, AllocError> {
    let mut lines = memo.log().members(alloc, class)?;
    lines.retain(|line| match join_line(memo, *line) {
        Some(join) => {
            memo.log().are_same(join.left, left) && !memo.log().are_same(join.right, right)
        }
        None => false,
    });
    Ok(lines)
}

/// The side of a set that has all of the leaves, and the other one.
pub(crate) fn sides_toward(
    tree: &JoinTree,
    set: LeafSet,
    leaves: LeafSet,
) -> Option<(LeafSet, LeafSet)> {
    let node = tree.node(set);
    if set.count() < 2 || leaves.is_empty() {
        None
    } else if leaves.is_within(node.left) {
        Some((node.left, node.right))
    } else if leaves.is_within(node.right) {
        Some((node.right, node.left))
    } else {
        None
    }
}

/// Pushes an outer join of a set below its join, to the first of its sides: the line that it is there.
fn push_below_join(
    alloc: Global,
    memo: &mut Memo<'_>,
    classes: &[SetClass],
    line: LineId,
    set: LeafSet,
    sides: (LeafSet, LeafSet),
) -> Result<Option<LineId>, AllocError> {
    let (Some(whole), Some(below), Some(beside)) = (
        class_of(classes, set),
        class_of(classes, sides.0),
        class_of(classes, sides.1),
    ) else {
        return Ok(None);
    };
    let Some(join) = join_over(alloc, memo, whole, below, beside)? else {
        return Ok(None);
    };
    let lines = BoundLines::Two(line, join);
    let Some(made) = step(alloc, memo, RuleName::LeftJoinBelowJoin, lines)? else {
        return Ok(None);
    };
    let Some(made) = join_line(memo, made) else {
        return Ok(None);
    };
    for join in probing_joins(alloc, memo, whole, below, beside)? {
        let lines = BoundLines::Two(line, join);
        let _ = step(alloc, memo, RuleName::LeftJoinBelowJoin, lines)?;
    }
    for line in left_joins_of(alloc, memo, made.left)? {
        if left_join_at(alloc, memo, line, below)?.is_some() {
            return Ok(Some(line));
        }
    }
    Ok(None)
}

/// Pushes an outer join of the whole down to a set. The sets on the way have its class from then on.
pub(crate) fn push_down_to(
    alloc: Global,
    memo: &mut Memo<'_>,
    tree: &JoinTree,
    classes: &mut Vec<SetClass>,
    line: LineId,
    placement: LeafSet,
) -> Result<(), AllocError> {
    let mut line = line;
    let mut set = tree.root().set;
    for _ in 0..MOST_LEAVES {
        let next = match sides_toward(tree, set, placement) {
            Some(sides) if set != placement => {
                push_below_join(alloc, memo, classes.as_slice(), line, set, sides)?.map(|line| (
                    line, sides.0,
                ))
            }
            _ => None,
        };
        if let Some(member) = memo.log().member(line) {
            let class = member.class;
            set_class(classes, set, class)?;
        }
        match next {
            Some((below, side)) => {
                line = below;
                set = side;
            }
            None => break,
        }
    }
    Ok(())
}

/// The outer joins above the class of a region: over it the first, and over each the next.
pub(crate) fn left_joins_above(
    alloc: Global,
    memo: &Memo<'_>,
    whole: ClassId,
) -> Result<Vec<LeftJoinLine>, AllocError> {
    let mut above = Vec::new(alloc);
    let mut top = whole;
    for _ in 0..MOST_LEFT_JOINS {
        let Some(found) = left_join_over(alloc, memo, top)? else {
            break;
        };
        top = found.class;
        above.push(found)?;
    }
    Ok(above)
}

/// Adds lines by which the outer joins above a region, whose class this is, are placed where the tree has them: over fewer leaves than all, where few rows are
/// joined with many.
pub(crate) fn place_left_joins(
    alloc: Global,
    memo: &mut Memo<'_>,
    leaves: &[ClassId],
    choice: &Choice,
    above: &[LeftJoinLine],
    whole: ClassId,
    mut classes: Vec<SetClass>,
) -> Result<(), AllocError> {
    let tree = &choice.tree;
    set_class(&mut classes, tree.root().set, whole)?;
    let placements = left_join_placements(alloc, memo, leaves, choice, above)?;
    if need_reordering(&placements) {
        return reorder(alloc, memo, tree, above, &placements, classes);
    }
    for (one, placement) in above.iter().zip(placements.iter()) {
        push_down_to(alloc, memo, tree, &mut classes, one.line, placement.set)?;
    }
    Ok(())
}
