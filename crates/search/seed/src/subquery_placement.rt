//! Conditions with subqueries are pushed down to where the tree has them placed.
//!
//! What a subquery costs is paid for each row over which it is evaluated, so it is placed where few are left. Of the conditions of one selection the rule that
//! pushes them below a join takes all that fit; so those that are to stay are founded as selections from the others, and merging these says that the
//! classes are the same.

use crate::founding::{SetClass, class_of};
use crate::left_join_pushdown::probing_joins;
use crate::nodes::{join_line, line_over, step};
use algebra::{ClassId, Condition, Conjuncts, Expr, LineId};
use bindings::BoundLines;
use book::RuleName;
use join_trees::{JoinTree, LeafSet, Subquery, TreeNode, conditions_of};
use memo::Memo;
use std::alloc::{AllocError, Global};

/// So many selections at most are looked at.
const MOST_SELECTIONS: usize = 256;

/// A tree with its classes, and the subqueries that are placed in it.
#[derive(Clone, Copy)]
pub(crate) struct PlacedSubqueries<'a> {
    pub tree: &'a JoinTree,
    pub classes: &'a [SetClass],
    pub subqueries: &'a [Subquery],
}

/// A selection by subqueries from the class of a set.
#[derive(Clone, Copy, Drop)]
struct SubquerySelection {
    line: LineId,
    set: LeafSet,
}

impl PlacedSubqueries<'_> {
    /// The classes of a join of the tree and of its sides, where these are founded.
    fn classes_of(self, node: TreeNode) -> Option<(ClassId, ClassId, ClassId)> {
        let whole = class_of(self.classes, node.set)?;
        let left = class_of(self.classes, node.left)?;
        let right = class_of(self.classes, node.right)?;
        Some((whole, left, right))
    }

    /// The set over whose rows the condition is evaluated.
    fn placement(self, condition: &Condition) -> LeafSet {
        let mut placement = LeafSet::EMPTY;
        for (subquery, set) in self.subqueries.iter().zip(self.tree.placements.as_slice()) {
            if subquery.condition.same(condition) {
                placement = *set;
            }
        }
        placement
    }

    /// The conditions that are placed within one of the sides of a node.
    fn below(self, alloc: Global, node: TreeNode) -> Result<Conjuncts, AllocError> {
        let mut below = Vec::new(alloc);
        for (subquery, set) in self.subqueries.iter().zip(self.tree.placements.as_slice()) {
            let is_below = set.is_within(node.left) || set.is_within(node.right);
            if !set.is_empty() && is_below {
                below.push(subquery.condition.copy(alloc)?)?;
            }
        }
        Conjuncts::of(alloc, below.as_slice())
    }

    /// The conditions of a selection that are placed within one of the sides of its set.
    fn pushed_down(
        self,
        alloc: Global,
        memo: &Memo<'_>,
        selection: SubquerySelection,
    ) -> Result<Conjuncts, AllocError> {
        let node = self.tree.node(selection.set);
        let mut down = Vec::new(alloc);
        for condition in conditions_of(memo.log(), selection.line) {
            let set = self.placement(condition);
            let is_below = set.is_within(node.left) || set.is_within(node.right);
            if !set.is_empty() && is_below {
                down.push(condition.copy(alloc)?)?;
            }
        }
        Conjuncts::of(alloc, down.as_slice())
    }
}

/// A line of the selection from the class, which is founded where none has it.
pub(crate) fn selection(
    alloc: Global,
    memo: &mut Memo<'_>,
    conditions: Conjuncts,
    class: ClassId,
) -> Result<Option<LineId>, AllocError> {
    let expr = Expr::Select(conditions.copy(alloc)?, class);
    let Some(found) = memo.intern(alloc, expr)? else {
        return Ok(None);
    };
    memo.line_of(alloc, found, &Expr::Select(conditions, class))
}

/// Founds the conditions of a line, but for those that are pushed further down, as selections one over the other from what these select. Those that
/// cost least come first.
fn found_one_by_one(
    alloc: Global,
    memo: &mut Memo<'_>,
    placed: PlacedSubqueries<'_>,
    line: LineId,
    down: &Conjuncts,
    below: ClassId,
) -> Result<(), AllocError> {
    let mut class = below;
    for subquery in placed.subqueries.iter().rev() {
        let condition = &subquery.condition;
        let is_here = conditions_of(memo.log(), line)
            .iter()
            .any(|one| one.same(condition));
        let is_pushed = down.as_slice().iter().any(|one| one.same(condition));
        if is_here && !is_pushed {
            let mut one = Vec::new(alloc);
            one.push(condition.copy(alloc)?)?;
            let conditions = Conjuncts::of(alloc, one.as_slice())?;
            match memo.intern(alloc, Expr::Select(conditions, class))? {
                Some(found) => class = found,
                None => return Ok(()),
            }
        }
    }
    Ok(())
}

/// A join whose left side is a selection by subqueries, and the selection that is left above it, if one is.
#[derive(Clone, Copy, Drop)]
struct JoinBelow {
    join: LineId,
    select: Option<LineId>,
}

/// Pushes the subqueries of a selection that are about the left side of a join alone to that.
fn push_to_left(
    alloc: Global,
    memo: &mut Memo<'_>,
    select: LineId,
    join: LineId,
    right: ClassId,
) -> Result<Option<JoinBelow>, AllocError> {
    let lines = BoundLines::Two(select, join);
    let Some(line) = step(alloc, memo, RuleName::SelectBelowJoin, lines)? else {
        return Ok(None);
    };
    if join_line(memo, line).is_some() {
        return Ok(Some(JoinBelow {
            join: line,
            select: None,
        }));
    }
    let class = match memo.log().member(line) {
        Some(member) => match member.expr {
            Expr::Select(_, class) => *class,
            _ => return Ok(None),
        },
        None => return Ok(None),
    };
    let found = line_over(alloc, memo, class, None, right)?;
    Ok(found.map(|join| JoinBelow {
        join,
        select: Some(line),
    }))
}

/// The join with its sides the other way round.
fn commuted(
    alloc: Global,
    memo: &mut Memo<'_>,
    join: LineId,
) -> Result<Option<LineId>, AllocError> {
    let lines = BoundLines::One(join);
    step(alloc, memo, RuleName::JoinCommutes, lines)
}

/// The selection that founds the left side of a join, or another line of its class that selects.
fn left_selection(
    alloc: Global,
    memo: &Memo<'_>,
    join: LineId,
) -> Result<Option<LineId>, AllocError> {
    let Some(join) = join_line(memo, join) else {
        return Ok(None);
    };
    for line in memo.log().members(alloc, join.left)? {
        if let Some(member) = memo.log().member(line) {
            if let Expr::Select(_, _) = member.expr {
                return Ok(Some(line));
            }
        }
    }
    Ok(None)
}

/// Pushes subqueries to both sides of a join, as they are about the one or the other, and opens the selections that they make there.
fn push_to_both(
    alloc: Global,
    memo: &mut Memo<'_>,
    placed: PlacedSubqueries<'_>,
    select: LineId,
    set: LeafSet,
    open: &mut Vec<SubquerySelection>,
) -> Result<(), AllocError> {
    let sides = placed.tree.node(set);
    let Some((whole, left, right)) = placed.classes_of(sides) else {
        return Ok(());
    };
    let Some(join) = line_over(alloc, memo, whole, Some(left), right)? else {
        return Ok(());
    };
    let mut rest = JoinBelow {
        join,
        select: Some(select),
    };
    let mut other = right;
    for side in [sides.left, sides.right] {
        if let Some(select) = rest.select {
            if let Some(next) = push_to_left(alloc, memo, select, rest.join, other)? {
                if let Some(line) = left_selection(alloc, memo, next.join)? {
                    open.push(SubquerySelection { line, set: side })?;
                }
                rest = next;
            }
        }
        if let Some(join) = join_line(memo, rest.join) {
            other = join.left;
        }
        if let Some(commuted) = commuted(alloc, memo, rest.join)? {
            rest.join = commuted;
        }
    }
    Ok(())
}

/// Pushes subqueries that are placed within one side of a node below those of its joins, too, whose other side is an unfiltered leaf that an index probes.
fn push_below_probing(
    alloc: Global,
    memo: &mut Memo<'_>,
    placed: PlacedSubqueries<'_>,
    node: TreeNode,
) -> Result<(), AllocError> {
    let Some((whole, left, right)) = placed.classes_of(node) else {
        return Ok(());
    };
    let down = placed.below(alloc, node)?;
    if down.as_slice().is_empty() {
        return Ok(());
    }
    let Some(select) = selection(alloc, memo, down, whole)? else {
        return Ok(());
    };
    for (side, other) in [(left, right), (right, left)] {
        for join in probing_joins(alloc, memo, whole, side, other)? {
            let lines = BoundLines::Two(select, join);
            let _ = step(alloc, memo, RuleName::SelectBelowJoin, lines)?;
        }
    }
    Ok(())
}

/// The same of all joins of the tree, once they are there.
pub(crate) fn place_below_probing(
    alloc: Global,
    memo: &mut Memo<'_>,
    placed: PlacedSubqueries<'_>,
) -> Result<(), AllocError> {
    if placed.subqueries.is_empty() {
        return Ok(());
    }
    for node in placed.tree.joins(alloc)? {
        push_below_probing(alloc, memo, placed, node)?;
    }
    Ok(())
}

/// Founds the selections by which the subqueries of a region are evaluated where the tree has them placed, above the class of the whole.
pub(crate) fn place_subqueries(
    alloc: Global,
    memo: &mut Memo<'_>,
    placed: PlacedSubqueries<'_>,
) -> Result<(), AllocError> {
    let root = placed.tree.root().set;
    let Some(whole) = class_of(placed.classes, root) else {
        return Ok(());
    };
    let mut all = Vec::new(alloc);
    for subquery in placed.subqueries {
        all.push(subquery.condition.copy(alloc)?)?;
    }
    let all = Conjuncts::of(alloc, all.as_slice())?;
    let mut open = Vec::new(alloc);
    if let Some(line) = selection(alloc, memo, all, whole)? {
        open.push(SubquerySelection { line, set: root })?;
    }
    for _ in 0..MOST_SELECTIONS {
        let Some(next) = open.pop() else {
            break;
        };
        place_selection(alloc, memo, placed, next, &mut open)?;
    }
    Ok(())
}

/// Leaves the subqueries of a selection that are placed over its set, and pushes the others down.
fn place_selection(
    alloc: Global,
    memo: &mut Memo<'_>,
    placed: PlacedSubqueries<'_>,
    from: SubquerySelection,
    open: &mut Vec<SubquerySelection>,
) -> Result<(), AllocError> {
    let Some(class) = class_of(placed.classes, from.set) else {
        return Ok(());
    };
    let down = placed.pushed_down(alloc, memo, from)?;
    if down.as_slice().is_empty() {
        return found_one_by_one(alloc, memo, placed, from.line, &down, class);
    }
    let Some(select) = selection(alloc, memo, down.copy(alloc)?, class)? else {
        return Ok(());
    };
    if let Some(member) = memo.log().member(select) {
        let below = member.class;
        found_one_by_one(alloc, memo, placed, from.line, &down, below)?;
    }
    push_to_both(alloc, memo, placed, select, from.set, open)
}
