//! The classes of the chosen tree, founded by its own joins.
//!
//! A class has the rows that are estimated of the line that founds it, and of classes that are the same the first line counts. So the classes of the
//! tree are founded before steps come to them by other joins, and have the rows that the tree was chosen by.

use algebra::{ClassId, Condition, Conjuncts, Expr};
use join_trees::{
    Choice, JoinTree, LeafSet, Parts, Region, TreeNode, conditions_of, mentioned_leaves,
};
use memo::Memo;
use std::alloc::{AllocError, Global};

/// A condition of a region, and the leaves of which it mentions a column.
#[derive(Drop)]
struct RegionCondition {
    leaves: LeafSet,
    condition: Condition,
}

/// The class of a set of leaves.
#[derive(Clone, Copy, Drop)]
pub(crate) struct SetClass {
    pub set: LeafSet,
    pub class: ClassId,
}

/// Adds the conditions of a line that name no class.
fn add_conditions(
    alloc: Global,
    memo: &Memo<'_>,
    parts: &Parts,
    line: u32,
    conditions: &mut Vec<RegionCondition>,
) -> Result<(), AllocError> {
    for condition in conditions_of(memo.log(), line) {
        if condition.has_no_class() {
            let leaves = mentioned_leaves(alloc, memo.log(), &parts.leaves, condition)?;
            let condition = condition.copy(alloc)?;
            conditions.push(RegionCondition { leaves, condition })?;
        }
    }
    Ok(())
}

/// The conditions of a region.
fn region_conditions(
    alloc: Global,
    memo: &Memo<'_>,
    region: Region,
    parts: &Parts,
) -> Result<Vec<RegionCondition>, AllocError> {
    let mut conditions = Vec::new(alloc);
    for line in &parts.joins {
        add_conditions(alloc, memo, parts, *line, &mut conditions)?;
    }
    if let Some(line) = region.select {
        add_conditions(alloc, memo, parts, line, &mut conditions)?;
    }
    Ok(conditions)
}

/// The conditions over the set of a node that stand in neither side.
fn conditions_over(
    alloc: Global,
    conditions: &[RegionCondition],
    tree: &JoinTree,
    node: TreeNode,
) -> Result<Conjuncts, AllocError> {
    let left = tree.filtered(node.left);
    let right = tree.filtered(node.right);
    let mut over = Vec::new(alloc);
    for one in conditions {
        let leaves = one.leaves;
        let is_within = !leaves.is_empty() && leaves.is_within(node.set);
        if is_within && !leaves.is_within(left) && !leaves.is_within(right) {
            over.push(one.condition.copy(alloc)?)?;
        }
    }
    Conjuncts::of(alloc, over.as_slice())
}

pub(crate) fn class_of(classes: &[SetClass], set: LeafSet) -> Option<ClassId> {
    let found = classes.iter().find(|one| one.set == set)?;
    Some(found.class)
}

/// Founds the class of a join whose sides have theirs.
fn found_join(
    alloc: Global,
    memo: &mut Memo<'_>,
    conditions: &[RegionCondition],
    tree: &JoinTree,
    classes: &[SetClass],
    node: TreeNode,
) -> Result<Option<ClassId>, AllocError> {
    let Some(left) = class_of(classes, node.left) else {
        return Ok(None);
    };
    let Some(right) = class_of(classes, node.right) else {
        return Ok(None);
    };
    let conditions = conditions_over(alloc, conditions, tree, node)?;
    memo.intern(alloc, Expr::Join(conditions, left, right))
}

/// Founds the class of a leaf with the conditions on it alone, unless it is unfiltered.
fn found_leaf(
    alloc: Global,
    memo: &mut Memo<'_>,
    conditions: &[RegionCondition],
    tree: &JoinTree,
    leaf: TreeNode,
    class: ClassId,
) -> Result<Option<ClassId>, AllocError> {
    let conditions = conditions_over(alloc, conditions, tree, leaf)?;
    if leaf.is_unfiltered || conditions.as_slice().is_empty() {
        return Ok(Some(class));
    }
    memo.intern(alloc, Expr::Select(conditions, class))
}

/// Founds the classes of the tree's sets, each behind those of its sides. That of the whole is the region's own, unless subqueries are placed over it.
pub(crate) fn found_tree(
    alloc: Global,
    memo: &mut Memo<'_>,
    region: Region,
    parts: &Parts,
    choice: &Choice,
) -> Result<Vec<SetClass>, AllocError> {
    let tree = &choice.tree;
    let conditions = region_conditions(alloc, memo, region, parts)?;
    let mut classes = Vec::new(alloc);
    for (place, class) in parts.leaves.iter().enumerate() {
        let set = LeafSet::single(place);
        let leaf = tree.node(set);
        if let Some(class) = found_leaf(alloc, memo, conditions.as_slice(), tree, leaf, *class)? {
            classes.push(SetClass { set, class })?;
        }
    }
    let joins = tree.joins(alloc)?;
    for node in joins.iter().rev() {
        if node.set != tree.root().set || !choice.subqueries.is_empty() {
            let set = node.set;
            let class = found_join(
                alloc,
                memo,
                conditions.as_slice(),
                tree,
                classes.as_slice(),
                *node,
            )?;
            if let Some(class) = class {
                classes.push(SetClass { set, class })?;
            }
        }
    }
    Ok(classes)
}
