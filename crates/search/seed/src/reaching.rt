//! From any join tree to the one that is chosen.

use crate::filter_pushdown::{FilterPushdown, MOST_DEEP, push_condition};
use crate::nodes::Nodes;
use join_trees::{JoinTree, LeafSet};
use memo::Memo;
use std::alloc::{AllocError, Global};

/// Most joins that are looked at.
const MOST_JOINS: usize = 256;

/// Adds the joins of the tree, the topmost first, each with its sides both ways round, and with filtered leaves where they were
/// unfiltered.
pub(crate) fn reach(
    alloc: Global,
    memo: &mut Memo<'_>,
    nodes: &mut Nodes,
    pushdown: FilterPushdown<'_>,
    tree: &JoinTree,
    number: usize,
) -> Result<(), AllocError> {
    let all = FilterPushdown {
        leaves: pushdown.leaves,
        filtered: LeafSet::first(pushdown.leaves.len()),
        order: pushdown.order,
    };
    let mut open = Vec::new(alloc);
    open.push(number)?;
    for _ in 0..MOST_JOINS {
        let Some(number) = open.pop() else {
            break;
        };
        let wanted = tree.node(nodes.node(number).set).left;
        if let Some(split) = nodes.split(alloc, memo, number, wanted, MOST_DEEP)? {
            let _ = nodes.commuted(alloc, memo, split)?;
            let pushed = push_condition(alloc, memo, nodes, all, split)?;
            let _ = nodes.commuted(alloc, memo, pushed)?;
            if let Some((left, right)) = nodes.sides(split) {
                open.push(left)?;
                open.push(right)?;
            }
        }
    }
    Ok(())
}
