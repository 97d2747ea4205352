//! Join trees.

use crate::candidates::{NO_NODE, TreeNode};
use crate::exhaustive::{MOST_EXHAUSTIVE, MOST_SUBSETS, cheapest_tree};
use crate::greedy::greedy_tree;
use crate::join_graph::JoinGraph;
use crate::sets::{LeafSet, MOST_LEAVES};
use std::alloc::{AllocError, Global};

/// A join tree: its nodes, the root last; and for each subquery and behind these for each outer join its placement, the set over whose rows it is evaluated.
#[derive(Drop)]
pub struct JoinTree {
    pub(crate) nodes: Vec<TreeNode>,
    pub placements: Vec<LeafSet>,
    /// The numbers of those that were placed together with the leaves: what is evaluated over the rows that others leave before these.
    pub placed_top_down: Vec<usize>,
}

impl JoinTree {
    /// What has no nodes yet, and nothing placed.
    pub(crate) fn without_nodes(alloc: Global, graph: &JoinGraph) -> Result<JoinTree, AllocError> {
        Ok(JoinTree {
            nodes: Vec::new(alloc),
            placements: Vec::from_elem(alloc, LeafSet::EMPTY, graph.placeables.len())?,
            placed_top_down: Vec::new(alloc),
        })
    }

    /// The tree of least cost where the leaves are few, or else one that was chosen greedily.
    pub fn of(alloc: Global, graph: &JoinGraph) -> Result<JoinTree, AllocError> {
        let count = graph.leaves.len();
        let mut tree = if count <= MOST_EXHAUSTIVE {
            cheapest_tree(alloc, graph, count)?
        } else {
            greedy_tree(alloc, graph, count)?
        };
        for (place, placeable) in graph.placeables.iter().enumerate() {
            let narrowest = tree.narrowest(placeable.leaves());
            if let Some(placement) = tree.placements.get_mut(place) {
                if placement.is_empty() {
                    *placement = narrowest;
                }
            }
        }
        Ok(tree)
    }

    /// The set of the tree with the fewest rows that has these leaves, but for leaves that are unfiltered or probed by an index.
    fn narrowest(&self, leaves: LeafSet) -> LeafSet {
        let mut found = self.root();
        let mut probed = LeafSet::EMPTY;
        for node in &self.nodes {
            if node.is_probed {
                probed = probed.union(node.right);
            }
        }
        for node in &self.nodes {
            let is_kept = node.is_unfiltered || (node.set.count() == 1 && node.set.meets(probed));
            if leaves.is_within(node.set) && !is_kept && node.rows < found.rows {
                found = *node;
            }
        }
        found.set
    }

    /// The node of a set of the tree.
    pub fn node(&self, set: LeafSet) -> TreeNode {
        let mut found = NO_NODE;
        for node in &self.nodes {
            if node.set == set {
                found = *node;
            }
        }
        found
    }

    /// The leaves of a side whose conditions stand in it: of an unfiltered leaf none.
    pub fn filtered(&self, side: LeafSet) -> LeafSet {
        if self.node(side).is_unfiltered {
            LeafSet::EMPTY
        } else {
            side
        }
    }

    /// The node of all leaves.
    pub fn root(&self) -> TreeNode {
        self.nodes.last().copied().unwrap_or(NO_NODE)
    }

    /// The joins of the tree, each before those of its sides.
    pub fn joins(&self, alloc: Global) -> Result<Vec<TreeNode>, AllocError> {
        let mut joins = Vec::new(alloc);
        let mut open = Vec::new(alloc);
        open.push(self.root())?;
        for _ in 0..MOST_SUBSETS {
            let Some(node) = open.pop() else {
                break;
            };
            if node.set.count() > 1 {
                joins.push(node)?;
                open.push(self.node(node.left))?;
                open.push(self.node(node.right))?;
            }
        }
        Ok(joins)
    }

    /// How many leaves the least set of the tree has that has all of these.
    fn enclosing(joins: &[TreeNode], leaves: LeafSet) -> u32 {
        let mut least = u32::MAX;
        for join in joins {
            if leaves.is_within(join.set) {
                least = least.min(join.set.count());
            }
        }
        least
    }

    /// A leaf that is joined as early as any: the last of the tree, where the side with more leaves is taken each time.
    fn deepest(&self) -> LeafSet {
        let mut current = self.root();
        for _ in 0..MOST_LEAVES {
            if current.set.count() > 1 {
                let side = if current.left.count() <= current.right.count() {
                    current.right
                } else {
                    current.left
                };
                current = self.node(side);
            }
        }
        current.set
    }

    /// The leaf that is to be joined next to those that are: of the least set of the tree that has them all, one that an equality connects with them.
    fn next_leaf(&self, graph: &JoinGraph, joins: &[TreeNode], joined: LeafSet) -> Option<usize> {
        let neighbors = graph.neighbors_of(joined);
        let mut found: Option<usize> = None;
        let mut least = u32::MAX;
        let mut is_found_near = false;
        for place in 0..graph.leaves.len() {
            if !joined.has(place) {
                let size = JoinTree::enclosing(joins, joined.union(LeafSet::single(place)));
                let is_near = neighbors.has(place);
                let is_nearer = size == least && is_near && !is_found_near;
                if size < least || is_nearer || found.is_none() {
                    found = Some(place);
                    least = size;
                    is_found_near = is_near;
                }
            }
        }
        found
    }

    /// The leaves in an order in which they may be joined one by one, that which comes first being the last.
    pub fn order(&self, alloc: Global, graph: &JoinGraph) -> Result<Vec<usize>, AllocError> {
        let joins = self.joins(alloc)?;
        let mut order = Vec::new(alloc);
        let mut joined = self.deepest();
        if !joined.is_empty() {
            order.push(joined.lowest())?;
        }
        for _ in 0..MOST_LEAVES {
            if let Some(place) = self.next_leaf(graph, &joins, joined) {
                joined = joined.union(LeafSet::single(place));
                order.push(place)?;
            }
        }
        order.reverse();
        Ok(order)
    }
}
