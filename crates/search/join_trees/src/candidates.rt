//! Candidates: join trees of a set of leaves, each by its topmost node, with what the choice above it needs to know.

use crate::join_graph::JoinGraph;
use crate::placeables::Placeable;
use crate::sets::LeafSet;
use crate::table_costs::join_inputs;
use costs::{ALL, Estimate, join_cost, sum, with_each};
use physical::JoinMethod;

/// A node of a join tree, a leaf or a join, with what is estimated of it and all below it.
#[derive(Clone, Copy, Drop)]
pub struct TreeNode {
    pub set: LeafSet,
    pub rows: u64,
    pub cost: u64,
    /// The sides of a join; none of a leaf.
    pub left: LeafSet,
    pub right: LeafSet,
    /// Whether the right side is a leaf whose matches are found by an index.
    pub is_probed: bool,
    /// Whether it is a leaf without the conditions on it alone, which are those of the join above it.
    pub is_unfiltered: bool,
}

/// What is no node.
pub(crate) const NO_NODE: TreeNode = TreeNode {
    set: LeafSet::EMPTY,
    rows: 0,
    cost: u64::MAX,
    left: LeafSet::EMPTY,
    right: LeafSet::EMPTY,
    is_probed: false,
    is_unfiltered: false,
};

/// By what a candidate is one of those that are kept of its set.
#[derive(Clone, Copy, Drop)]
pub(crate) enum Criterion {
    /// The least sum of cost and rows.
    Cheapest,
    /// A small sum of cost and many times its rows.
    Narrow,
    /// The fewest rows.
    FewestRows,
}

/// By what a candidate is found among those of its set: what is placed in it, as bits, and its criterion.
#[derive(Clone, Copy, Drop)]
pub(crate) struct CandidateKey {
    pub placed: u8,
    pub criterion: Criterion,
}

/// From what a candidate is made.
#[derive(Clone, Copy, Drop)]
pub(crate) enum Origin {
    Leaf,
    /// The candidates of the sides of a join.
    Join(CandidateKey, CandidateKey),
    /// The bit of what is placed over all rows of another candidate of the set.
    Placed(u8, CandidateKey),
}

#[derive(Clone, Copy, Drop)]
pub(crate) struct Candidate {
    pub node: TreeNode,
    /// The leaves that an equality connects with some of the set.
    pub neighbors: LeafSet,
    /// The selectivity of the conditions on an unfiltered leaf, which the join above it evaluates.
    pub deferred_selectivity: u64,
    pub key: CandidateKey,
    pub origin: Origin,
}

/// Of a set that is not looked at.
pub(crate) const NO_CANDIDATE: Candidate = Candidate {
    node: NO_NODE,
    neighbors: LeafSet::EMPTY,
    deferred_selectivity: ALL,
    key: CandidateKey {
        placed: 0,
        criterion: Criterion::Cheapest,
    },
    origin: Origin::Leaf,
};

impl Candidate {
    pub(crate) fn is_none(self) -> bool {
        self.node.set.is_empty()
    }

    fn estimate(self) -> Estimate {
        Estimate {
            rows: self.node.rows,
            cost: self.node.cost,
        }
    }

    /// What it costs and what is still to be done with its rows, if each costs so much.
    pub(crate) fn weight(self, each: u64) -> u64 {
        with_each(self.node.cost, self.node.rows, each)
    }

    /// The same, as one that is kept by a criterion.
    pub(crate) fn kept_by(self, criterion: Criterion) -> Candidate {
        Candidate {
            key: CandidateKey {
                criterion,
                ..self.key
            },
            ..self
        }
    }

    /// The same with so many rows.
    pub(crate) fn with_rows(self, rows: u64) -> Candidate {
        Candidate {
            node: TreeNode { rows, ..self.node },
            ..self
        }
    }

    /// Its rows, over which the placeable of this bit is evaluated.
    pub(crate) fn placing(self, placeable: Placeable, bit: u8) -> Candidate {
        let node = TreeNode {
            rows: placeable.rows(self.node.rows),
            cost: sum(self.node.cost, placeable.cost(self.node.rows)),
            ..self.node
        };
        let key = CandidateKey {
            placed: self.key.placed | bit,
            criterion: Criterion::Cheapest,
        };
        Candidate {
            node,
            key,
            origin: Origin::Placed(bit, self.key),
            ..self
        }
    }
}

/// A leaf with the conditions on it alone.
pub(crate) fn leaf_candidate(graph: &JoinGraph, place: usize) -> Candidate {
    let leaf = graph.leaf(place);
    let set = LeafSet::single(place);
    let node = TreeNode {
        set,
        rows: leaf.rows(),
        cost: leaf.cost(),
        ..NO_NODE
    };
    Candidate {
        node,
        neighbors: graph.neighbors_of(set),
        ..NO_CANDIDATE
    }
}

/// The cost of a hash join or a nested loop, whichever is less.
fn pairing_cost(left: Candidate, right: Candidate) -> u64 {
    let inputs = join_inputs(left.estimate(), right.estimate());
    let nested_loop = join_cost(JoinMethod::NestedLoop, inputs);
    if !left.neighbors.meets(right.node.set) {
        return nested_loop;
    }
    join_cost(JoinMethod::Hash, inputs).min(nested_loop)
}

/// The cost of finding the matches of the left rows in a leaf by an index, if there is one.
fn probing_cost(graph: &JoinGraph, left: Candidate, right: Candidate) -> Option<u64> {
    let leaf = right.node.set;
    if leaf.count() != 1 || right.key.placed != 0 || !left.neighbors.meets(leaf) {
        return None;
    }
    let each = graph.probe(left.node.set, leaf)?;
    Some(with_each(left.node.cost, left.node.rows, each))
}

/// The join of two sides, which has so many rows.
fn join_of(graph: &JoinGraph, left: Candidate, right: Candidate, rows: u64) -> Candidate {
    let mut cost = pairing_cost(left, right);
    let mut is_probed = false;
    if let Some(probing) = probing_cost(graph, left, right) {
        if probing <= cost {
            cost = probing;
            is_probed = true;
        }
    }
    Candidate {
        node: TreeNode {
            set: left.node.set.union(right.node.set),
            rows,
            cost,
            left: left.node.set,
            right: right.node.set,
            is_probed,
            is_unfiltered: false,
        },
        neighbors: left.neighbors.union(right.neighbors),
        deferred_selectivity: ALL,
        key: CandidateKey {
            placed: left.key.placed | right.key.placed,
            criterion: Criterion::Cheapest,
        },
        origin: Origin::Join(left.key, right.key),
    }
}

/// The join of two sides either way round.
pub(crate) fn cheaper_join(
    graph: &JoinGraph,
    first: Candidate,
    second: Candidate,
    rows: u64,
) -> Candidate {
    let one = join_of(graph, first, second, rows);
    let other = join_of(graph, second, first, rows);
    if other.node.cost < one.node.cost {
        other
    } else {
        one
    }
}
