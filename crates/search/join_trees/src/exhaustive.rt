//! The join tree of few leaves, by dynamic programming over their subsets.

use crate::candidates::{Candidate, Origin, cheaper_join};
use crate::frontiers::{Frontier, FrontierTable, MOST_PLACED_SETS, NO_FRONTIER, SetFrontiers};
use crate::join_graph::JoinGraph;
use crate::join_tree::JoinTree;
use crate::selectivities::CombinedSelectivity;
use crate::sets::LeafSet;
use costs::product;
use std::alloc::{AllocError, Global};

/// Up to so many leaves every subset is looked at.
pub(crate) const MOST_EXHAUSTIVE: usize = 12;

/// As many subsets as so many leaves have.
pub(crate) const MOST_SUBSETS: usize = 4096;

/// So many leaves and placeables are placed together at most, and so many placeables. For others a place is taken in the tree that is chosen without them.
const MOST_TOGETHER: usize = 13;

const MOST_PLACED: usize = 3;

/// The bits of placeables in sets of those that are placed, by their places.
const BITS: [u8; MOST_PLACED] = [1, 2, 4];

/// Over so many leaves at most the candidate with the fewest rows of each set is looked for.
const MOST_COUNTED: usize = 9;

/// Two sides that are joined, each by one of its candidates.
#[derive(Drop)]
struct FrontierPair<'a> {
    graph: &'a JoinGraph,
    left: Frontier,
    right: Frontier,
    /// How many rows they have together, where that is known, however they are joined.
    rows: Option<u64>,
    /// The selectivity of the conditions over both, once it was asked for.
    selectivity: Option<CombinedSelectivity>,
}

impl FrontierPair<'_> {
    fn join_selectivity(&mut self) -> CombinedSelectivity {
        match self.selectivity {
            Some(selectivity) => selectivity,
            None => {
                let left = self.left.cheapest.node.set;
                let right = self.right.cheapest.node.set;
                let selectivity = self.graph.join_selectivity(left, right);
                self.selectivity = Some(selectivity);
                selectivity
            }
        }
    }

    /// Tries the join of these candidates of the sides.
    fn try_join(&mut self, left: Candidate, right: Candidate, frontier: &mut Frontier) {
        let found = cheaper_join(self.graph, left, right, 0);
        let is_counted = self.rows.is_none() && self.graph.leaves.len() <= MOST_COUNTED;
        if !is_counted && !frontier.is_beaten_by(found.node.cost) {
            return;
        }
        let rows = match self.rows {
            Some(rows) => rows,
            None => self
                .join_selectivity()
                .also(left.deferred_selectivity)
                .also(right.deferred_selectivity)
                .of(product(left.node.rows, right.node.rows)),
        };
        frontier.keep(found.with_rows(rows));
    }

    /// Tries the joins of a left candidate with the right ones.
    fn try_right(
        &mut self,
        left: Candidate,
        others: [Option<Candidate>; 2],
        frontier: &mut Frontier,
    ) {
        self.try_join(left, self.right.cheapest, frontier);
        for right in others {
            if let Some(right) = right {
                self.try_join(left, right, frontier);
            }
        }
    }

    /// Tries the joins of all candidates of the sides.
    fn try_all(&mut self, frontier: &mut Frontier) {
        let others = self.right.others();
        self.try_right(self.left.cheapest, others, frontier);
        for left in self.left.others() {
            if let Some(left) = left {
                self.try_right(left, others, frontier);
            }
        }
    }
}

/// How many rows come of so many where these are placed over them.
fn placed_rows(graph: &JoinGraph, placed: u8, rows: u64) -> u64 {
    let mut left = rows;
    for (placeable, bit) in graph.placeables.iter().zip(BITS) {
        if placed & bit != 0 {
            left = placeable.rows(left);
        }
    }
    left
}

/// Tries the joins of two sets, each with some of the placeables placed in it. How many rows the set has without any may be known.
fn try_sides(
    graph: &JoinGraph,
    table: &FrontierTable,
    left: LeafSet,
    right: LeafSet,
    known: Option<u64>,
    frontiers: &mut SetFrontiers,
) {
    let set = left.union(right);
    let mut selectivity: Option<CombinedSelectivity> = None;
    for left_placed in 0..table.placed_sets {
        let first = table.at(left, left_placed);
        for right_placed in 0..table.placed_sets {
            let second = table.at(right, right_placed);
            let is_apart = left_placed & right_placed == 0;
            if is_apart && !first.is_empty() && !second.is_empty() {
                let placed = left_placed | right_placed;
                let rows = if table.is_last(set, placed) {
                    Some(0)
                } else {
                    known.map(|rows| placed_rows(graph, placed, rows))
                };
                let mut pair = FrontierPair {
                    graph,
                    left: first,
                    right: second,
                    rows,
                    selectivity,
                };
                if let Some(frontier) = frontiers.at_mut(placed) {
                    pair.try_all(frontier);
                }
                selectivity = pair.selectivity;
            }
        }
    }
}

/// Tries each placeable over the rows of a set.
fn try_placements(
    graph: &JoinGraph,
    table: &FrontierTable,
    set: LeafSet,
    frontiers: &mut SetFrontiers,
) {
    for placed in 0..table.placed_sets {
        for (placeable, bit) in graph.placeables.iter().zip(BITS) {
            if placed & bit != 0 && placeable.leaves().is_within(set) {
                let below = frontiers.at(placed & !bit);
                if let Some(frontier) = frontiers.at_mut(placed) {
                    for candidate in [below.cheapest, below.narrow, below.fewest_rows] {
                        if !candidate.is_none() && !candidate.node.is_unfiltered {
                            let found = candidate.placing(*placeable, bit);
                            let is_last = table.is_last(set, placed);
                            frontier.keep(if is_last { found.with_rows(0) } else { found });
                        }
                    }
                }
            }
        }
    }
}

/// The frontiers of a set, those of whose subsets are known.
fn frontiers_of(graph: &JoinGraph, table: &FrontierTable, set: LeafSet) -> SetFrontiers {
    let mut frontiers = SetFrontiers::none();
    if set.count() == 1 {
        if let Some(frontier) = frontiers.at_mut(0) {
            *frontier = Frontier::of_leaf(graph, set.lowest());
        }
    }
    let known = graph.region_join_rows(set);
    let others = set.minus(LeafSet::single(set.lowest()));
    let mut part = others;
    for _ in 0..MOST_SUBSETS {
        if part.is_empty() {
            break;
        }
        try_sides(graph, table, set.minus(part), part, known, &mut frontiers);
        part = part.before(others);
    }
    try_placements(graph, table, set, &mut frontiers);
    frontiers
}

/// How many placeables are placed together with the leaves.
fn count_placed(graph: &JoinGraph) -> usize {
    let most = MOST_TOGETHER.saturating_sub(graph.leaves.len());
    most.min(MOST_PLACED).min(graph.placeables.len())
}

/// The frontiers of all subsets of a few leaves.
fn frontier_table(
    alloc: Global,
    graph: &JoinGraph,
    whole: LeafSet,
) -> Result<FrontierTable, AllocError> {
    let placed = count_placed(graph);
    let placed_sets = match placed {
        0 => 1,
        1 => 2,
        2 => 4,
        _ => 8,
    };
    let sets = whole.number().saturating_add(1);
    let count = sets.saturating_mul(usize::from(placed_sets));
    let mut table = FrontierTable {
        frontiers: Vec::from_elem(alloc, NO_FRONTIER, count)?,
        placed_sets,
        last: if placed == graph.placeables.len() {
            whole
        } else {
            LeafSet::EMPTY
        },
    };
    for number in 1..sets {
        let set = LeafSet(number as u64);
        let frontiers = frontiers_of(graph, &table, set);
        for placed in 0..placed_sets {
            table.put(set, placed, frontiers.at(placed));
        }
    }
    Ok(table)
}

/// Notes where what has this bit is placed.
fn note_placement(tree: &mut JoinTree, bit: u8, set: LeafSet) -> Result<(), AllocError> {
    for (number, other) in BITS.iter().enumerate() {
        if bit == *other {
            tree.placed_top_down.push(number)?;
            if let Some(placement) = tree.placements.get_mut(number) {
                *placement = set;
            }
        }
    }
    Ok(())
}

/// The tree of the cheapest candidate of all leaves.
pub(crate) fn cheapest_tree(
    alloc: Global,
    graph: &JoinGraph,
    count: usize,
) -> Result<JoinTree, AllocError> {
    let whole = LeafSet::first(count);
    let table = frontier_table(alloc, graph, whole)?;
    let mut tree = JoinTree::without_nodes(alloc, graph)?;
    let mut open = Vec::new(alloc);
    let all = table.placed_sets.saturating_sub(1);
    open.push(table.at(whole, all).cheapest)?;
    for _ in 0..MOST_SUBSETS {
        let Some(Candidate { node, origin, .. }) = open.pop() else {
            break;
        };
        match origin {
            Origin::Leaf => tree.nodes.push(node)?,
            Origin::Join(left, right) => {
                tree.nodes.push(node)?;
                open.push(table.candidate(node.left, left))?;
                open.push(table.candidate(node.right, right))?;
            }
            Origin::Placed(bit, below) => {
                note_placement(&mut tree, bit, node.set)?;
                open.push(table.candidate(node.set, below))?;
            }
        }
    }
    tree.nodes.reverse();
    Ok(tree)
}
