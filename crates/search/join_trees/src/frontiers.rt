//! Frontiers: the candidates of a set of which none is better in each respect.

use crate::candidates::{
    Candidate, CandidateKey, Criterion, NO_CANDIDATE, TreeNode, leaf_candidate,
};
use crate::join_graph::JoinGraph;
use crate::sets::LeafSet;

/// What a row costs above its set, where its matches are found by an index that isn't unique. By this weight a candidate is kept for its few rows.
const NARROW: u64 = 3_000;

/// Sets of subqueries and outer joins that are placed together with leaves.
pub(crate) const MOST_PLACED_SETS: usize = 8;

/// The candidates that are kept of a set. How many rows it has depends on how it is joined, since those of each join are rounded up. So beside the
/// least sum of cost and rows one is kept with few rows: above it they may cost more than they save below; and, of few leaves, one with the fewest. The second
/// one of a leaf is the unfiltered leaf: joined with its conditions in the join, it may have fewer rows than by rounding twice.
#[derive(Clone, Copy, Drop)]
pub(crate) struct Frontier {
    pub cheapest: Candidate,
    pub narrow: Candidate,
    pub fewest_rows: Candidate,
}

/// Of a set that is not looked at.
pub(crate) const NO_FRONTIER: Frontier = Frontier {
    cheapest: NO_CANDIDATE,
    narrow: NO_CANDIDATE,
    fewest_rows: NO_CANDIDATE,
};

impl Frontier {
    /// A leaf with the conditions on it alone, and without them, if there are any.
    pub(crate) fn of_leaf(graph: &JoinGraph, place: usize) -> Frontier {
        let cheapest = leaf_candidate(graph, place);
        let leaf = graph.leaf(place);
        let narrow = match leaf.selectivity {
            Some(selectivity) => Candidate {
                node: TreeNode {
                    rows: leaf.unfiltered_rows,
                    cost: leaf.unfiltered_cost,
                    is_unfiltered: true,
                    ..cheapest.node
                },
                deferred_selectivity: selectivity,
                ..cheapest.kept_by(Criterion::Narrow)
            },
            None => cheapest,
        };
        Frontier {
            cheapest,
            narrow,
            fewest_rows: cheapest,
        }
    }

    pub(crate) fn candidate(self, criterion: Criterion) -> Candidate {
        match criterion {
            Criterion::Cheapest => self.cheapest,
            Criterion::Narrow => self.narrow,
            Criterion::FewestRows => self.fewest_rows,
        }
    }

    pub(crate) fn is_empty(self) -> bool {
        self.cheapest.is_none()
    }

    /// Whether a candidate of this cost may be better than one that is kept for its cost. The first has no greater weight than the second.
    pub(crate) fn is_beaten_by(self, cost: u64) -> bool {
        self.narrow.is_none() || cost < self.narrow.weight(NARROW)
    }

    /// Whether a candidate has fewer rows than each that is kept, or as many at less cost.
    fn is_wider_than(self, found: Candidate) -> bool {
        let fewest = self.fewest_rows.node;
        let node = found.node;
        node.rows < fewest.rows
            || (node.rows == fewest.rows && node.cost < fewest.cost)
            || fewest.set.is_empty()
    }

    /// Keeps the candidate where it is better than one that is kept.
    pub(crate) fn keep(&mut self, found: Candidate) {
        if found.weight(1) < self.cheapest.weight(1) || self.cheapest.is_none() {
            self.cheapest = found.kept_by(Criterion::Cheapest);
        }
        if found.weight(NARROW) < self.narrow.weight(NARROW) || self.narrow.is_none() {
            self.narrow = found.kept_by(Criterion::Narrow);
        }
        if self.is_wider_than(found) {
            self.fewest_rows = found.kept_by(Criterion::FewestRows);
        }
    }

    /// The candidates that are worth a join beside the cheapest: they have fewer rows than those before, or are an unfiltered leaf, which costs less.
    pub(crate) fn others(self) -> [Option<Candidate>; 2] {
        let narrow = self.narrow;
        let fewest = self.fewest_rows;
        let is_narrow = narrow.node.rows < self.cheapest.node.rows || narrow.node.is_unfiltered;
        let is_fewest = fewest.node.rows < self.cheapest.node.rows
            && fewest.node.rows < narrow.node.rows;
        [
            if is_narrow { Some(narrow) } else { None },
            if is_fewest { Some(fewest) } else { None },
        ]
    }
}

/// The frontiers of one set, by what is placed in it.
#[derive(Clone, Copy, Drop)]
pub(crate) struct SetFrontiers {
    by_placed: [Frontier; MOST_PLACED_SETS],
}

impl SetFrontiers {
    pub(crate) fn none() -> SetFrontiers {
        SetFrontiers {
            by_placed: [NO_FRONTIER; MOST_PLACED_SETS],
        }
    }

    pub(crate) fn at(&self, placed: u8) -> Frontier {
        self.by_placed
            .get(usize::from(placed))
            .copied()
            .unwrap_or(NO_FRONTIER)
    }

    pub(crate) fn at_mut(&mut self, placed: u8) -> Option<&mut Frontier> {
        self.by_placed.get_mut(usize::from(placed))
    }
}

/// The frontiers of all subsets of a few leaves, by what is placed in them.
#[derive(Drop)]
pub(crate) struct FrontierTable {
    pub frontiers: Vec<Frontier>,
    /// How many sets of placeables there are.
    pub placed_sets: u8,
    /// The whole, where its rows cost nothing above it, since all placeables are placed in it.
    pub last: LeafSet,
}

impl FrontierTable {
    fn place(&self, set: LeafSet, placed: u8) -> usize {
        set.number()
            .saturating_mul(usize::from(self.placed_sets))
            .saturating_add(usize::from(placed))
    }

    pub(crate) fn at(&self, set: LeafSet, placed: u8) -> Frontier {
        self.frontiers
            .get(self.place(set, placed))
            .copied()
            .unwrap_or(NO_FRONTIER)
    }

    pub(crate) fn candidate(&self, set: LeafSet, key: CandidateKey) -> Candidate {
        self.at(set, key.placed).candidate(key.criterion)
    }

    /// Whether all is placed in the whole, whose rows cost nothing above it.
    pub(crate) fn is_last(&self, set: LeafSet, placed: u8) -> bool {
        set == self.last && placed.saturating_add(1) == self.placed_sets
    }

    pub(crate) fn put(&mut self, set: LeafSet, placed: u8, frontier: Frontier) {
        let place = self.place(set, placed);
        if let Some(at) = self.frontiers.get_mut(place) {
            *at = frontier;
        }
    }
}
