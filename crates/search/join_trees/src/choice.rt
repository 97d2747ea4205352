//! What is chosen for a region.

use crate::join_graph::JoinGraph;
use crate::join_tree::JoinTree;
use crate::left_joins::OuterJoin;
use crate::log_estimates::LogEstimates;
use crate::regions::{Parts, Region};
use crate::subqueries::Subquery;
use costs::Cardinalities;
use logs::Log;
use statistics::Statistics;
use std::alloc::{AllocError, Global};

/// What is chosen for a region: its tree, the order in which its leaves are joined one by one, and the subqueries that are placed in the tree.
#[derive(Drop)]
pub struct Choice {
    pub tree: JoinTree,
    pub order: Vec<usize>,
    pub subqueries: Vec<Subquery>,
}

/// Chooses the tree of a region, by what is estimated of its leaves and conditions, and of the outer joins above it, the lowest first.
pub fn choose(
    alloc: Global,
    log: &Log<'_>,
    statistics: &Statistics,
    region: Region,
    parts: &Parts,
    outer: &[OuterJoin<'_>],
) -> Result<Choice, AllocError> {
    let cardinalities = Cardinalities::of(alloc, statistics, log)?;
    let estimates = LogEstimates {
        log,
        statistics,
        cardinalities: &cardinalities,
    };
    let mut graph = JoinGraph::of(alloc, estimates, region, parts)?;
    graph.note_outer(alloc, estimates, &parts.leaves, outer)?;
    let tree = JoinTree::of(alloc, &graph)?;
    let order = tree.order(alloc, &graph)?;
    let JoinGraph { subqueries, .. } = graph;
    Ok(Choice {
        tree,
        order,
        subqueries,
    })
}
