//! The join tree of many leaves, chosen greedily.

use crate::candidates::{Candidate, NO_CANDIDATE, cheaper_join, leaf_candidate};
use crate::join_graph::JoinGraph;
use crate::join_tree::JoinTree;
use costs::product;
use std::alloc::{AllocError, Global};

/// Two of the parts, by their places.
#[derive(Clone, Copy, Drop)]
struct Pair {
    low: usize,
    high: usize,
    is_product: bool,
    rows: u64,
}

fn is_before(pair: Pair, other: Option<Pair>) -> bool {
    match other {
        Some(other) => {
            if pair.is_product != other.is_product {
                other.is_product
            } else {
                pair.rows < other.rows
            }
        }
        None => true,
    }
}

/// The pair whose join has the fewest rows, products last.
fn least_pair(graph: &JoinGraph, parts: &[Candidate]) -> Option<Pair> {
    let mut least: Option<Pair> = None;
    for (high, second) in parts.iter().enumerate() {
        for (low, first) in parts.iter().enumerate().take(high) {
            let pairs = product(first.node.rows, second.node.rows);
            let rows = graph.join_rows(first.node.set, second.node.set, pairs);
            let is_product = !first.neighbors.meets(second.node.set);
            let pair = Pair {
                low,
                high,
                is_product,
                rows,
            };
            if is_before(pair, least) {
                least = Some(pair);
            }
        }
    }
    least
}

/// Joins a pair, which takes the place of the lower part.
fn join_pair(graph: &JoinGraph, parts: &mut Vec<Candidate>, pair: Pair) -> Candidate {
    let first = parts.get(pair.low).copied().unwrap_or(NO_CANDIDATE);
    let second = parts.get(pair.high).copied().unwrap_or(NO_CANDIDATE);
    let joined = cheaper_join(graph, first, second, pair.rows);
    if pair.high < parts.len() {
        parts.swap_remove(pair.high);
    }
    if let Some(part) = parts.get_mut(pair.low) {
        *part = joined;
    }
    joined
}

/// The tree in which the pair with the fewest rows is joined, again and again.
pub(crate) fn greedy_tree(
    alloc: Global,
    graph: &JoinGraph,
    count: usize,
) -> Result<JoinTree, AllocError> {
    let mut tree = JoinTree::without_nodes(alloc, graph)?;
    let mut parts = Vec::new(alloc);
    for place in 0..count {
        let leaf = leaf_candidate(graph, place);
        tree.nodes.push(leaf.node)?;
        parts.push(leaf)?;
    }
    for _ in 1..count {
        if let Some(pair) = least_pair(graph, &parts) {
            tree.nodes.push(join_pair(graph, &mut parts, pair).node)?;
        }
    }
    Ok(tree)
}
