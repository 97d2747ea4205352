//! The seed of a log.

use crate::correlated::split_correlated;
use crate::filter_pushdown::{FilterPushdown, push_condition, push_selection, right_deep};
use crate::founding::found_tree;
use crate::left_join_pushdown::{LeftJoinLine, left_joins_above, place_left_joins};
use crate::nodes::Nodes;
use crate::reaching::reach;
use crate::subquery_placement::{PlacedSubqueries, place_below_probing, place_subqueries};
use algebra::{ClassId, LineId};
use join_trees::{
    Choice, JoinTree, LeafSet, MOST_LEAVES, OuterJoin, Parts, Region, choose, founding_sides,
    parts_of, place_of, regions_of,
};
use memo::Memo;
use statistics::Statistics;
use std::alloc::{AllocError, Global};

/// The leaves that are filtered before they are joined: all but those whose matches are found by an index, and those that are unfiltered in the tree.
fn filtered_leaves(alloc: Global, tree: &JoinTree, count: usize) -> Result<LeafSet, AllocError> {
    let mut filtered = LeafSet::EMPTY;
    for place in 0..count {
        filtered = filtered.union(tree.filtered(LeafSet::single(place)));
    }
    for join in tree.joins(alloc)? {
        if join.is_probed {
            filtered = filtered.minus(join.right);
        }
    }
    Ok(filtered)
}

/// The number of the node of a class: leaves have the first numbers, and those of joins are listed.
fn node_of(parts: &Parts, built: &[usize], class: ClassId) -> usize {
    match place_of(&parts.leaves, class) {
        Some(place) => place,
        None => match place_of(&parts.joins, class) {
            Some(place) => built.get(place).copied().unwrap_or(usize::MAX),
            None => usize::MAX,
        },
    }
}

/// Adds the nodes of a region's joins as they stand, with conditions on one side alone pushed to that. The last one is that of the region.
fn add_joins(
    alloc: Global,
    memo: &mut Memo<'_>,
    nodes: &mut Nodes,
    pushdown: FilterPushdown<'_>,
    parts: &Parts,
) -> Result<Option<usize>, AllocError> {
    let mut built = Vec::new(alloc);
    for place in 0..parts.leaves.len() {
        let _ = nodes.add_leaf(parts.leaves[place], LeafSet::single(place))?;
    }
    for line in &parts.joins {
        let mut number = usize::MAX;
        if let Some(sides) = founding_sides(memo.log(), *line) {
            let left = node_of(parts, &built, sides.left);
            let right = node_of(parts, &built, sides.right);
            if let Some(join) = nodes.add_join(*line, Some(*line), left, right)? {
                number = push_condition(alloc, memo, nodes, pushdown, join)?;
            }
        }
        built.push(number)?;
    }
    Ok(built.last().copied())
}

/// Seeds a region for which a tree is chosen.
fn seed_tree(
    alloc: Global,
    memo: &mut Memo<'_>,
    region: Region,
    parts: &Parts,
    choice: &Choice,
    above: &[LeftJoinLine],
) -> Result<(), AllocError> {
    let tree = &choice.tree;
    let classes = found_tree(alloc, memo, region, parts, choice)?;
    let placed = PlacedSubqueries {
        tree,
        classes: classes.as_slice(),
        subqueries: choice.subqueries.as_slice(),
    };
    if !placed.subqueries.is_empty() {
        place_subqueries(alloc, memo, placed)?;
    }
    let pushdown = FilterPushdown {
        leaves: &parts.leaves,
        filtered: filtered_leaves(alloc, tree, parts.leaves.len())?,
        order: &choice.order,
    };
    let mut nodes = Nodes::new(alloc);
    let Some(top) = add_joins(alloc, memo, &mut nodes, pushdown, parts)? else {
        return Ok(());
    };
    let top = match region.select {
        Some(line) => push_selection(alloc, memo, &mut nodes, pushdown, line, top)?,
        None => right_deep(alloc, memo, &mut nodes, pushdown.order, top)?,
    };
    reach(alloc, memo, &mut nodes, pushdown, tree, top)?;
    place_below_probing(alloc, memo, placed)?;
    let whole = class_of_region(memo, region);
    place_left_joins(alloc, memo, &parts.leaves, choice, above, whole, classes)
}

/// The class of a region.
fn class_of_region(memo: &Memo<'_>, region: Region) -> ClassId {
    match memo.log().member(region.select.unwrap_or(region.join)) {
        Some(member) => member.class,
        None => region.join,
    }
}

/// Seeds a region. What its tree is estimated to cost, if one is chosen.
fn seed_region(
    alloc: Global,
    memo: &mut Memo<'_>,
    statistics: &Statistics,
    region: Region,
) -> Result<Option<u64>, AllocError> {
    let parts = parts_of(alloc, memo.log(), region.join)?;
    if parts.leaves.len() > MOST_LEAVES {
        return Ok(None);
    }
    let above = left_joins_above(alloc, memo, class_of_region(memo, region))?;
    let mut outer = Vec::new(alloc);
    for one in &above {
        outer.push(OuterJoin {
            condition: &one.condition,
            right: one.right,
        })?;
    }
    let choice = choose(
        alloc,
        memo.log(),
        statistics,
        region,
        &parts,
        outer.as_slice(),
    )?;
    seed_tree(alloc, memo, region, &parts, &choice, above.as_slice())?;
    Ok(Some(choice.tree.root().cost))
}

/// The regions of a log, those whose selections are among these lines first.
fn regions_from(
    alloc: Global,
    memo: &Memo<'_>,
    first: &[LineId],
) -> Result<Vec<Region>, AllocError> {
    let mut regions = Vec::new(alloc);
    let mut others = Vec::new(alloc);
    for region in regions_of(alloc, memo.log())? {
        let is_first = region.select.is_some_and(|line| first.contains(&line));
        if is_first {
            regions.push(region)?;
        } else {
            others.push(region)?;
        }
    }
    for region in others {
        regions.push(region)?;
    }
    Ok(regions)
}

/// Adds lines to a log so that for each region of inner joins a tree that seems good is among its plans. What these trees are estimated to
/// cost together, without what stands above them, if any is chosen. What a subquery selects by its own rows alone comes first, since what it costs to evaluate the
/// subquery over other rows depends on that.
pub fn seed(
    alloc: Global,
    memo: &mut Memo<'_>,
    statistics: &Statistics,
) -> Result<Option<u64>, AllocError> {
    let uncorrelated = split_correlated(alloc, memo)?;
    let mut all: Option<u64> = None;
    for region in regions_from(alloc, memo, uncorrelated.as_slice())? {
        if let Some(cost) = seed_region(alloc, memo, statistics, region)? {
            all = Some(all.unwrap_or(0).saturating_add(cost));
        }
    }
    Ok(all)
}
