//! Whether join graphs are connected.

use crate::log_estimates::mentioned_leaves;
use crate::regions::{Parts, Region, conditions_of, parts_of, regions_of};
use crate::sets::{LeafSet, MOST_LEAVES};
use algebra::LineId;
use logs::Log;
use std::alloc::{AllocError, Global};

/// Connected components of leaves, of which those that have some of these become one.
fn united(alloc: Global, sets: &[LeafSet], leaves: LeafSet) -> Result<Vec<LeafSet>, AllocError> {
    let mut components = Vec::new(alloc);
    let mut together = leaves;
    for set in sets {
        if set.meets(leaves) {
            together = together.union(*set);
        } else {
            components.push(*set)?;
        }
    }
    components.push(together)?;
    Ok(components)
}

/// Connects the leaves that a condition of the line mentions.
fn connect(
    alloc: Global,
    log: &Log<'_>,
    parts: &Parts,
    line: LineId,
    sets: Vec<LeafSet>,
) -> Result<Vec<LeafSet>, AllocError> {
    let mut sets = sets;
    for condition in conditions_of(log, line) {
        let leaves = mentioned_leaves(alloc, log, &parts.leaves, condition)?;
        if leaves.count() > 1 {
            sets = united(alloc, &sets, leaves)?;
        }
    }
    Ok(sets)
}

/// Whether the join graph of a region is connected. Of more leaves than a set holds it is said that it is.
fn is_connected(alloc: Global, log: &Log<'_>, region: Region) -> Result<bool, AllocError> {
    let parts = parts_of(alloc, log, region.join)?;
    if parts.leaves.len() > MOST_LEAVES {
        return Ok(true);
    }
    let mut sets = Vec::new(alloc);
    for place in 0..parts.leaves.len() {
        sets.push(LeafSet::single(place))?;
    }
    for line in &parts.joins {
        sets = connect(alloc, log, &parts, *line, sets)?;
    }
    if let Some(line) = region.select {
        sets = connect(alloc, log, &parts, line, sets)?;
    }
    Ok(sets.len() <= 1)
}

/// Whether the join graph of some region of the log isn't connected: then each of its trees has a Cartesian product.
pub fn falls_apart(alloc: Global, log: &Log<'_>) -> Result<bool, AllocError> {
    for region in &regions_of(alloc, log)? {
        if !is_connected(alloc, log, *region)? {
            return Ok(true);
        }
    }
    Ok(false)
}
