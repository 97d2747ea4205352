//! What is estimated of a log before a region is looked at.

use crate::sets::LeafSet;
use algebra::{ClassId, Condition, Expr};
use costs::Cardinalities;
use logs::Log;
use query::InstanceId;
use statistics::Statistics;
use std::alloc::{AllocError, Global};

/// A log with the statistics of its tables and the cardinalities of its classes.
#[derive(Clone, Copy)]
pub struct LogEstimates<'a, 'q> {
    pub log: &'a Log<'q>,
    pub statistics: &'a Statistics,
    pub cardinalities: &'a Cardinalities,
}

impl LogEstimates<'_, '_> {
    /// The table instance that a class has the rows of, if it is one's.
    pub fn instance_of(self, class: ClassId) -> Option<InstanceId> {
        match self.log.member(class)?.expr {
            Expr::Get(instance) => Some(*instance),
            _ => None,
        }
    }
}

/// The leaves of which the condition mentions a column.
pub fn mentioned_leaves(
    alloc: Global,
    log: &Log<'_>,
    leaves: &[ClassId],
    condition: &Condition,
) -> Result<LeafSet, AllocError> {
    let classes = log.classes().columns;
    let mut set = LeafSet::EMPTY;
    for place in 0..leaves.len() {
        if !condition.is_without(alloc, classes, leaves[place])? {
            set = set.union(LeafSet::single(place));
        }
    }
    Ok(set)
}
