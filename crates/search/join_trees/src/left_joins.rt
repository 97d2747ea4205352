//! Outer joins above a region: what one of them costs, and how many rows it makes. It may be placed over each set that has the columns of its condition.

use crate::log_estimates::{LogEstimates, mentioned_leaves};
use crate::selectivities::part_of;
use crate::sets::LeafSet;
use crate::table_costs::{index_probe_cost, join_inputs};
use algebra::{ClassId, Condition, Conjuncts};
use costs::{Estimate, join_cost, scan_cost, selectivity, with_each};
use physical::JoinMethod;
use std::alloc::{AllocError, Global};

/// An outer join whose left side is a region, or another outer join above it.
#[derive(Clone, Copy)]
pub struct OuterJoin<'a> {
    pub condition: &'a Conjuncts,
    /// The class of its right side.
    pub right: ClassId,
}

/// What is estimated of an outer join.
#[derive(Clone, Copy, Drop)]
pub struct LeftJoinEstimate {
    /// The leaves of which its condition mentions a column.
    pub leaves: LeafSet,
    /// Its right side.
    right: Estimate,
    /// What finding the matches of one row costs, where an index does.
    probe: Option<u64>,
    /// How many matches a row has, one at least: a mean, rounded up.
    matches: u64,
}

/// What a table costs to read; of what is no table, its rows: this crate's own estimate.
fn reading_cost(estimates: LogEstimates<'_, '_>, class: ClassId, rows: u64) -> u64 {
    match estimates.instance_of(class) {
        Some(instance) => scan_cost(estimates.statistics, estimates.log.instances(), instance),
        None => rows,
    }
}

/// What finding the matches of one row in a right side that is a table costs, where an index does by one of the conditions.
pub fn probe_of(
    estimates: LogEstimates<'_, '_>,
    conditions: &[Condition],
    right: ClassId,
) -> Option<u64> {
    if estimates.instance_of(right).is_none() {
        return None;
    }
    let columns = estimates.log.classes().columns;
    let mut least: Option<u64> = None;
    for conjunct in conditions {
        if let Some((a, b)) = conjunct.equated() {
            let own = if columns.has(right, a) { a } else { b };
            if let Some(cost) = index_probe_cost(
                estimates.statistics,
                estimates.log.instances(),
                own,
            ) {
                least = Some(least.unwrap_or(u64::MAX).min(cost));
            }
        }
    }
    least
}

impl LeftJoinEstimate {
    /// What is estimated of an outer join over a region with these leaves.
    pub fn of(
        alloc: Global,
        estimates: LogEstimates<'_, '_>,
        leaves: &[ClassId],
        outer: OuterJoin<'_>,
    ) -> Result<LeftJoinEstimate, AllocError> {
        let rows = estimates.cardinalities.rows(outer.right);
        let cost = reading_cost(estimates, outer.right, rows);
        let mut matches = rows;
        let mut leaves_of_condition = LeafSet::EMPTY;
        for conjunct in outer.condition.as_slice() {
            let selectivity = selectivity(
                estimates.statistics,
                estimates.log.instances(),
                conjunct,
            );
            matches = part_of(matches, selectivity);
            leaves_of_condition = leaves_of_condition.union(mentioned_leaves(
                alloc,
                estimates.log,
                leaves,
                conjunct,
            )?);
        }
        Ok(LeftJoinEstimate {
            leaves: leaves_of_condition,
            right: Estimate { rows, cost },
            probe: probe_of(estimates, outer.condition.as_slice(), outer.right),
            matches: matches.max(1),
        })
    }

    /// How many rows it makes of so many.
    pub fn rows(self, rows: u64) -> u64 {
        rows.saturating_mul(self.matches)
    }

    /// What it costs to join so many rows, beside what these cost. That a hash join serves is assumed.
    pub fn cost(self, rows: u64) -> u64 {
        let inputs = join_inputs(Estimate { rows, cost: 0 }, self.right);
        let hash_join = join_cost(JoinMethod::Hash, inputs);
        let least = hash_join.min(join_cost(JoinMethod::NestedLoop, inputs));
        match self.probe {
            Some(each) => least.min(with_each(0, rows, each)),
            None => least,
        }
    }
}
