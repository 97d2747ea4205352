//! What is placed in a join tree, over the rows of one of its sets: a condition with a subquery, or an outer join above the region.

use crate::left_joins::LeftJoinEstimate;
use crate::selectivities::part_of;
use crate::sets::LeafSet;
use crate::subqueries::SubqueryEstimate;

/// What may be placed over the rows of a set, which has other rows then.
#[derive(Clone, Copy, Drop)]
pub enum Placeable {
    Subquery(SubqueryEstimate),
    LeftJoin(LeftJoinEstimate),
}

impl Placeable {
    /// The leaves whose columns it needs.
    pub fn leaves(self) -> LeafSet {
        match self {
            Placeable::Subquery(subquery) => subquery.leaves,
            Placeable::LeftJoin(join) => join.leaves,
        }
    }

    /// What it costs to evaluate it over so many rows, beside what these cost.
    pub fn cost(self, rows: u64) -> u64 {
        match self {
            Placeable::Subquery(subquery) => subquery.evaluation.cost(rows),
            Placeable::LeftJoin(join) => join.cost(rows),
        }
    }

    /// The rows that come of so many.
    pub fn rows(self, rows: u64) -> u64 {
        match self {
            Placeable::Subquery(subquery) => part_of(rows, subquery.selectivity),
            Placeable::LeftJoin(join) => join.rows(rows),
        }
    }
}
