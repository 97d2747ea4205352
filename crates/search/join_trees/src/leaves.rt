//! Leaves of a join graph: their rows and what they cost, with the conditions on them alone and without.

ghost use Rattle.join_trees.specs.Estimates.{AreOfLog};

use crate::log_estimates::LogEstimates;
use crate::selectivities::passing_rows;
use crate::subqueries::class_cost;
use crate::table_costs::index_filter_cost;
use algebra::{ClassId, Condition};
use costs::{scan_cost, sum};
use std::alloc::{AllocError, Global};

/// What is estimated of a leaf.
#[derive(Clone, Copy, Drop)]
pub struct Leaf {
    /// Its rows without the conditions on it alone, and what they cost.
    pub unfiltered_rows: u64,
    pub unfiltered_cost: u64,
    /// The selectivity of these conditions, if there are any.
    pub selectivity: Option<u64>,
    /// What the rows that pass cost by an index; the greatest number where none finds them.
    pub index_cost: u64,
}

impl Leaf {
    /// What is no leaf.
    pub const NONE: Leaf = Leaf {
        unfiltered_rows: 0,
        unfiltered_cost: 0,
        selectivity: None,
        index_cost: u64::MAX,
    };

    /// A leaf with no condition on it.
    pub fn unfiltered(
        alloc: Global,
        estimates: LogEstimates<'_, '_>,
        class: ClassId,
    ) -> Result<Leaf, AllocError>
        requires { AreOfLog estimates }
    {
        let rows = estimates.cardinalities.rows(class);
        let cost = match estimates.instance_of(class) {
            Some(instance) => scan_cost(estimates.statistics, estimates.log.instances(), instance),
            None => class_cost(alloc, estimates, class)?.unwrap_or(rows),
        };
        Ok(Leaf {
            unfiltered_rows: rows,
            unfiltered_cost: cost,
            ..Leaf::NONE
        })
    }

    /// Its rows that pass the conditions on it alone.
    pub fn rows(self) -> u64 {
        match self.selectivity {
            Some(selectivity) => passing_rows(self.unfiltered_rows, selectivity),
            None => self.unfiltered_rows,
        }
    }

    /// What these cost.
    pub fn cost(self) -> u64 {
        match self.selectivity {
            Some(_) => {
                let filtered = sum(self.unfiltered_cost, self.unfiltered_rows);
                filtered.min(self.index_cost)
            }
            None => self.unfiltered_cost,
        }
    }
}

/// What the rows of a leaf that pass a condition cost by an index, if there is one.
pub fn cost_by_index(
    estimates: LogEstimates<'_, '_>,
    class: ClassId,
    condition: &Condition,
    selectivity: u64,
) -> Option<u64> {
    let instances = estimates.log.instances();
    let instance = instances.get(estimates.instance_of(class)? as usize)?;
    index_filter_cost(
        estimates.statistics,
        instances,
        instance,
        condition,
        selectivity,
    )
}
